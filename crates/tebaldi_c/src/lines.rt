//! The line of a reply.

ghost use Rattle.std.specs.Prelude.{◌≡◌, ◌≢◌, ◌↔◌, None, IsNone};
ghost use Rattle.c_forms.specs.Lines.{line_in};
ghost use Rattle.tebaldi_c.specs.Asking.{IfOpen};
ghost use Rattle.tebaldi_c.specs.Buffers.{IsTold};

use crate::buffers::lay_over;
use crate::status::{NO_SUCH, NOT_OPEN, OK, OUT_OF_MEMORY};
use crate::store::StoreHandle;
use c_forms::{ReplyForm, line_of};
use std::alloc::Global;

/// Copies as much of the line of a reply to a session as fits to `out`; `len` is the length of the line. The line is that of
/// `replay`, with its line feed.
///
/// # Errors
/// `NOT_OPEN`; `NO_SUCH` if the form is none of a reply, or has a node or a table that the store does not have;
/// `OUT_OF_MEMORY`. At each of them `out` and `len` are unchanged.
#[unsafe(no_mangle)]
pub extern "C" fn tebaldi_line(
    alloc: Global,
    store: &mut StoreHandle,
    session: u8,
    reply: &ReplyForm,
    out: &mut [u8],
    len: &mut usize,
) -> u32
    ensures ok { result ≡ OK → IfOpen store.old.held.value (λ s. IsTold (line_in s.engine.names session reply.now) out.old out.new len.new) }
    ensures no_such { result ≡ NO_SUCH → IfOpen store.old.held.value (λ s. line_in s.engine.names session reply.now ≡ None) }
    ensures stays { store.new.held.value ≡ store.old.held.value }
    ensures not_open { result ≡ NOT_OPEN ↔ IsNone store.old.held.value }
    ensures not_told { result ≢ OK → (out.new ≡ out.old) × (len.new ≡ len.old) }
    ensures other { result ≢ OK → result ≢ NOT_OPEN → result ≢ NO_SUCH → result ≡ OUT_OF_MEMORY }
{
    let Some(shelf) = store.take(alloc) else {
        return NOT_OPEN;
    };
    let status = match line_of(alloc, &shelf.engine().setup().names, session, reply) {
        Ok(Some(line)) => {
            *len = lay_over(out, &line);
            OK
        }
        Ok(None) => NO_SUCH,
        Err(_) => OUT_OF_MEMORY,
    };
    store.put(shelf);
    status
}
