//! The printed run of a store.

ghost use Rattle.std.specs.Prelude.{◌≡◌, ◌≢◌, ◌↔◌, IsNone, IfOk};
ghost use Rattle.audit_check.specs.Audit.{IsAudited};
ghost use Rattle.printed_run.specs.Printed.{IsPrintedRun};
ghost use Rattle.tebaldi_c.specs.Asking.{IfOpen};
ghost use Rattle.tebaldi_c.specs.RunText.{IsRunTold};

use crate::buffers::lay_over;
use crate::contents::Contents;
use crate::shelf::Shelf;
use crate::status::{NOT_OPEN, OK, OUT_OF_MEMORY};
use crate::store::StoreHandle;
use printed_run::printed_run;
use std::alloc::{AllocError, Global};

/// Copies as much of the printed run of the present epoch as fits to `out`; `len` is the length of the text. It has the starting rows,
/// the events, the serial order and the final rows, as `threads` prints them. `tebaldi_audit` accepts the whole text, if it has fewer than
/// 2^32 - 1 bytes.
///
/// # Errors
/// `NOT_OPEN`, `OUT_OF_MEMORY`. At each of them `out` and `len` are unchanged.
#[unsafe(no_mangle)]
pub extern "C" fn tebaldi_run_text(
    alloc: Global,
    store: &mut StoreHandle,
    out: &mut [u8],
    len: &mut usize,
) -> u32
    ensures ok { result ≡ OK → IfOpen store.old.held.value (λ s. IsRunTold s.engine out.old out.new len.new) }
    ensures stays { store.new.held.value ≡ store.old.held.value }
    ensures not_open { result ≡ NOT_OPEN ↔ IsNone store.old.held.value }
    ensures not_told { result ≢ OK → (out.new ≡ out.old) × (len.new ≡ len.old) }
    ensures other { result ≢ OK → result ≢ NOT_OPEN → result ≡ OUT_OF_MEMORY }
{
    let Some(shelf) = store.take(alloc) else {
        return NOT_OPEN;
    };
    let status = match shelf.run_text(alloc) {
        Ok(text) => {
            *len = lay_over(out, &text);
            OK
        }
        Err(_) => OUT_OF_MEMORY,
    };
    store.put(shelf);
    status
}

impl Shelf {
    /// Returns the printed run of the present epoch.
    #[tactic(auto, using(crate::proofs::SetUps::named_by))]
    fn run_text(&self, alloc: Global) -> Result<Vec<u8>, AllocError>
        ensures text { IfOk result (λ v. IsPrintedRun self.now.engine.store self.now.engine.names self.now.engine.events v.items) }
        ensures audited { IfOk result (λ v. IsAudited v.items) }
    {
        match &self.contents {
            Contents::Memory(engine) => printed_run(alloc, engine),
            Contents::File(file) => printed_run(alloc, file.engine()),
        }
    }
}
