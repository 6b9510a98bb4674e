//! Names and their numbers.

ghost use Rattle.std.specs.Prelude.{◌≡◌, ◌≢◌, ◌↔◌, ◌≤◌, Some, None, IsNone, length, slice_get};
ghost use Rattle.teb_rules.specs.names.Names.{number_of};
ghost use Rattle.tebaldi_c.specs.Asking.{IfOpen};
ghost use Rattle.tebaldi_c.specs.Buffers.{IsTold};
ghost use Rattle.tebaldi_c.specs.Naming.{names_in};

use crate::buffers::lay_over;
use crate::status::{NO_SUCH, NOT_OPEN, OK};
use crate::store::StoreHandle;
use std::alloc::Global;
use teb_rules::names::{NameBook, Names};

/// Finds the number of a name among the tables (`list` 0), the types (1) or the nodes (any other).
///
/// # Errors
/// `NOT_OPEN`; `NO_SUCH` if the name is not there. At each of them `number` is unchanged.
#[unsafe(no_mangle)]
pub extern "C" fn tebaldi_number(
    alloc: Global,
    store: &mut StoreHandle,
    list: u8,
    name: &[u8],
    number: &mut u8,
) -> u32
    ensures ok { result ≡ OK → IfOpen store.old.held.value (λ s. number_of (names_in s.engine.names list) name.now ≡ Some number.new) }
    ensures no_such { result ≡ NO_SUCH → IfOpen store.old.held.value (λ s. number_of (names_in s.engine.names list) name.now ≡ None) }
    ensures stays { store.new.held.value ≡ store.old.held.value }
    ensures not_open { result ≡ NOT_OPEN ↔ IsNone store.old.held.value }
    ensures not_told { result ≢ OK → number.new ≡ number.old }
    ensures other { result ≢ OK → result ≢ NOT_OPEN → result ≡ NO_SUCH }
{
    let Some(shelf) = store.take(alloc) else {
        return NOT_OPEN;
    };
    let status = match number_in(list_of(&shelf.engine().setup().names, list), name) {
        Some(found) => {
            *number = found;
            OK
        }
        None => NO_SUCH,
    };
    store.put(shelf);
    status
}

/// Copies as much of the name with a number as fits to `out`; `len` is the length of the name. Lists are as in `tebaldi_number`.
///
/// # Errors
/// `NOT_OPEN`; `NO_SUCH` if no name has the number. At each of them `out` and `len` are unchanged.
#[unsafe(no_mangle)]
pub extern "C" fn tebaldi_name(
    alloc: Global,
    store: &mut StoreHandle,
    list: u8,
    number: u8,
    out: &mut [u8],
    len: &mut usize,
) -> u32
    ensures no_such { result ≡ NO_SUCH → IfOpen store.old.held.value (λ s. length (names_in s.engine.names list) ≤ number) }
    ensures ok { result ≡ OK → IfOpen store.old.held.value (λ s. IsTold (slice_get (names_in s.engine.names list) number) out.old out.new len.new) }
    ensures stays { store.new.held.value ≡ store.old.held.value }
    ensures not_open { result ≡ NOT_OPEN ↔ IsNone store.old.held.value }
    ensures not_told { result ≢ OK → (out.new ≡ out.old) × (len.new ≡ len.old) }
    ensures other { result ≢ OK → result ≢ NOT_OPEN → result ≡ NO_SUCH }
{
    let Some(shelf) = store.take(alloc) else {
        return NOT_OPEN;
    };
    let names = list_of(&shelf.engine().setup().names, list);
    let status = if number < names.len() {
        *len = lay_over(out, names.name(number).as_bytes());
        OK
    } else {
        NO_SUCH
    };
    store.put(shelf);
    status
}

fn list_of(book: &NameBook, list: u8) -> &Names
    ensures { result.now ≡ names_in book.now list }
{
    match list {
        0 => &book.tables,
        1 => &book.types,
        _ => &book.nodes,
    }
}

/// Returns the number of a name, or `None` if it is not there.
fn number_in(names: &Names, name: &[u8]) -> Option<u8>
    ensures { result ≡ number_of names.now name.now }
{
    for number in 0..names.len() {
        if name == names.name(number).as_bytes() {
            return Some(number);
        }
    }
    None
}
