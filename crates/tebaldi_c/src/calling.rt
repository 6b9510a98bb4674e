//! The calls that a store's caller performs on its file.

ghost use Rattle.std.specs.Prelude.{◌≡◌, ◌≢◌, ◌↔◌, ◌⊎◌, IsNone, None, Some, Option, slice_get};
ghost use Rattle.tebaldi_c.specs.Asking.{IfFile, IfOpen};
ghost use Rattle.tebaldi_c.specs.Calls.{AfterCall, AfterFailure, IsCall, IsFileForm, IsNextCall};
ghost use Rattle.tebaldi_c.specs.Shelves.{calls, next_place};

use crate::buffers::lay_over;
use crate::contents::Contents;
use crate::filed::FileStore;
use crate::form::{CallForm, FileForm};
use crate::status::{NO_SUCH, NOT_OPEN, OK};
use crate::store::StoreHandle;
use crash_disk::Call;
use std::alloc::Global;

/// Reads the first call that waits to be performed on a store's file. For a write, as many of its bytes from `from` on as fit are copied to
/// `out`.
///
/// # Errors
/// `NOT_OPEN`; `NO_SUCH` if no call waits, or the store has no file. At each of them `call` and `out` are unchanged.
#[unsafe(no_mangle)]
pub extern "C" fn tebaldi_next_call(
    alloc: Global,
    store: &mut StoreHandle,
    from: usize,
    call: &mut CallForm,
    out: &mut [u8],
) -> u32
    ensures ok { result ≡ OK → IfOpen store.old.held.value (λ s. IsNextCall s.file from call.new out.old out.new) }
    ensures no_such { result ≡ NO_SUCH → IfOpen store.old.held.value (λ s. IfFile s.file (λ f. f.waiting ≡ 0)) }
    ensures stays { store.new.held.value ≡ store.old.held.value }
    ensures not_open { result ≡ NOT_OPEN ↔ IsNone store.old.held.value }
    ensures not_told { result ≢ OK → (call.new ≡ call.old) × (out.new ≡ out.old) }
    ensures other { result ≢ OK → result ≢ NOT_OPEN → result ≡ NO_SUCH }
{
    let Some(shelf) = store.take(alloc) else {
        return NOT_OPEN;
    };
    let status = match &shelf.contents {
        Contents::Memory(_) => NO_SUCH,
        Contents::File(file) => tell_call(file, from, call, out),
    };
    store.put(shelf);
    status
}

/// Notes that the first call that waits was performed on a store's file.
///
/// # Errors
/// `NOT_OPEN`; `NO_SUCH` if no call waits, or the store has no file. At each of them the store is unchanged.
#[unsafe(no_mangle)]
pub extern "C" fn tebaldi_performed(alloc: Global, store: &mut StoreHandle) -> u32
    ensures ok { result ≡ OK → AfterCall store.old.held.value store.new.held.value }
    ensures no_such { result ≡ NO_SUCH → IfOpen store.old.held.value (λ s. IfFile s.file (λ f. f.waiting ≡ 0)) }
    ensures stays { result ≢ OK → store.new.held.value ≡ store.old.held.value }
    ensures not_open { result ≡ NOT_OPEN ↔ IsNone store.old.held.value }
    ensures other { result ≢ OK → result ≢ NOT_OPEN → result ≡ NO_SUCH }
{
    let Some(mut shelf) = store.take(alloc) else {
        return NOT_OPEN;
    };
    let status = shelf.performed();
    store.put(shelf);
    status
}

/// Notes that a call on a store's file has failed. From then on nothing is answered.
///
/// # Errors
/// `NOT_OPEN`; `NO_SUCH` if the store has no file. At each of them the store is unchanged.
#[unsafe(no_mangle)]
pub extern "C" fn tebaldi_failed(alloc: Global, store: &mut StoreHandle) -> u32
    ensures ok { result ≡ OK → AfterFailure store.old.held.value store.new.held.value }
    ensures no_such { result ≡ NO_SUCH → IfOpen store.old.held.value (λ s. s.file ≡ None) }
    ensures stays { result ≢ OK → store.new.held.value ≡ store.old.held.value }
    ensures not_open { result ≡ NOT_OPEN ↔ IsNone store.old.held.value }
    ensures other { result ≢ OK → result ≢ NOT_OPEN → result ≡ NO_SUCH }
{
    let Some(mut shelf) = store.take(alloc) else {
        return NOT_OPEN;
    };
    let status = shelf.fail();
    store.put(shelf);
    status
}

/// Tells what is known of a store's file.
///
/// # Errors
/// `NOT_OPEN`; `NO_SUCH` if the store has no file. At each of them `state` is unchanged.
#[unsafe(no_mangle)]
pub extern "C" fn tebaldi_file_state(
    alloc: Global,
    store: &mut StoreHandle,
    state: &mut FileForm,
) -> u32
    ensures ok { result ≡ OK → IfOpen store.old.held.value (λ s. IsFileForm s.file state.new) }
    ensures no_such { result ≡ NO_SUCH → IfOpen store.old.held.value (λ s. s.file ≡ None) }
    ensures stays { store.new.held.value ≡ store.old.held.value }
    ensures not_open { result ≡ NOT_OPEN ↔ IsNone store.old.held.value }
    ensures not_told { result ≢ OK → state.new ≡ state.old }
    ensures other { result ≢ OK → result ≢ NOT_OPEN → result ≡ NO_SUCH }
{
    let Some(shelf) = store.take(alloc) else {
        return NOT_OPEN;
    };
    let status = match &shelf.contents {
        Contents::Memory(_) => NO_SUCH,
        Contents::File(file) => {
            *state = file_form(file);
            OK
        }
    };
    store.put(shelf);
    status
}

/// Returns the form of what is known of a store's file.
fn file_form(file: &FileStore) -> FileForm
    ensures { IsFileForm (Some file.now.file) result }
{
    FileForm {
        kept: file.kept(),
        left: file.left(),
        waiting: file.waiting(),
        stopped: file.is_stopped(),
    }
}

/// Tells the first call that waits. Returns the status.
fn tell_call(file: &FileStore, from: usize, told: &mut CallForm, out: &mut [u8]) -> u32
    ensures ok { result ≡ OK → IsCall (slice_get (calls file.now.file) (next_place file.now.file)) from told.new out.old out.new }
    ensures not_told { result ≢ OK → (told.new ≡ told.old) × (out.new ≡ out.old) }
    ensures other { (result ≡ OK) ⊎ ((result ≡ NO_SUCH) × (file.now.file.waiting ≡ 0)) }
{
    match file.call() {
        None => NO_SUCH,
        Some((Call::Write { at, .. }, bytes)) => {
            let _ = lay_over(out, &bytes[from.min(bytes.len())..]);
            *told = CallForm {
                kind: 1,
                at,
                len: bytes.len(),
            };
            OK
        }
        Some((Call::Sync, _)) => {
            *told = CallForm {
                kind: 2,
                at: 0,
                len: 0,
            };
            OK
        }
    }
}
