//! The history, one event at a time.

ghost use Rattle.std.specs.Prelude.{◌≡◌, ◌≢◌, ◌↔◌, ◌≤◌, IsNone, length, reverse, slice_get};
ghost use Rattle.tebaldi_c.specs.Asking.{IfOpen};
ghost use Rattle.tebaldi_c.specs.Events.{IsEvent};

use crate::status::{NO_SUCH, NOT_OPEN, OK};
use crate::store::StoreHandle;
use c_forms::{EventForm, event_form};
use std::alloc::Global;

/// Reads the event at a place of the history: 0 is the oldest.
///
/// # Errors
/// `NOT_OPEN`; `NO_SUCH` if there are fewer events. At each of them `event` is unchanged.
#[unsafe(no_mangle)]
pub extern "C" fn tebaldi_event(
    alloc: Global,
    store: &mut StoreHandle,
    place: usize,
    event: &mut EventForm,
) -> u32
    ensures ok { result ≡ OK → IfOpen store.old.held.value (λ s. IsEvent (slice_get (reverse s.engine.events) place) event.new) }
    ensures no_such { result ≡ NO_SUCH → IfOpen store.old.held.value (λ s. length s.engine.events ≤ place) }
    ensures stays { store.new.held.value ≡ store.old.held.value }
    ensures not_open { result ≡ NOT_OPEN ↔ IsNone store.old.held.value }
    ensures not_told { result ≢ OK → event.new ≡ event.old }
    ensures other { result ≢ OK → result ≢ NOT_OPEN → result ≡ NO_SUCH }
{
    let Some(shelf) = store.take(alloc) else {
        return NOT_OPEN;
    };
    let history = shelf.engine().history();
    let status = if place < history.len() {
        *event = event_form(&history.at(place));
        OK
    } else {
        NO_SUCH
    };
    store.put(shelf);
    status
}
