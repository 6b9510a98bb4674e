//! Appending an event to the history, and noting it in all that is kept of the history.

ghost use Rattle.std.specs.Prelude.{◌≡◌, ◌≤◌, ◌+◌, ◌∷◌};
ghost use Rattle.cursor_book.specs.Cursors.{CursorsOf};
ghost use Rattle.engine_core.specs.Appends.{MayAppend, AreBehind};
ghost use Rattle.store_setup.specs.Stores.{store_of};

use crate::engine_state::{EngineState, facts_of};
use crate::keeping::{keep_cursors, keep_versions};
use crate::notes::note_each;
use candidate_reads::Place;
use cursor_book::Cursors;
use store_setup::Setup;
use teb_rules::history::{Event, History};
use version_chain::Chains;

/// Appends an event that the rules grant; a Put has the place of its version. It takes one place of the room.
pub fn append_event<C: Chains>(state: &mut EngineState<C>, event: Event, place: Place)
    requires { MayAppend C.lists state.old event place }
    ensures events { state.new.history.events ≡ event ∷ state.old.history.events }
    ensures setup { state.new.setup ≡ state.old.setup }
    ensures left { state.old.room ≡ state.new.room + 1 }
{
    // Each arm has a copy of `append` in which the kind of the event is known.
    match event {
        Event::Began { .. } => append(state, event, place),
        Event::Got { .. } => append(state, event, place),
        Event::Put { .. } => append(state, event, place),
        Event::Ready(_) => append(state, event, place),
        Event::Done(_) => append(state, event, place),
        Event::Gone { .. } => append(state, event, place),
        Event::Told(_) => append(state, event, place),
    }
}

/// The work of `append_event`, copied for each kind of event.
#[inline(always)]
fn append<C: Chains>(state: &mut EngineState<C>, event: Event, place: Place)
    requires { MayAppend C.lists state.old event place }
    ensures events { state.new.history.events ≡ event ∷ state.old.history.events }
    ensures setup { state.new.setup ≡ state.old.setup }
    ensures left { state.old.room ≡ state.new.room + 1 }
{
    state.history.push(event);
    state.book.note(&state.history, event, place.is_there);
    note_each(&mut state.controls, &state.history, &state.setup, event);
    keep_versions(&mut state.chains, event, place);
    move_cursors(&mut state.cursors, &state.history, &state.setup, event);
    state.latest.note(event);
    state.room -= 1;
}

/// Notes the newest event in the cursors.
#[inline(always)]
fn move_cursors(cursors: &mut Cursors, history: &History, setup: &Setup, event: Event)
    requires { AreBehind (store_of setup.now).setup history.now.events event cursors.old }
    ensures cursors { CursorsOf cursors.new.cursors (store_of setup.now).setup history.now.events }
    ensures spare { cursors.old.spare ≤ cursors.new.spare + 1 }
{
    keep_cursors(cursors, &facts_of(history, setup), event);
}
