//! An abort, with its cascade.

ghost use Rattle.std.specs.Prelude.{◌≡◌, IsTrue};
ghost use Rattle.teb_rules.specs.history.Phases.{unfinished};
ghost use Rattle.teb_rules.specs.Cascade.{abort};
ghost use Rattle.engine_core.specs.States.{IsReady};

use crate::append_event::append_event;
use crate::engine_state::{EngineState, facts_of};
use abort_cascade::cascade;
use candidate_reads::Place;
use teb_rules::history::Event;
use teb_rules::names::{Cause, Txn};
use version_chain::Chains;

/// Aborts an unfinished transaction, and then its cascade, in ascending number.
pub fn fall<C: Chains>(state: &mut EngineState<C>, t: Txn, cause: Cause)
    requires unfinished { IsTrue (unfinished state.old.history.events t.0) }
    requires ready { IsReady state.old }
    ensures events { state.new.history.events ≡ abort state.old.history.events t.0 cause }
    ensures setup { state.new.setup ≡ state.old.setup }
{
    let fallen = cascade(&state.book, &facts_of(&state.history, &state.setup), t);
    append_event(state, Event::Gone { txn: t, cause }, Place::FRONT);
    for i in 0..fallen.len() {
        let (txn, blamed) = fallen.at(i);
        append_event(
            state,
            Event::Gone {
                txn,
                cause: Cause::After(blamed),
            },
            Place::FRONT,
        );
    }
}
