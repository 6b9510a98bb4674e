//! Carrying out a decision.

ghost use Rattle.std.specs.Prelude.{◌≡◌};
ghost use Rattle.teb_rules.specs.laws.Lawful.{Lawful};
ghost use Rattle.short_reply.specs.ShortReplies.{full_reply};
ghost use Rattle.engine_core.specs.Decisions.{carried, IsBounded, IsShort};
ghost use Rattle.engine_core.specs.Cells.{HasKeys};
ghost use Rattle.store_setup.specs.Stores.{store_of};
ghost use Rattle.engine_core.specs.States.{IsReady};

use crate::append_event::append_event;
use crate::decision::Decision;
use crate::engine_state::EngineState;
use crate::falls::fall;
use crate::read_cells::read_cells;
use candidate_reads::Place;
use short_reply::ShortReply;
use teb_rules::history::Event;
use teb_rules::names::{Cell, Reply, Txn};
use version_chain::Chains;

/// Reads the cells of a scan, and replies with their values. It is not inlined, since scans are rare and their reply is long.
#[inline(never)]
pub fn scan<C: Chains>(state: &mut EngineState<C>, t: Txn, first: Cell, count: u8) -> Reply
    requires leads { Lawful (store_of state.old.setup).setup (carried (store_of state.old.setup) state.old.history.events (Decision.Scan t first count)).1 }
    requires keys { HasKeys first count }
    requires ready { IsReady state.old }
    ensures reply { result ≡ (carried (store_of state.old.setup) state.old.history.events (Decision.Scan t first count)).0 }
    ensures events { state.new.history.events ≡ (carried (store_of state.old.setup) state.old.history.events (Decision.Scan t first count)).1 }
    ensures setup { state.new.setup ≡ state.old.setup }
{
    Reply::Values(read_cells(state, t, first, count))
}

/// Writes the events of a decision that is no scan, and returns the reply as a short one, which is moved at little cost.
pub fn write<C: Chains>(decision: Decision, state: &mut EngineState<C>) -> ShortReply
    requires short { IsShort decision }
    requires leads { Lawful (store_of state.old.setup).setup (carried (store_of state.old.setup) state.old.history.events decision).1 }
    requires bounded { IsBounded (C.lists state.old.chains) (store_of state.old.setup).setup state.old.history.events decision }
    requires ready { IsReady state.old }
    ensures reply { full_reply result ≡ (carried (store_of state.old.setup) state.old.history.events decision).0 }
    ensures events { state.new.history.events ≡ (carried (store_of state.old.setup) state.old.history.events decision).1 }
    ensures setup { state.new.setup ≡ state.old.setup }
{
    match decision {
        Decision::Answer(reply) => reply,
        Decision::Grant(reply, event) => {
            append_event(state, event, Place::FRONT);
            reply
        }
        Decision::Put {
            txn,
            cell,
            value,
            place,
        } => {
            append_event(state, Event::Put { txn, cell, value }, place);
            ShortReply::Done
        }
        Decision::Scan(..) => unreachable!(),
        Decision::Fall(t, cause) => {
            fall(state, t, cause);
            ShortReply::Aborted(cause)
        }
    }
}
