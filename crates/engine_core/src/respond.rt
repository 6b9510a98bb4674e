//! The answer to a request, all but the cells of a scan.

ghost use Rattle.std.specs.Prelude.{◌≡◌};
ghost use Rattle.teb_rules.specs.Answer.{answer};
ghost use Rattle.engine_core.specs.Responses.{IsResponse};
ghost use Rattle.store_setup.specs.Stores.{store_of};
ghost use Rattle.engine_core.specs.States.{IsReady};

use crate::carry_out::write;
use crate::decision::Decision;
use crate::engine_state::EngineState;
use short_reply::ShortReply;
use teb_rules::names::{Cell, Request, Session, Txn};
use version_chain::Chains;

/// The outcome of a request.
#[derive(Clone, Copy)]
pub enum Response {
    /// The reply; everything is written.
    Reply(ShortReply),
    /// The transaction reads this many cells, from this one on, and nothing is written yet.
    Scan(Txn, Cell, u8),
}

/// Answers a request, all but the cells of a scan. The request is lent, so that no call writes a copy of it. No other function
/// decides or writes, so that both can be inlined here.
#[inline(never)]
pub fn respond<C: Chains>(
    state: &mut EngineState<C>,
    session: Session,
    request: &Request,
) -> Response
    requires ready { IsReady state.old }
    ensures answer { IsResponse state.old state.new (answer (store_of state.old.setup) state.old.history.events session request.now) result }
    ensures setup { state.new.setup ≡ state.old.setup }
{
    let decision = state.decide(session, *request);
    if let Decision::Scan(t, first, count) = decision {
        return Response::Scan(t, first, count);
    }
    Response::Reply(write(decision, state))
}
