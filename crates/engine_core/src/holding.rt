//! What a session holds.

ghost use Rattle.engine_core.specs.Views.{events_in};
ghost use Rattle.engine_core.specs.HeldBy.{IsHeld};

use crate::engine_view::EngineView;
use teb_rules::history::Phase;
use teb_rules::names::{Session, Txn};
use version_chain::Chains;

/// What a session holds.
#[derive(Clone, Copy)]
pub enum Holding {
    /// No transaction.
    Nothing,
    /// One that a cascade aborted, of which the session was not told.
    Fallen(Txn),
    /// One that is neither committed nor aborted.
    Running { txn: Txn, is_prepared: bool },
}

/// Returns what a session holds: the transaction that it began last, if that is live. It costs one look.
pub fn held<C: Chains>(view: &EngineView<C>, session: Session) -> Holding
    ensures { IsHeld (events_in view.now) session result }
{
    let txn = view.state.latest.of(session);
    match view.facts.history.phase(txn) {
        Phase::Running => Holding::Running {
            txn,
            is_prepared: false,
        },
        Phase::Ready => Holding::Running {
            txn,
            is_prepared: true,
        },
        _ => {
            if view.facts.history.is_live(txn) {
                Holding::Fallen(txn)
            } else {
                Holding::Nothing
            }
        }
    }
}
