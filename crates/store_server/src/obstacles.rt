//! What keeps an epoch from its end.

ghost use Rattle.std.specs.Prelude.{◌≡◌, ◌↔◌, IsTrue, MatchOption};
ghost use Rattle.std.specs.List.{list_any};
ghost use Rattle.teb_rules.specs.history.Live.{live_txns};
ghost use Rattle.teb_rules.specs.history.Phases.{unfinished};
ghost use Rattle.tree_switch.specs.Refusals.{AllTold};
ghost use Rattle.teb_rules.specs.Epochs.{IsDrained, IsUntold};
ghost use Rattle.shared_store.specs.Served.{IsObstacle};

use chain_pool::PooledChains;
use engine_core::Engine;
use shared_store::Obstacle;
use teb_rules::history::History;
use teb_rules::names::{SESSIONS, Session};

/// Returns what keeps the epoch of an engine from its end: an unfinished transaction, or else the least session that was not told of an
/// abort. It goes through the live transactions.
pub(crate) fn obstacle_in(engine: &Engine<PooledChains>) -> Option<Obstacle>
    ensures { MatchOption result (IsDrained engine.now.events) (IsObstacle engine.now.events) }
{
    if is_any_unfinished(engine.history()) {
        return Some(Obstacle::Unfinished);
    }
    match first_untold(engine) {
        Some(session) => Some(Obstacle::Untold(session)),
        None => None,
    }
}

/// Returns whether a transaction is unfinished.
fn is_any_unfinished(history: &History) -> bool
    ensures { result ≡ list_any (λ t. unfinished history.now.events t.0) (live_txns history.now.events) }
{
    history.live().iter().any(|t| history.is_unfinished(*t))
}

/// Returns the least session that holds an aborted transaction.
fn first_untold(engine: &Engine<PooledChains>) -> Option<Session>
    ensures { MatchOption result (AllTold engine.now.events) (λ s. IsUntold engine.now.events s.0) }
{
    let history = engine.history();
    for i in 0..SESSIONS {
        let session = Session(i + 1);
        if is_untold(history, session) {
            return Some(session);
        }
    }
    None
}

/// Returns whether a session holds an aborted transaction.
fn is_untold(history: &History, session: Session) -> bool
    ensures { IsTrue result ↔ IsUntold history.now.events session.0 }
{
    match history.held(session) {
        Some(t) => history.is_aborted(t),
        None => false,
    }
}
