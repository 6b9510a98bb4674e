//! Whether a store may go on under another tree.

ghost use Rattle.std.specs.Prelude.{◌↔◌, MatchOption, IsTrue};
ghost use Rattle.store_setup.specs.SetupView.{setup_view};
ghost use Rattle.tree_switch.specs.Refusals.{IsLeast, IsUnfinished, AllFinished, AllTold, AreNumbered, AreOfSessions, IsRefusedBy};
ghost use Rattle.teb_rules.specs.Epochs.{IsDrained, IsUntold};

use crate::error::SwitchError;
use crate::names::same_names;
use engine_core::Engine;
use store_setup::Setup;
use teb_rules::history::History;
use teb_rules::names::{SESSIONS, Session, Txn};
use version_chain::Chains;

/// Tests whether the store of an engine may go on under a setup. It costs a look at each transaction.
///
/// # Errors
/// The first condition that fails, in the order of `SwitchError`.
pub fn check<C: Chains>(present: &Engine<C>, setup: &Setup) -> Result<(), SwitchError>
    ensures { IsRefusedBy present.now (setup_view setup.now) result }
{
    let history = present.history();
    if let Some(t) = first_unfinished(history) {
        return Err(SwitchError::Again(t));
    }
    if let Some(s) = first_untold(history) {
        return Err(SwitchError::Untold(s));
    }
    if !same_names(&setup.names.tables, &present.setup().names.tables) {
        return Err(SwitchError::Tables);
    }
    if !setup.rows.is_empty() {
        return Err(SwitchError::Rows);
    }
    Ok(())
}

/// Returns true if no transaction of an engine is unfinished, and each session was told of its abort. It costs one look.
pub fn is_drained<C: Chains>(engine: &Engine<C>) -> bool
    ensures { IsTrue result ↔ IsDrained engine.now.events }
{
    engine.history().live().is_empty()
}

/// Returns the least unfinished transaction.
fn first_unfinished(history: &History) -> Option<Txn>
    requires { AreNumbered history.now.events }
    ensures { MatchOption result (AllFinished history.now.events) (λ t. IsLeast (IsUnfinished history.now.events) t.0) }
{
    for i in 0..history.begun() {
        let t = Txn(i + 1);
        if history.is_unfinished(t) {
            return Some(t);
        }
    }
    None
}

/// Returns the least session that holds an aborted transaction.
fn first_untold(history: &History) -> Option<Session>
    requires { AreOfSessions history.now.events }
    ensures { MatchOption result (AllTold history.now.events) (λ s. IsLeast (IsUntold history.now.events) s.0) }
{
    for i in 0..SESSIONS {
        let s = Session(i + 1);
        if is_untold(history, s) {
            return Some(s);
        }
    }
    None
}

/// Returns whether a session holds an aborted transaction.
fn is_untold(history: &History, session: Session) -> bool
    ensures { IsTrue result ↔ IsUntold history.now.events session.0 }
{
    match history.held(session) {
        Some(t) => history.is_aborted(t),
        None => false,
    }
}
