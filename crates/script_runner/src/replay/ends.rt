//! The end of each session that holds a transaction.

ghost use Rattle.std.specs.Prelude.{◌≡◌, ◌++◌, IfOk, List, OnOk, map};
ghost use Rattle.teb_rules.specs.Run.{history_after, ends_of};
ghost use Rattle.script_text.specs.declared.Answered.{Answered};
ghost use Rattle.script_runner.specs.replay.Logs.{log_of};
ghost use Rattle.script_runner.specs.replay.Holders.{holder_at, holders_from, end_of};

use crate::replay::lines::ask;
use answer_log::Log;
use engine_core::Engine;
use std::alloc::{AllocError, Global};
use teb_rules::history::History;
use teb_rules::names::{Request, SESSIONS, Session};
use version_chain::Chains;

/// Asks End for each session that holds a transaction, in ascending number, and logs the replies.
///
/// # Errors
/// `AllocError`: out of memory. The first of them may have been asked, with their replies in the log.
#[tactic(auto, using(crate::proofs::lemmas::replay::Holders::ends_of_holders))]
pub fn end_sessions<C: Chains, L: Log>(
    alloc: Global,
    engine: &mut Engine<C>,
    log: &mut L,
) -> Result<(), AllocError>
    ensures store { engine.new.store ≡ engine.old.store }
    ensures names { engine.new.names ≡ engine.old.names }
    ensures log { OnOk result ((told : List Answered) → L.tells log.old engine.old.names told
        → L.tells log.new engine.old.names (told ++ log_of engine.old.store engine.old.events (ends_of engine.old.events))) }
    ensures events { OnOk result (engine.new.events ≡ history_after engine.old.store engine.old.events (ends_of engine.old.events)) }
{
    let holders = holding_sessions(alloc, engine.history())?;
    ask_ends(engine, &holders, log)
}

fn ask_ends<C: Chains, L: Log>(
    engine: &mut Engine<C>,
    holders: &[Session],
    log: &mut L,
) -> Result<(), AllocError>
    ensures store { engine.new.store ≡ engine.old.store }
    ensures names { engine.new.names ≡ engine.old.names }
    ensures log { OnOk result ((told : List Answered) → L.tells log.old engine.old.names told
        → L.tells log.new engine.old.names (told ++ log_of engine.old.store engine.old.events (map end_of holders.now))) }
    ensures events { OnOk result (engine.new.events ≡ history_after engine.old.store engine.old.events (map end_of holders.now)) }
{
    for session in holders {
        ask(engine, *session, &Request::End, log)?;
    }
    Ok(())
}

/// Returns the sessions that hold a transaction, in ascending number.
///
/// # Errors
/// `AllocError`: out of memory.
pub fn holding_sessions(alloc: Global, history: &History) -> Result<Vec<Session>, AllocError>
    ensures { IfOk result (λ v. v.items ≡ holders_from SESSIONS 1 history.now.events) }
{
    let mut holders = Vec::new(alloc);
    for s in 1..SESSIONS + 1 {
        add_holder(&mut holders, history, Session(s))?;
    }
    Ok(holders)
}

#[tactic(auto, using(crate::proofs::lemmas::replay::Holders::held_or_not))]
fn add_holder(
    holders: &mut Vec<Session>,
    history: &History,
    session: Session,
) -> Result<(), AllocError>
    ensures { OnOk result (holders.new.items ≡ holders.old.items ++ holder_at history.now.events session.0) }
{
    if history.held(session).is_some() {
        holders.push(session)?;
    }
    Ok(())
}
