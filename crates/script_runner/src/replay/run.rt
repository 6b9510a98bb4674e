//! The replay.

ghost use Rattle.std.specs.Prelude.{◌≡◌, ◌++◌, List, OnOk};
ghost use Rattle.teb_rules.specs.Run.{history_after};
ghost use Rattle.script_text.specs.declared.Answered.{Answered};
ghost use Rattle.script_runner.specs.replay.Logs.{log_of, replayed};

use crate::replay::ends::end_sessions;
use crate::replay::lines::ask_lines;
use answer_log::Log;
use engine_core::Engine;
use script_text::Line;
use std::alloc::{AllocError, Global};
use version_chain::Chains;

/// Asks each line once, in order, and then End for each session that holds a transaction, in ascending number. The replies are
/// added to the log, each with its session.
///
/// # Errors
/// Out of memory. The first of these may have been asked, with their replies in the log.
#[tactic(auto, using(crate::proofs::lemmas::replay::Logged::history_append, crate::proofs::lemmas::replay::Logged::log_append))]
pub fn replay<C: Chains, L: Log>(
    alloc: Global,
    engine: &mut Engine<C>,
    lines: &[Line],
    log: &mut L,
) -> Result<(), AllocError>
    ensures store { engine.new.store ≡ engine.old.store }
    ensures names { engine.new.names ≡ engine.old.names }
    ensures log { OnOk result ((told : List Answered) → L.tells log.old engine.old.names told → L.tells log.new engine.old.names
        (told ++ log_of engine.old.store engine.old.events (replayed engine.old.store engine.old.events lines.now))) }
    ensures events { OnOk result (engine.new.events
        ≡ history_after engine.old.store engine.old.events (replayed engine.old.store engine.old.events lines.now)) }
{
    ask_lines(engine, lines, log)?;
    end_sessions(alloc, engine, log)
}
