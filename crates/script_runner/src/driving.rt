//! The run of an input as one script for each session, in turns.

ghost use Rattle.std.specs.Prelude.{◌≡◌, ◌<◌, [], IfOk, List, OnOk};
ghost use Rattle.script_text.specs.declared.Answered.{Answered};
ghost use Rattle.script_text.specs.Sessions.{AreOfSessions};
ghost use Rattle.store_setup.specs.Stores.{names_of};
ghost use Rattle.script_runner.specs.Runs.{AreTurns, HasRun};

use crate::turns::{Steps, turns};
use answer_log::Log;
use chain_pool::PooledChains;
use engine_core::Engine;
use input_reader::Input;
use script_text::{Line, scripts_of};
use std::alloc::{AllocError, Global};
use std::marker::Brand;
use std::sync::ledger::{Blank, Ledger};
use version_chain::Chains;

/// Asks the sessions in turns, each along its script, until all are done. The replies go to the log. Returns the engine after the
/// run.
///
/// # Errors
/// `AllocError`: out of memory. The engine is dropped. The log may have some of the replies.
pub fn in_turns<G: Log>(
    alloc: Global,
    input: Input,
    log: &mut G,
) -> Result<Engine<PooledChains>, AllocError>
    requires blank { G.tells log.old (names_of input.setup) [] }
    ensures { IfOk result (HasRun AreTurns (G.tells log.new) input) }
{
    let (setup, lines) = input.into_parts();
    let mut engine = Engine::new(alloc, setup, PooledChains::new(alloc))?;
    drive::<PooledChains, G, Brand>(alloc, &mut engine, &lines, log, Blank::new(1))?;
    Ok(engine)
}

/// Logs the replies of an engine with an empty history. The driver counts its requests on the ledger that the blank opens.
fn drive<C: Chains, G: Log, L: Ledger>(
    alloc: Global,
    engine: &mut Engine<C>,
    lines: &[Line],
    log: &mut G,
    blank: Blank,
) -> Result<(), AllocError>
    requires name { blank.name ≡ L.name }
    requires parts { blank.parts ≡ L.parts }
    requires some { 0 < L.parts }
    requires new { engine.old.events ≡ [] }
    requires told { G.tells log.old engine.old.names [] }
    requires sessions { AreOfSessions lines.now }
    ensures turns { OnOk result ((answers : List Answered) × G.tells log.new engine.old.names answers
        × AreTurns engine.old.store lines.now answers engine.new.events) }
    ensures store { engine.new.store ≡ engine.old.store }
    ensures names { engine.new.names ≡ engine.old.names }
{
    let scripts = scripts_of(alloc, lines)?;
    let mut steps = Steps::<L>::new(blank);
    turns(alloc, engine, &scripts, log, &mut steps)
}
