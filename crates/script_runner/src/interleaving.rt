//! The run of an input as one interleaving of its sessions.

ghost use Rattle.std.specs.Prelude.{[], IfOk};
ghost use Rattle.store_setup.specs.Stores.{names_of};
ghost use Rattle.script_runner.specs.Runs.{HasRun, IsReplay};

use crate::replay::replay;
use answer_log::Log;
use chain_pool::PooledChains;
use engine_core::Engine;
use input_reader::Input;
use std::alloc::{AllocError, Global};

/// Asks each line once, in order, and then End for each session that holds a transaction. The replies go to the log. Returns the
/// engine after the run.
///
/// # Errors
/// `AllocError`: out of memory. The engine is dropped. The log may have some of the replies.
pub fn in_order<L: Log>(
    alloc: Global,
    input: Input,
    log: &mut L,
) -> Result<Engine<PooledChains>, AllocError>
    requires blank { L.tells log.old (names_of input.setup) [] }
    ensures { IfOk result (HasRun IsReplay (L.tells log.new) input) }
{
    let (setup, lines) = input.into_parts();
    let mut engine = Engine::new(alloc, setup, PooledChains::new(alloc))?;
    replay(alloc, &mut engine, &lines, log)?;
    Ok(engine)
}
