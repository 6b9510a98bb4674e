//! The command.

ghost use Rattle.std.specs.Prelude.{◌≡◌, ◌≤◌, length, IfOk};
ghost use Rattle.script_runner.specs.Runs.{IsSerialized};
ghost use Rattle.crash_runner.specs.Crashes.{IsCrash};

use crate::kept::recover_left;
use crate::on_disk::replay_on_disk;
use crate::start::Start;
use crate::text::text_of;
use command_output::Output;
use command_output::status::OK;
use input_reader::Input;
use script_text::MOST_LINES;
use std::alloc::{AllocError, Global};

/// Replays an input on a disk in memory that fails from its call `stop` on, 0 for none. Then it recovers what is left, and shows
/// the replies that were given and the rows.
///
/// # Errors
/// `AllocError`: out of memory. A call of the disk that fails is no error: the run stops there.
pub fn run_crash(alloc: Global, stop: u32, input: Input) -> Result<Output, AllocError>
    requires { length input.lines ≤ MOST_LINES }
    ensures shown { IfOk result (IsCrash stop input) }
    // There is no history to be serialized.
    ensures serialized { IfOk result (λ o. IsSerialized (λ m. input.setup ≡ m) o.history) }
{
    let (setup, lines) = input.into_parts();
    let start = Start::of(alloc, &setup)?;
    let run = replay_on_disk(alloc, stop, setup, &lines)?;
    let found = recover_left(alloc, run.disk, &start.rows)?;
    let text = text_of(alloc, &start.names, &run.given, run.stopped, &found)?;
    Ok(Output::new(OK, text, None))
}
