//! The command.

ghost use Rattle.std.specs.Prelude.{◌≡◌, ◌≤◌, length, None, IfOk};
ghost use Rattle.phase_runner.specs.Runs.{ArePhases, AreReports, RunInTurn};
ghost use Rattle.phase_runner.specs.Steps.{AreFollowing};

use crate::phase::{first_phase, next_phase};
use crate::reading::read_phases;
use crate::refused::phase_refusal;
use chain_pool::PooledChains;
use command_output::Output;
use command_output::status::OK;
use input_reader::Input;
use script_text::MOST_BYTES;
use std::alloc::{AllocError, Global};
use std::collections::VecDeque;

/// Runs the phases of an input, each over the tables that the previous one left, and returns their reports. If the input has a
/// fault, no phase runs, and the output names the fault.
///
/// # Errors
/// `AllocError`: out of memory.
pub fn run_phases(alloc: Global, bytes: &[u8]) -> Result<Output, AllocError>
    requires { length bytes.now ≤ MOST_BYTES }
    ensures shown { IfOk result (λ o. ArePhases bytes.now o) }
    ensures history { IfOk result (λ o. o.history ≡ None) }
{
    match read_phases(alloc, bytes) {
        Ok(tasks) => run_in_turn(alloc, tasks),
        Err(error) => phase_refusal(alloc, &error),
    }
}

fn run_in_turn(alloc: Global, tasks: VecDeque<Input>) -> Result<Output, AllocError>
    requires { AreFollowing tasks.items }
    ensures { IfOk result (λ o. AreReports tasks.items o) }
{
    let text = reports(alloc, tasks)?;
    Ok(Output::new(OK, text, None))
}

/// Returns the reports of the tasks, one after another.
fn reports(alloc: Global, mut tasks: VecDeque<Input>) -> Result<Vec<u8>, AllocError>
    requires { AreFollowing tasks.items }
    ensures { IfOk result (λ v. RunInTurn tasks.items v.items) }
{
    let mut text = Vec::new(alloc);
    let Some(first) = tasks.pop_front() else {
        return Ok(text);
    };
    let mut phases = first_phase(alloc, PooledChains::new(alloc), first, &mut text)?;
    while let Some(task) = tasks.pop_front() {
        phases = next_phase(alloc, PooledChains::new(alloc), phases, task, &mut text)?;
    }
    Ok(text)
}
