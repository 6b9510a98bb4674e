//! The commands that run an input.

ghost use Rattle.std.specs.Prelude.{◌≡◌, [], IfOk};
ghost use Rattle.teb_rules.specs.declared.names.naming.NameBook.{NameBook};
ghost use Rattle.answer_log.specs.Telling.{HasLines};
ghost use Rattle.script_runner.specs.Runs.{IsReplay, AreTurns, IsReport, IsRun, IsSerialized};

use crate::driving::in_turns;
use crate::interleaving::in_order;
use crate::output::output_of;
use crate::report::report_of;
use answer_log::ReplyText;
use command_output::Output;
use input_reader::Input;
use std::alloc::{AllocError, Global};

/// Runs an input as one interleaving of its sessions, and returns the report.
///
/// # Errors
/// `AllocError`: out of memory.
pub fn run_replay(alloc: Global, mut input: Input) -> Result<Output, AllocError>
    ensures shown { IfOk result (IsRun IsReplay IsReport input) }
    ensures serialized { IfOk result (λ o. IsSerialized (λ m. input.setup ≡ m) o.history) }
{
    let mut replies = no_replies(alloc, &mut input);
    let engine = in_order(alloc, input, &mut replies)?;
    let text = report_of(alloc, &engine, replies)?;
    Ok(output_of(engine, text))
}

/// Runs one script for each session, in turns, and returns the report.
///
/// # Errors
/// `AllocError`: out of memory.
pub fn run_turns(alloc: Global, mut input: Input) -> Result<Output, AllocError>
    ensures shown { IfOk result (IsRun AreTurns IsReport input) }
    ensures serialized { IfOk result (λ o. IsSerialized (λ m. input.setup ≡ m) o.history) }
{
    let mut replies = no_replies(alloc, &mut input);
    let engine = in_turns(alloc, input, &mut replies)?;
    let text = report_of(alloc, &engine, replies)?;
    Ok(output_of(engine, text))
}

/// Returns the text of no replies yet, in the memory of the text that the input was read from, if the input keeps it. So a run
/// frees no large block before it is over.
fn no_replies(alloc: Global, input: &mut Input) -> ReplyText
    ensures same { input.new ≡ input.old }
    ensures blank { (names : NameBook) → HasLines result names [] }
{
    match input.take_text() {
        Some(text) => ReplyText::reusing(text),
        None => ReplyText::new(alloc),
    }
}
