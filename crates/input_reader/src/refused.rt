//! The output for an input that is refused.

ghost use Rattle.std.specs.Prelude.{◌≡◌, ◌≢◌, IfOk};
ghost use Rattle.input_reader.specs.Refusals.{refusal};

use crate::InputError;
use command_output::Output;
use command_output::status::{BAD_SCRIPT, BAD_TREE, TOO_LONG};
use std::alloc::{AllocError, Global};
use tree_toml::{TreeTextError, put_fault};

/// Returns the output for a fault: its status and its line. A read that failed has no line.
///
/// # Errors
/// `AllocError`: out of memory, or the fault is `OutOfMemory`.
pub fn refusal(alloc: Global, error: &InputError) -> Result<Output, AllocError>
    requires { error.now ≢ InputError.ReadFault }
    ensures { IfOk result (λ o. o ≡ refusal error.now) }
{
    match error {
        InputError::ReadFault => unreachable!(),
        InputError::TooLong => Output::line(alloc, TOO_LONG, "too long"),
        InputError::NoSeparator => Output::line(alloc, BAD_TREE, "bad tree: no separator"),
        InputError::BadTree(why) => bad_tree(alloc, why),
        InputError::BadLine { number, why } => Output::numbered_line(
            alloc,
            BAD_SCRIPT,
            "bad script: line ",
            *number,
            why.word(),
        ),
        InputError::OutOfMemory => Err(AllocError),
    }
}

/// Returns the line of a fault of the tree part.
fn bad_tree(alloc: Global, why: &TreeTextError) -> Result<Output, AllocError>
    ensures { IfOk result (λ o. o ≡ refusal (InputError.BadTree why.now)) }
{
    let mut text = Vec::new(alloc);
    put_fault(&mut text, why)?;
    Ok(Output::new(BAD_TREE, text, None))
}
