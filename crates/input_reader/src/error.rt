//! Why an input is refused.

use script_text::{LineWhy, ScriptError};
use teb_io::ReadError;
use thiserror::Error;
use tree_toml::TreeTextError;

/// Why an input is refused.
#[derive(Clone, Copy, Debug, PartialEq, Eq, Drop, Error)]
pub enum InputError {
    #[error("the input could not be read")]
    ReadFault,
    /// There are more than `MOST_BYTES` bytes, or more than `MOST_LINES` lines in the script.
    #[error("the input is too long")]
    TooLong,
    /// No line is `%%`.
    #[error("no separator")]
    NoSeparator,
    /// The first fault of the tree part.
    #[error("the tree part is bad: {0}")]
    BadTree(TreeTextError),
    /// The first bad line of the script, by its number from 1.
    #[error("line {number} is bad: {why:?}")]
    BadLine { number: u32, why: LineWhy },
    #[error("out of memory")]
    OutOfMemory,
}

impl From<ReadError> for InputError {
    ghost use Rattle.std.specs.Prelude.{◌≡◌};
    ghost use Rattle.input_reader.specs.Reads.{read_error};

    ghost from_gives = { λ why e. e ≡ read_error why };

    fn from(error: ReadError) -> InputError {
        match error {
            ReadError::ReadFault => InputError::ReadFault,
            ReadError::TooLong => InputError::TooLong,
            ReadError::OutOfMemory => InputError::OutOfMemory,
        }
    }
}

impl From<TreeTextError> for InputError {
    ghost use Rattle.std.specs.Prelude.{◌≡◌};
    ghost use Rattle.input_reader.specs.Inputs.{tree_error};

    ghost from_gives = { λ why e. e ≡ tree_error why };

    fn from(error: TreeTextError) -> InputError {
        match error {
            TreeTextError::OutOfMemory => InputError::OutOfMemory,
            why => InputError::BadTree(why),
        }
    }
}

impl From<ScriptError> for InputError {
    ghost use Rattle.std.specs.Prelude.{◌≡◌};
    ghost use Rattle.input_reader.specs.Inputs.{script_error};

    ghost from_gives = { λ why e. e ≡ script_error why };

    fn from(error: ScriptError) -> InputError {
        match error {
            ScriptError::BadLine { number, why } => InputError::BadLine { number, why },
            ScriptError::OutOfMemory => InputError::OutOfMemory,
        }
    }
}
