//! Why an input of phases is refused.

use input_reader::InputError;
use script_text::ScriptError;
use std::alloc::{AllocError, AllocFailed};
use thiserror::Error;
use tree_toml::TreeTextError;

/// Why the pairs of a tree part and a script part cannot be phases.
#[derive(Clone, Copy, Debug, PartialEq, Eq)]
pub enum PhaseWhy {
    /// There are more than 16 pairs.
    Many,
    /// The last pair has no script part.
    Script,
    /// The names of the tables are not those of the previous pair.
    Tables,
    /// The tree part of a later pair has starting rows.
    Rows,
}

/// Why an input of phases is refused.
#[derive(Clone, Copy, Debug, PartialEq, Eq, Drop, Error)]
pub enum PhaseError {
    /// The pair, by its number from 1, cannot be a phase.
    #[error("phase {pair} is bad: {why:?}")]
    BadPhase { pair: u8, why: PhaseWhy },
    /// What is refused in any input: too many lines, or a fault in a part of it.
    #[error("the input is refused: {0}")]
    BadInput(InputError),
}

impl From<TreeTextError> for PhaseError {
    ghost use Rattle.std.specs.Prelude.{◌≡◌};
    ghost use Rattle.input_reader.specs.Inputs.{tree_error};
    ghost use Rattle.phase_runner.specs.declared.error.PhaseError.TheVariants.{BadInput};

    ghost from_gives = { λ why e. e ≡ BadInput (tree_error why) };

    fn from(error: TreeTextError) -> PhaseError {
        PhaseError::BadInput(InputError::from(error))
    }
}

impl From<ScriptError> for PhaseError {
    ghost use Rattle.std.specs.Prelude.{◌≡◌};
    ghost use Rattle.input_reader.specs.Inputs.{script_error};
    ghost use Rattle.phase_runner.specs.declared.error.PhaseError.TheVariants.{BadInput};

    ghost from_gives = { λ why e. e ≡ BadInput (script_error why) };

    fn from(error: ScriptError) -> PhaseError {
        PhaseError::BadInput(InputError::from(error))
    }
}

impl From<AllocError> for PhaseError {
    ghost use Rattle.std.specs.Prelude.{◌≡◌};
    ghost use Rattle.input_reader.specs.declared.error.InputError.TheVariants.{OutOfMemory};
    ghost use Rattle.phase_runner.specs.declared.error.PhaseError.TheVariants.{BadInput};

    ghost from_gives = { λ _ e. e ≡ BadInput OutOfMemory };

    fn from(_error: AllocError) -> PhaseError {
        PhaseError::BadInput(InputError::OutOfMemory)
    }
}

impl<T: Drop> From<AllocFailed<T>> for PhaseError {
    ghost use Rattle.std.specs.Prelude.{◌≡◌};
    ghost use Rattle.input_reader.specs.declared.error.InputError.TheVariants.{OutOfMemory};
    ghost use Rattle.phase_runner.specs.declared.error.PhaseError.TheVariants.{BadInput};

    ghost from_gives = { λ _ e. e ≡ BadInput OutOfMemory };

    fn from(_error: AllocFailed<T>) -> PhaseError {
        PhaseError::BadInput(InputError::OutOfMemory)
    }
}
