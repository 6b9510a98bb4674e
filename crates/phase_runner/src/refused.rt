//! The output for an input of phases that is refused.

ghost use Rattle.std.specs.Prelude.{◌≡◌, ◌≢◌, IfOk};
ghost use Rattle.phase_runner.specs.Refusals.{phase_refusal as spec_phase_refusal, why_text as spec_why_text};

use crate::error::{PhaseError, PhaseWhy};
use command_output::Output;
use command_output::status::BAD_PHASE;
use input_reader::{InputError, refusal};
use std::alloc::{AllocError, Global};

/// Returns the output for a fault: its status and its line.
///
/// # Errors
/// `AllocError`: out of memory, or the fault is `BadInput` with `OutOfMemory`.
pub fn phase_refusal(alloc: Global, error: &PhaseError) -> Result<Output, AllocError>
    requires { error.now ≢ PhaseError.BadInput InputError.ReadFault }
    ensures { IfOk result (λ o. o ≡ spec_phase_refusal error.now) }
{
    match error {
        PhaseError::BadPhase { pair, why } => Output::numbered_line(
            alloc,
            BAD_PHASE,
            "bad phase: ",
            u32::from(*pair),
            why_text(*why),
        ),
        PhaseError::BadInput(why) => refusal(alloc, why),
    }
}

fn why_text(why: PhaseWhy) -> &'static str
    ensures { result.now ≡ spec_why_text why }
{
    match why {
        PhaseWhy::Many => "many",
        PhaseWhy::Script => "script",
        PhaseWhy::Tables => "tables",
        PhaseWhy::Rows => "rows",
    }
}
