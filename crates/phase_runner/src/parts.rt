//! The parts of an input.

ghost use Rattle.std.specs.Prelude.{◌≤◌, All, length, IfOk};
ghost use Rattle.phase_runner.specs.Parts.{AreParts, texts};

use script_text::{MOST_BYTES, split_input};
use std::alloc::{AllocError, Global};

/// Returns the bytes between the lines that are exactly `%%`, in order: one part more than there are such lines.
///
/// # Errors
/// `AllocError`: out of memory.
pub fn parts(alloc: Global, bytes: &[u8]) -> Result<Vec<&[u8]>, AllocError>
    requires { length bytes.now ≤ MOST_BYTES }
    ensures parts { IfOk result (λ v. AreParts bytes.now (texts v.items)) }
    ensures small { IfOk result (λ v. All (λ p. length p ≤ MOST_BYTES) (texts v.items)) }
{
    let mut parts = Vec::new(alloc);
    let mut rest = bytes;
    while let Some((part, behind)) = split_input(rest) {
        parts.push(part)?;
        rest = behind;
    }
    parts.push(rest)?;
    Ok(parts)
}
