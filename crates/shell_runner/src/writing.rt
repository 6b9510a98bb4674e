//! The writing of an answer.

ghost use Rattle.std.specs.Prelude.{◌≡◌, ◌≤◌, ◌⊎◌, IfErr, IfOk, IsErr, IsOk, Ok};
ghost use Rattle.std.specs.Io.KnownBytes.{Appends, Keeps};
ghost use Rattle.teb_io.specs.Bytes.{AppendsFront};
ghost use Rattle.teb_io.specs.Faults.{Rose};

use crate::ended::RunError;
use crate::step::After;
use std::alloc::AllocError;
use teb_io::{Sink, write_whole};

/// Writes the text of an answer; nothing if the answer ran out of memory.
///
/// # Errors
/// Why the run ends early: `OutOfMemory` if the answer did; `WriteFault` if the text is not written whole.
pub(crate) fn write_step<K: Sink>(
    out: &mut K,
    after: Result<After, AllocError>,
    text: &[u8],
) -> Result<After, RunError>
    ensures written { IfOk result (λ a. (after ≡ Ok a) × Appends (K.written out.old) (K.written out.new) text.now) }
    ensures not_written { IfErr result (λ why. ((why ≡ RunError.OutOfMemory) × IsErr after × Keeps (K.written out.old) (K.written out.new))
        ⊎ ((why ≡ RunError.WriteFault) × IsOk after × AppendsFront (K.written out.old) (K.written out.new) text.now)) }
    ensures fault { IfErr result (λ why. why ≡ RunError.WriteFault → Rose (K.faults out.old) (K.faults out.new)) }
    ensures later { K.faults out.old ≤ K.faults out.new }
{
    let Ok(after) = after else {
        return Err(RunError::OutOfMemory);
    };
    match write_whole(out, text) {
        Ok(()) => Ok(after),
        Err(_) => Err(RunError::WriteFault),
    }
}
