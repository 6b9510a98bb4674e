//! What bytes are read from, and the reading of all of them.

ghost use Rattle.std.specs.Prelude.{◌≡◌, ◌≤◌, ◌<◌, ◌+◌, List, ℕ, Option, IfErr, IfOk, IfSome, IsErr, IsErrOf, OnOk, length};
ghost use Rattle.std.specs.Io.{ReadsAtMost};
ghost use Rattle.std.specs.Io.KnownBytes.{ReadConsumes, IsAtEnd};
ghost use Rattle.teb_io.specs.Bytes.{Takes, TakesUpTo};
ghost use Rattle.teb_io.specs.Faults.{HasCause, Rose};

use crate::Failed;
use std::alloc::{AllocError, Global};
use thiserror::Error;

/// What bytes are read from.
pub trait Source {
    /// The bytes that are left, where the source tells them.
    ghost left: { Self → Option (List ℕ) };

    /// How often a read has failed.
    ghost faults: { Self → ℕ };

    /// Reads the next bytes to the front of `buf`, and returns how many. None are read only at the end, or into a `buf`
    /// without room. A read that succeeds counts no fault.
    ///
    /// # Errors
    /// `Failed`: the read failed, and took no byte.
    fn read(&mut self, buf: &mut [u8]) -> Result<usize, Failed>
        ensures bound { ReadsAtMost result buf.new }
        ensures bytes { ReadConsumes (left self.old) (left self.new) result buf.new }
        ensures cause { HasCause (faults self.old) (faults self.new) result }
        ensures no_fault { OnOk result (faults self.new ≡ faults self.old) };
}

/// Why not all bytes were read.
#[derive(Clone, Copy, Debug, PartialEq, Eq, Error)]
pub enum ReadError {
    /// A read failed.
    #[error("the input could not be read")]
    ReadFault,
    /// There are more bytes than the limit.
    #[error("the input is too long")]
    TooLong,
    /// Out of memory.
    #[error("out of memory")]
    OutOfMemory,
}

impl From<AllocError> for ReadError {
    ghost use Rattle.std.specs.Prelude.{◌≡◌};
    ghost use Rattle.teb_io.specs.declared.source.ReadError.TheVariants.{OutOfMemory};

    ghost from_gives = { λ _ e. e ≡ OutOfMemory };

    fn from(_: AllocError) -> Self {
        ReadError::OutOfMemory
    }
}

impl From<Failed> for ReadError {
    ghost use Rattle.std.specs.Prelude.{◌≡◌};
    ghost use Rattle.teb_io.specs.declared.source.ReadError.TheVariants.{ReadFault};

    ghost from_gives = { λ _ e. e ≡ ReadFault };

    fn from(_: Failed) -> Self {
        ReadError::ReadFault
    }
}

/// How many bytes one read asks for.
const PIECE: usize = 16384;

/// Reads all the bytes that are left, where these are at most `limit`.
///
/// # Errors
/// `ReadFault` if and only if a read fails: at most `limit` bytes are taken then. After `TooLong` the first `limit + 1` bytes
/// are taken, and after `OutOfMemory` at most `limit + 1`.
pub fn read_all<S: Source>(alloc: Global, input: &mut S, limit: usize) -> Result<Vec<u8>, ReadError>
    ensures ok { IfOk result (λ v. IfSome (S.left input.old) (λ bytes. v.items ≡ bytes)
        × IsAtEnd (S.left input.new) × (length v.items ≤ limit)) }

    // Where more are left, and no read fails, they are too many, and only there.
    ensures long { IfSome (S.left input.old) (λ bytes. limit < length bytes → IsErr result) }
    ensures too_long { IsErrOf result ReadError.TooLong → Takes (S.left input.old) (S.left input.new) (limit + 1) }

    ensures fault { IsErrOf result ReadError.ReadFault → Rose (S.faults input.old) (S.faults input.new)
        × TakesUpTo limit (S.left input.old) (S.left input.new) }
    ensures memory { IsErrOf result ReadError.OutOfMemory → TakesUpTo (limit + 1) (S.left input.old) (S.left input.new) }

    // If no read failed, no fault is counted.
    ensures no_fault { OnOk result (S.faults input.new ≡ S.faults input.old) }
    ensures no_other_fault { IfErr result (λ e. (e ≡ ReadError.ReadFault → ⊥) → S.faults input.new ≡ S.faults input.old) }
    ensures later { S.faults input.old ≤ S.faults input.new }
{
    let mut bytes = Vec::new(alloc);
    let mut piece = [0; PIECE];
    while bytes.len() <= limit {
        let room = (limit - bytes.len()).min(PIECE - 1) + 1;
        let count = input.read(&mut piece[..room])?;
        if count == 0 {
            return Ok(bytes);
        }
        bytes.extend_from_slice(&piece[..count])?;
    }
    Err(ReadError::TooLong)
}
