//! Why a disk could not be recovered.

ghost use Rattle.std.specs.Prelude.{◌≡◌};
ghost use Rattle.record_journal.specs.declared.error.RecoverError.TheVariants.{DiskFault, OutOfMemory};

use std::alloc::{AllocError, AllocFailed};
use teb_io::Failed;

/// Why a disk could not be recovered. Its bytes are as they were.
#[derive(Clone, Copy, Debug, PartialEq, Eq)]
pub enum RecoverError {
    /// A call of the disk failed.
    DiskFault,
    /// The gate byte at this place is open, and no record follows it.
    Damaged { at: u64 },
    /// Out of memory.
    OutOfMemory,
}

impl From<Failed> for RecoverError {
    ghost from_gives = { λ _ e. e ≡ DiskFault };

    fn from(_: Failed) -> Self {
        RecoverError::DiskFault
    }
}

impl From<AllocError> for RecoverError {
    ghost from_gives = { λ _ e. e ≡ OutOfMemory };

    fn from(_: AllocError) -> Self {
        RecoverError::OutOfMemory
    }
}

impl<T: Drop> From<AllocFailed<T>> for RecoverError {
    ghost from_gives = { λ _ e. e ≡ OutOfMemory };

    fn from(_: AllocFailed<T>) -> Self {
        RecoverError::OutOfMemory
    }
}
