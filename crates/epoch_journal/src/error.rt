//! Why a disk has no journal, and why an epoch did not begin.

ghost use Rattle.std.specs.Prelude.{◌≡◌};
ghost use Rattle.epoch_journal.specs.declared.error.OpenError.TheVariants.{DiskFault, OutOfMemory};
ghost use Rattle.epoch_journal.specs.declared.error.CheckpointError.TheVariants as checkpoint;

use record_journal::RecoverError;
use std::alloc::{AllocError, AllocFailed};
use teb_io::Failed;
use thiserror::Error;

/// Why a journal was not opened.
#[derive(Clone, Copy, Debug, PartialEq, Eq, Error)]
pub enum OpenError {
    /// The label and the rows do not fit a half of the disk.
    #[error("the rows do not fit the disk")]
    Full,
    /// A call of the disk failed.
    #[error("the disk failed")]
    DiskFault,
    /// The bytes are not a journal: at place 1 there is no signature, or at `at` there is a commit mark, and no record follows.
    #[error("damaged at byte {at}")]
    Damaged { at: u64 },
    /// The disk has the journal of a disk with another capacity.
    #[error("the disk was made with another capacity")]
    OtherCapacity,
    /// The current half has another label.
    #[error("the disk has another label")]
    OtherLabel,
    /// Out of memory.
    #[error("out of memory")]
    OutOfMemory,
}

/// Why the next epoch did not begin.
#[derive(Clone, Copy, Debug, PartialEq, Eq, Error)]
pub enum CheckpointError {
    /// The label and the rows do not fit a half of the disk.
    #[error("the rows do not fit the disk")]
    Full,
    /// A call of the disk failed.
    #[error("the disk failed")]
    DiskFault,
    /// Out of memory.
    #[error("out of memory")]
    OutOfMemory,
}

impl From<AllocError> for CheckpointError {
    ghost from_gives = { λ _ e. e ≡ checkpoint.OutOfMemory };

    fn from(_: AllocError) -> Self {
        CheckpointError::OutOfMemory
    }
}

impl From<Failed> for OpenError {
    ghost from_gives = { λ _ e. e ≡ DiskFault };

    fn from(_: Failed) -> Self {
        OpenError::DiskFault
    }
}

impl From<AllocError> for OpenError {
    ghost from_gives = { λ _ e. e ≡ OutOfMemory };

    fn from(_: AllocError) -> Self {
        OpenError::OutOfMemory
    }
}

impl<T: Drop> From<AllocFailed<T>> for OpenError {
    ghost from_gives = { λ _ e. e ≡ OutOfMemory };

    fn from(_: AllocFailed<T>) -> Self {
        OpenError::OutOfMemory
    }
}

impl From<RecoverError> for OpenError {
    ghost use Rattle.epoch_journal.specs.Errors.{as_open};

    ghost from_gives = { λ r e. e ≡ as_open r };

    fn from(error: RecoverError) -> Self {
        match error {
            RecoverError::DiskFault => OpenError::DiskFault,
            RecoverError::Damaged { at } => OpenError::Damaged { at },
            RecoverError::OutOfMemory => OpenError::OutOfMemory,
        }
    }
}

impl From<CheckpointError> for OpenError {
    ghost use Rattle.epoch_journal.specs.Errors.{begun_as};

    ghost from_gives = { λ c e. e ≡ begun_as c };

    fn from(error: CheckpointError) -> Self {
        match error {
            CheckpointError::Full => OpenError::Full,
            CheckpointError::DiskFault => OpenError::DiskFault,
            CheckpointError::OutOfMemory => OpenError::OutOfMemory,
        }
    }
}
