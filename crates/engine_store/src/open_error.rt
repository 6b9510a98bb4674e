//! Why a store was not opened.

use epoch_journal::OpenError as JournalError;
use std::alloc::AllocError;
use thiserror::Error;

/// Why a store was not opened.
#[derive(Clone, Copy, Debug, PartialEq, Eq, Error)]
pub enum OpenError {
    /// The names of the tables and the rows do not fit a half of the disk.
    #[error("the rows do not fit the disk")]
    Full,
    /// A call of the disk failed.
    #[error("the disk failed")]
    DiskFault,
    /// The bytes are not a store: at place 1 there is no signature, at `at` there is a commit mark and no record follows, or the
    /// half of the disk that begins at `at` has a row of a table that the setup does not have.
    #[error("damaged at byte {at}")]
    Damaged { at: u64 },
    /// The disk has the store of a disk with another capacity.
    #[error("the disk was made with another capacity")]
    OtherCapacity,
    /// The disk has a store whose tables have other names.
    #[error("the disk has other tables")]
    OtherTables,
    /// Out of memory.
    #[error("out of memory")]
    OutOfMemory,
}

impl From<JournalError> for OpenError {
    ghost use Rattle.std.specs.Prelude.{◌≡◌};
    ghost use Rattle.engine_store.specs.OpeningErrors.{as_open};

    ghost from_gives = { λ j e. e ≡ as_open j };

    fn from(error: JournalError) -> Self {
        match error {
            JournalError::Full => OpenError::Full,
            JournalError::DiskFault => OpenError::DiskFault,
            JournalError::Damaged { at } => OpenError::Damaged { at },
            JournalError::OtherCapacity => OpenError::OtherCapacity,
            JournalError::OtherLabel => OpenError::OtherTables,
            JournalError::OutOfMemory => OpenError::OutOfMemory,
        }
    }
}

impl From<AllocError> for OpenError {
    ghost use Rattle.std.specs.Prelude.{◌≡◌};
    ghost use Rattle.engine_store.specs.declared.open_error.OpenError.TheVariants.{OutOfMemory};

    ghost from_gives = { λ _ e. e ≡ OutOfMemory };

    fn from(_: AllocError) -> Self {
        OpenError::OutOfMemory
    }
}

/// Why a store was not opened, with the disk.
#[derive(Debug, Drop)]
pub struct NotOpened<D> {
    pub disk: D,
    pub why: OpenError,
}
