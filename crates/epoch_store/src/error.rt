//! Why a request has no reply, and why an epoch has not begun.

ghost use Rattle.std.specs.Prelude.{◌≡◌};
ghost use Rattle.epoch_store.specs.Told.{as_ask};

use crate::recorder::PrepareError;
use epoch_journal::CheckpointError;
use thiserror::Error;

/// Why a request has no reply.
#[derive(Clone, Copy, Debug, PartialEq, Eq, Error)]
pub enum AskError {
    /// A call of the disk has failed earlier. Nothing was asked, and nothing changed.
    #[error("the disk has failed")]
    Stopped,
    /// The rest of this epoch's part of the disk may not hold the commit. Nothing was asked, and nothing changed.
    #[error("the disk is full")]
    Full,
    /// The disk failed at a commit. The history has the commit; the disk may keep it or not, and the store is stopped.
    #[error("the disk failed at a commit, which it may keep or not")]
    Unsure,
    /// Out of memory. Nothing was asked, and nothing changed.
    #[error("out of memory")]
    OutOfMemory,
}

impl From<PrepareError> for AskError {
    ghost from_gives = { λ p e. e ≡ as_ask p };

    fn from(error: PrepareError) -> Self {
        match error {
            PrepareError::Full => AskError::Full,
            PrepareError::OutOfMemory => AskError::OutOfMemory,
        }
    }
}

/// Why the records of a group were not written.
#[derive(Clone, Copy, Debug, PartialEq, Eq, Error)]
pub enum WriteError {
    /// The rest of this epoch's part of the disk does not hold the records. Nothing changed.
    #[error("the disk is full")]
    Full,
    /// A call of the disk failed. The journal is stopped, and a crash may leave the records.
    #[error("the disk failed")]
    DiskFault,
    /// Out of memory. Nothing changed.
    #[error("out of memory")]
    OutOfMemory,
}

/// Why the next epoch has not begun, with the engine that it was to begin with.
#[derive(Debug, Drop)]
pub struct NotBegun<E> {
    pub next: E,
    pub why: CheckpointError,
}
