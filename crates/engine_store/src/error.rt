//! Why the next epoch has not begun.

ghost use Rattle.std.specs.Prelude.{◌≡◌};
ghost use Rattle.engine_store.specs.declared.error.NextError.TheVariants.{OutOfMemory};

use epoch_journal::CheckpointError;
use std::alloc::AllocError;
use teb_rules::names::{Session, Txn};
use thiserror::Error;

/// Why the next epoch has not begun: the first of `Stopped`, `Again`, `Untold` and `OtherTables` that applies; if none does, one of the others.
#[derive(Debug, Drop, Error)]
pub enum NextError {
    /// A call of the disk has failed earlier.
    #[error("the disk has failed")]
    Stopped,
    /// The least unfinished transaction.
    #[error("{0:?} is unfinished")]
    Again(Txn),
    /// The least session that holds an aborted transaction.
    #[error("{0:?} was not told of its abort")]
    Untold(Session),
    /// The names of the tables are not those of the store.
    #[error("other tables")]
    OtherTables,
    /// The rows do not fit the disk.
    #[error("the rows do not fit the disk")]
    Full,
    /// A call of the disk failed. The store is stopped.
    #[error("the disk failed")]
    DiskFault,
    #[error("out of memory")]
    OutOfMemory,
}

impl From<CheckpointError> for NextError {
    ghost use Rattle.engine_store.specs.Next.{as_next};

    ghost from_gives = { λ c e. e ≡ as_next c };

    fn from(error: CheckpointError) -> NextError {
        match error {
            CheckpointError::Full => NextError::Full,
            CheckpointError::DiskFault => NextError::DiskFault,
            CheckpointError::OutOfMemory => NextError::OutOfMemory,
        }
    }
}

impl From<AllocError> for NextError {
    ghost from_gives = { λ _ e. e ≡ OutOfMemory };

    fn from(_: AllocError) -> NextError {
        NextError::OutOfMemory
    }
}
