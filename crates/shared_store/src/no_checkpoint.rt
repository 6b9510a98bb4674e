//! Why a store is closed without a checkpoint.

use crate::error::UnaskedError;
use crate::server::Obstacle;
use thiserror::Error;

/// Why a store is closed without a checkpoint.
#[derive(Clone, Copy, Debug, PartialEq, Eq, Error)]
pub enum NoCheckpoint {
    /// A transaction that is unfinished, or an abort of which a session was not told, kept the epoch from its end: the closing asked an End for
    /// each, and one of them met an error. The log has not failed, and keeps all commits.
    #[error("the epoch could not end: {0}")]
    Held(Obstacle),
    /// `Stopped` if a call of the log has failed, at the closing or before. Else the last commits were not written, after which the log has
    /// failed, or the next epoch did not begin: `Full` if they or the rows do not fit, and `OutOfMemory`.
    #[error("no checkpoint could be written: {0}")]
    Failed(UnaskedError),
}
