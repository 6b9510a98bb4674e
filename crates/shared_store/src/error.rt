//! Why a request has no reply.

use thiserror::Error;

/// Why nothing was asked.
#[derive(Clone, Copy, Debug, PartialEq, Eq, Error)]
pub enum UnaskedError {
    /// The log has failed earlier, or has spent its turns.
    #[error("the log has failed")]
    Stopped,
    /// The commit, or the rows of the next epoch, do not fit the disk.
    #[error("it does not fit the disk")]
    Full,
    #[error("out of memory")]
    OutOfMemory,
}

/// Why a call has no reply, other than that the session has made all its calls.
#[derive(Clone, Copy)]
pub(crate) enum AskError {
    /// Nothing was asked.
    Unasked(UnaskedError),
    /// The log failed before it kept the commit.
    Unsure,
}

/// Why a session has no reply.
#[derive(Clone, Copy, Debug, PartialEq, Eq, Error)]
pub enum StoreError {
    /// The session has had `MOST_ASKS` calls. Nothing was asked.
    #[error("the session has asked too often")]
    Spent,
    /// Nothing was asked.
    #[error("not asked: {0}")]
    Unasked(UnaskedError),
    /// The log failed before it kept the commit, or has spent its turns. A crash may keep the commit or not.
    #[error("the log failed before it kept the commit")]
    Unsure,
}
