//! What a turn at the server answers.

use crate::error::UnaskedError;
use crate::reply::StoreReply;

/// What a turn at the server answers.
#[derive(Clone, Copy)]
pub(crate) enum Answer {
    /// A reply, and how many commits the life has by now.
    Reply(StoreReply, u64),
    /// Nothing was asked: the epoch is to end, and nothing keeps it from its end.
    Drained,
    /// Nothing was asked.
    Unasked(UnaskedError),
}
