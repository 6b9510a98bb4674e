//! The result of a poll.
use teb_rules::names::Outcome;

/// Whether a transaction has finished, as one look shows.
#[derive(Clone, Copy, Debug, PartialEq, Eq)]
pub enum Poll {
    /// The word was 0 when this poll looked.
    Unfinished,
    Finished(Outcome),
}
