//! The entries of a store's life.

use short_reply::ShortReply;
use teb_rules::names::{Request, Session};

/// The number that marks have in place of a session's: that of the seat with which the log's turn enters the front turn.
pub const LOG_SEAT: u8 = 33;

/// An entry in the life of a store.
#[derive(Clone, Copy, Debug, PartialEq, Eq)]
pub enum LifeEntry {
    /// A request of a session, with its reply; none if the reply has the values of a scan. `by` is the session that asked: another one only
    /// for an End by which it ended the transaction of the session, and `LOG_SEAT` for one by which the closing of the store did.
    Asked {
        by: Session,
        session: Session,
        request: Request,
        reply: Option<ShortReply>,
    },
    /// All commits that waited were taken, for the log to write.
    CommitsTaken,
    /// An epoch ended, and the next one began. Transactions count from 1 again.
    EpochEnded,
    /// The log failed. Nothing is asked after it.
    LogFailed,
}
