//! What a session is answered.

use short_reply::ShortReply;
use teb_rules::names::Reply;

/// The answer to a call of a session.
#[derive(Clone, Copy, Debug, PartialEq, Eq)]
pub enum StoreReply {
    /// The reply of the rules.
    Reply(Reply),
    /// The epoch comes to its end, and no transaction begins until it has. Nothing was asked: ask again.
    Later,
    /// The session's transaction was ended in its absence, with this reply. Nothing was asked.
    Ended(ShortReply),
}
