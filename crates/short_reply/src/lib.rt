//! A reply without the values of a scan: 24 bytes in place of 160.
//!
//! A `Reply` has room for the sixteen values of a scan, so moving one costs as much as some answers. A [`ShortReply`] has no such
//! room. The engine answers in this form every request that is no scan (`Engine::ask_short`), and the crates above pass it on.
//!
//! ```text
//!   Reply         160 bytes    Begun, Value, Values, Done, Prepared, Committed, Again, Aborted, Refused
//!   ShortReply     24 bytes    the same, without Values
//! ```
//!
//! [`ShortReply::full`] returns the reply that the session gets (`full_reply` of `specs/ShortReplies`). [`ShortReply::of`] goes back,
//! and returns `None` for the values of a scan alone. `IsNoScan` says of which requests the answer has a short form.
//!
//! **Not claimed**: the sizes. They are measured, and no contract speaks of them.
#![tactic(auto)]

ghost use Rattle.std.specs.Prelude.{◌≡◌, MatchOption};
ghost use Rattle.short_reply.specs.ShortReplies.{full_reply, HasValues};

use teb_rules::names::{Cause, Node, Refusal, Reply, Txn};

/// A reply without the values of a scan. A `Reply` has room for sixteen values; this one has not, so moving it costs little.
#[derive(Clone, Copy, Debug, PartialEq, Eq)]
pub enum ShortReply {
    /// The transaction that began.
    Begun(Txn),
    /// The value that was read; `None` if there is no row.
    Value(Option<i64>),
    /// The write, addition or deletion is done.
    Done,
    Prepared,
    Committed,
    /// The request has to wait for `who` at `node`, and nothing has changed: ask again.
    Again { who: Txn, node: Node },
    /// The transaction was aborted.
    Aborted(Cause),
    /// The request can't be answered here, and nothing has changed.
    Refused(Refusal),
}

impl ShortReply {
    /// Returns the reply as the session gets it.
    pub fn full(self) -> Reply
        ensures { result ≡ full_reply self }
    {
        match self {
            ShortReply::Begun(t) => Reply::Begun(t),
            ShortReply::Value(value) => Reply::Value(value),
            ShortReply::Done => Reply::Done,
            ShortReply::Prepared => Reply::Prepared,
            ShortReply::Committed => Reply::Committed,
            ShortReply::Again { who, node } => Reply::Again { who, node },
            ShortReply::Aborted(cause) => Reply::Aborted(cause),
            ShortReply::Refused(why) => Reply::Refused(why),
        }
    }

    /// Returns the short form of a reply, or `None` if the reply has the values of a scan.
    pub fn of(reply: &Reply) -> Option<ShortReply>
        ensures { MatchOption result (HasValues reply.now) (λ short. full_reply short ≡ reply.now) }
    {
        match *reply {
            Reply::Begun(t) => Some(ShortReply::Begun(t)),
            Reply::Value(value) => Some(ShortReply::Value(value)),
            Reply::Values(_) => None,
            Reply::Done => Some(ShortReply::Done),
            Reply::Prepared => Some(ShortReply::Prepared),
            Reply::Committed => Some(ShortReply::Committed),
            Reply::Again { who, node } => Some(ShortReply::Again { who, node }),
            Reply::Aborted(cause) => Some(ShortReply::Aborted(cause)),
            Reply::Refused(why) => Some(ShortReply::Refused(why)),
        }
    }
}
