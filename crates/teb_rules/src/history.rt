//! The history of a store: the list of all events, of which every rule speaks.
//!
//! A [`History`] is written at its end ([`History::push`]) and never changed before it. Beside the events it keeps a summary of each
//! transaction, so that a question about a transaction does not walk the whole list.
//!
//! ```text
//!   position   0          1          2           3          4            5
//!   event      Began t1   Began t2   Put t1 x    Ready t1   Got t2 y     Done t1
//!   link       0          0          1           3          2            4
//!
//!   a link leads to the previous event of the same transaction: it is one more than that event's position, and 0 if there is none
//! ```
//!
//! - The *position* of an event is its index, from 0 at the oldest. In `specs/` a history is a list with the **newest event first**:
//!   `e ∷ H` is the history `H` with `e` after it, and `e` has the position `length H`.
//! - A transaction is *active* (unfinished) from its Began to its Done (commit) or Gone (abort), and *prepared* if it also has Ready.
//! - It is *live* while it is active, or until its session is told that a cascade aborted it. A session *holds* its live transaction.
//!
//! **What is proved.** The summaries are functions of the events: the invariant of [`History`] is `IsKept` of `specs/history/Standings`. So
//! the contract of each question is a definition over the list alone (`specs/history/Phases`, `specs/history/Accesses`), and no other
//! module sees the summaries.
//!
//! **What it costs.** The state of a transaction: one look, if the transactions are numbered from 1 without a gap. Its own events:
//! one step each, along the links. What a session holds: a walk over the live transactions. [`History::reserve`] takes memory ahead,
//! so `push` takes none and cannot fail.
//!
//! **Not claimed**: that the events are those of a run. `push` accepts any event; the events that the rules grant are `Lawful`
//! (`specs/laws/Lawful`).

mod accesses;
mod ascending;
mod events;
mod history;
mod own_events;
mod standing;

use crate::names::{Cause, Cell, Kind, Session, Txn};
pub use ascending::{find_txn, remove_txn};
pub use history::History;
pub use own_events::OwnEvents;

/// An event of a transaction.
#[derive(Clone, Copy, Debug, PartialEq, Eq)]
pub enum Event {
    Began {
        txn: Txn,
        session: Session,
        kind: Kind,
        instance: u32,
    },
    Got {
        txn: Txn,
        cell: Cell,
        from: Txn,
        value: Option<i64>,
    },
    /// A Put without a value deletes the row.
    Put {
        txn: Txn,
        cell: Cell,
        value: Option<i64>,
    },
    Ready(Txn),
    Done(Txn),
    Gone {
        txn: Txn,
        cause: Cause,
    },
    Told(Txn),
}

/// How far a transaction has come.
#[derive(Clone, Copy, Debug, PartialEq, Eq)]
pub enum Phase {
    NotBegun,
    Running,
    Ready,
    Committed,
    Aborted,
}
