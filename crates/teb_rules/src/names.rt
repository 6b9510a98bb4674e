//! The words that all crates share: numbers, names, rows, and what a session and the engine say to each other.
//!
//! | Type | In the field |
//! |---|---|
//! | [`Txn`] | a transaction, numbered from 1 in the order of their beginning; 0 is the writer of the starting rows |
//! | [`Session`] | a client's connection, 1 to [`SESSIONS`]; it has at most one open transaction |
//! | [`Table`], [`Cell`] | a table; a row, which is named by its table and its key |
//! | [`Kind`], [`Spot`] | a transaction type; a type with an instance, which says in which partition the transaction runs |
//! | [`Node`], [`ControlKind`] | a node of the tree of concurrency controls; the kind of its control |
//! | [`Request`], [`Reply`] | one call of the store and its answer; an [`Entry`] is both, with the session |
//! | [`Cause`], [`Refusal`] | why a transaction was aborted; why a request was refused |
//!
//! A session that adds 5 to a row, as requests and replies:
//!
//! ```text
//!   Begin(spot)     Begun(Txn(1))
//!   Add(cell, 5)    Refused(NotRead)      an Add needs a value that the transaction has read or put
//!   Read(cell)      Value(Some(10))
//!   Add(cell, 5)    Done
//!   Commit          Committed             the row is 15 now
//! ```
//!
//! The module also has three small collections. Contracts see each as a list:
//!
//! - [`Names`]: at most 255 distinct names, numbered from 0 in the order in which they were added (`Names::add`, clause `added`).
//! - [`Rows`]: cells with values, at most one of a cell, in ascending order of cells (`Rows::insert`, clauses `rows` and `ascending`;
//!   `IsAscending` of `specs/names/Rows`).
//! - [`ScanList`]: up to sixteen values, each of which may be missing. It takes no memory, so answering a scan cannot fail.
//!
//! **Not claimed**: which reply a request gets (the rules say that); that a number is one of a given tree; that [`Rows`] has at
//! most [`MOST_ROWS`] rows (`tree_toml` refuses a text with more).

mod name_form;
mod naming;
mod rows;
mod scan;

pub use name_form::is_name;
pub use naming::{NameBook, Names};
pub use rows::{MOST_ROWS, Rows};
pub use scan::ScanList;

/// A transaction, numbered from 1 in the order of beginning. 0 is the writer of the starting rows.
#[derive(Clone, Copy, Debug, PartialEq, Eq, PartialOrd, Ord, Hash)]
pub struct Txn(pub u32);

/// At most this many transactions of one engine begin; a further Begin is refused as `Full`. A hall makes a note for each of
/// them beforehand.
pub const MOST_TXNS: u32 = 8192;

/// A session, 1 to `SESSIONS`.
#[derive(Clone, Copy, Debug, PartialEq, Eq, PartialOrd, Ord)]
pub struct Session(pub u8);

/// How many sessions an engine has. Each holds at most one transaction, so at most this many are active at a time.
pub const SESSIONS: u8 = 32;

/// A table. 255 is the number of every name that the tree does not have.
#[derive(Clone, Copy, Debug, PartialEq, Eq, PartialOrd, Ord, Hash)]
pub struct Table(pub u8);

/// A transaction type. 255 is the number of every name that the tree does not have.
#[derive(Clone, Copy, Debug, PartialEq, Eq, PartialOrd, Ord)]
pub struct Kind(pub u8);

/// A node of the tree.
#[derive(Clone, Copy, Debug, PartialEq, Eq, PartialOrd, Ord)]
pub struct Node(pub u8);

/// A row: its table and its key. Cells are ordered by table, and in one table by key.
#[derive(Clone, Copy, Debug, PartialEq, Eq, PartialOrd, Ord, Hash)]
pub struct Cell {
    pub table: Table,
    pub key: u32,
}

/// A type with an instance. If a type is at several leaves, the instance selects one of them.
#[derive(Clone, Copy, Debug, PartialEq, Eq)]
pub struct Spot {
    pub kind: Kind,
    pub instance: u32,
}

/// How a node regulates transactions of different children.
#[derive(Clone, Copy, Debug, PartialEq, Eq)]
pub enum ControlKind {
    /// Two-phase locks.
    Locks,
    /// Runtime pipelining: a transaction may access a table once those before it have passed the table's rank.
    Pipeline,
    /// Multiversion timestamp ordering.
    Timestamp,
    /// Serializable snapshots.
    Snapshot,
}

/// A request of a session.
#[derive(Clone, Copy, Debug, PartialEq, Eq)]
pub enum Request {
    /// Begins a transaction.
    Begin(Spot),
    /// Reads a row's value.
    Read(Cell),
    /// Puts a value into a row.
    Write(Cell, i64),
    /// Adds a number to the value that the transaction last put or read there; a row that is absent counts as 0.
    Add(Cell, i64),
    /// Deletes a row.
    Delete(Cell),
    /// Reads `count` rows, 1 to 16, with consecutive keys from the cell's on.
    Scan { cell: Cell, count: u8 },
    /// Prepares the transaction: it is validated, and makes no further access.
    Prepare,
    /// Commits the transaction.
    Commit,
    /// Aborts the transaction.
    Abort,
    /// Ends the session: aborts the transaction that it holds.
    End,
}

/// A reply to a session.
#[derive(Clone, Copy, Debug, PartialEq, Eq)]
pub enum Reply {
    /// The transaction that began.
    Begun(Txn),
    /// The value that was read; `None` if there is no row.
    Value(Option<i64>),
    /// The values of a scan, in ascending order of keys.
    Values(ScanList),
    /// The write, addition or deletion is done.
    Done,
    Prepared,
    Committed,
    /// The request has to wait for `who` at `node`, and nothing has changed: ask again.
    Again { who: Txn, node: Node },
    /// The transaction was aborted.
    Aborted(Cause),
    /// The request can't be answered here, and nothing has changed.
    Refused(Refusal),
}

/// Why a transaction was aborted.
#[derive(Clone, Copy, Debug, PartialEq, Eq)]
pub enum Cause {
    /// It would write before what `reader` has read already.
    Late {
        node: Node,
        reader: Txn,
        cell: Cell,
    },
    /// It would write what a concurrent `writer` has committed.
    First {
        node: Node,
        writer: Txn,
        cell: Cell,
    },
    /// Two read-write edges lead into and out of one batch: `a` read what `b` overwrote, `c` read what `d` overwrote, and `b` and `c`
    /// are of one batch.
    Pivot {
        node: Node,
        a: Txn,
        b: Txn,
        c: Txn,
        d: Txn,
    },
    /// It would wait for a transaction that began later.
    Newer {
        node: Node,
        other: Txn,
    },
    /// It read from a transaction that was aborted.
    After(Txn),
    /// The session asked for it.
    Asked,
    /// The session ended.
    Ended,
}

/// Why a request was refused.
#[derive(Clone, Copy, Debug, PartialEq, Eq)]
pub enum Refusal {
    /// The session's number is not 1 to `SESSIONS`.
    BadSession,
    /// A Begin while the session holds a transaction.
    InTxn,
    /// The tree has no such type.
    UnknownType,
    /// No further transaction may begin.
    Full,
    /// The session holds no transaction.
    NoTxn,
    /// The tree has no such table.
    UnknownTable,
    /// The transaction is prepared.
    Prepared,
    /// No step of the transaction's profile, from its current one on, has the table.
    NotInProfile,
    /// A scan of no rows, of more than 16, or past the last key.
    Range,
    /// An Add to a row that the transaction has neither put nor read.
    NotRead,
    /// The sum of an Add is not an `i64`.
    Overflow,
}

/// One call of the engine: the session, its request and the reply.
#[derive(Clone, Copy, Debug, PartialEq, Eq)]
pub struct Entry {
    pub session: Session,
    pub request: Request,
    pub reply: Reply,
}

/// How a transaction finished.
#[derive(Clone, Copy, Debug, PartialEq, Eq)]
pub enum Outcome {
    Committed,
    Aborted,
}
