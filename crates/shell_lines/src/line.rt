//! What a line of the shell asks.

use script_text::LineWhy;
use teb_rules::names::{Request, Session, Table, Txn};

/// What a line of the shell asks.
#[derive(Clone, Copy)]
pub enum ShellLine {
    /// Nothing: the line is blank, or a comment.
    Nothing,
    /// A request of a session.
    Ask { session: Session, request: Request },
    /// The committed rows, or some of them.
    Rows(RowRange),
    /// The serial order of the commits of this epoch.
    Order,
    /// The number of the epoch, of its commits, and of the bytes that are left for it.
    Epoch,
    /// The next epoch.
    Checkpoint,
    /// The names of the tables.
    Tables,
    /// The names of the types.
    Types,
    /// The tree, drawn as text.
    Tree,
    /// What the tree guarantees.
    Guarantees,
    /// The sessions that hold a transaction.
    Sessions,
    /// A tree text that opens as this store.
    Dump,
    /// The lines of a file, in the place of this one. The line's second word names it.
    Read,
    /// The lines that there are.
    Help,
    /// The end of the run.
    Quit,
    /// Nothing that the shell knows, and why.
    Bad(LineWhy),
}

/// Which rows are asked for.
#[derive(Clone, Copy)]
pub struct RowRange {
    /// Those of this table, or of all.
    pub table: Option<Table>,
    /// The least key.
    pub from: u32,
    /// The most rows, if there is a limit.
    pub count: Option<u32>,
}

/// What becomes of a checkpoint.
#[derive(Clone, Copy)]
pub enum Checkpoint {
    /// This epoch has begun, counted from 1.
    Begun(u64),
    /// This transaction is unfinished.
    Unfinished(Txn),
    /// This session has an aborted transaction, and was not told of it.
    Untold(Session),
    /// The rows do not fit the file.
    Full,
}

/// Why a line that is well formed can't be obeyed.
#[derive(Clone, Copy)]
pub enum Unable {
    /// The file can't be read.
    Unreadable,
    /// The file is too long.
    TooLong,
    /// The line is itself one of a file that is read.
    Nested,
    /// The store has more rows than a tree text may have.
    ManyRows,
}
