//! The lock table of one node: which active transactions hold which cell there.
//!
//! A transaction *holds* a cell at a node if the node is on its path, it is active (unfinished), and it has accessed the cell. A
//! [`Hold`] says which transaction, and whether it has put the cell. Holds are kept until the commit or the abort, as in strict
//! two-phase locking.
//!
//! ```text
//!   cell held by one transaction    1,024 slots: one look to ask, to enter and to release
//!   any other cell                  32 buckets of a few keys (`sorted_multimap`), its holds in ascending number
//! ```
//!
//! | Call | |
//! |---|---|
//! | [`HoldBook::access`] | a transaction reads or puts a cell |
//! | [`HoldBook::release_all`] | a transaction commits or aborts; its history tells which cells it has accessed |
//! | [`HoldBook::holds`] | the holds on a cell, as a slice |
//!
//! **What is proved.** Contracts see the holds on each cell (`shown` of `specs/Books`). `HoldsOf` of `specs/Holders` says, over the
//! events alone, which history and node a book shows. An access keeps it (clauses `got` and `put`), and a release says what it leaves
//! (`shown`).
//!
//! **Not claimed**: which transactions wait. `access_conflicts` says which holds are in the way of an access.
#![tactic(auto)]

ghost use Rattle.hold_book.specs.Books.{hold_number};

mod book;
mod entries;
mod filed;
mod slots;

pub use book::HoldBook;
use sorted_multimap::Numbered;
use teb_rules::names::Txn;

/// A transaction that has accessed a cell, and whether it has put it.
#[derive(Clone, Copy, Debug, PartialEq, Eq)]
pub struct Hold {
    pub txn: Txn,
    pub wrote: bool,
}

/// A hold is numbered by its transaction.
impl Numbered for Hold {
    ghost numbered_by = { hold_number };

    fn number(self) -> u32 {
        self.txn.0
    }
}
