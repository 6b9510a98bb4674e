//! The readers and writers of each cell at a snapshot node, and the accesses of each transaction there.
//!
//! A validation looks for read-write edges in both directions. So the book keeps:
//!
//! ```text
//!   by cell           readers | writers | committed writers       each in ascending number
//!   by transaction    its accesses: read cell 3, put cell 3, read cell 8 ..     cells by their places in one index
//! ```
//!
//! - [`AccessBook::accesses`] walks the accesses of a transaction. Beside each access it gives the transactions that have accessed
//!   the cell in the other way, without a further look-up ([`Access`]).
//! - [`AccessBook::writers`] and [`AccessBook::committed`] are slices of the lists of a cell.
//! - An abort takes its transaction out of the lists. A commit adds it to the committed writers.
//!
//! **What is proved.** Contracts see the lists (`Shown` of `specs/Books`); each call says what it does to each list. The lists of a
//! cell are found by the cell's place (`cell_index`), which `IsBook` of `specs/Places` hides.
//!
//! **Not claimed**: which history a book shows. `snapshot_node` says that of its register.
#![tactic(auto)]

mod accesses;
mod book;

pub use accesses::{Access, Accesses};
pub use book::AccessBook;
