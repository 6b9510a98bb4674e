//! The readers and writers of each cell, the sources of each transaction, and the active transactions: kept event by event.
//!
//! The engine asks this for two rules. A Commit waits for the active transactions that it read from (commit dependency). An abort
//! takes every transaction that read from the aborted one with it (cascading abort).
//!
//! | Call | |
//! |---|---|
//! | [`Book::note`] | notes the newest event of the history |
//! | [`Book::readers`], [`Book::writers`] | the readers of a cell, each beside the writer that it read from; its writers |
//! | [`Book::read_from`] | the *sources* of a transaction: those that it read from, in ascending number |
//! | [`Book::unfinished`] | the active transactions |
//!
//! An abort takes out what its transaction read and put, so the lists have only transactions that are not aborted.
//!
//! **What is proved.** Each list is a function of the events (`readers`, `writers`, `sources`, `unfinished_txns` of
//! `specs/Dependencies`). `BookOf` of `specs/Books` says which history a book stands for, and [`Book::note`] keeps it.
//!
//! **What it costs.** A read or a put costs a look-up of its cell; the sources of a transaction are found by its number. Room is made
//! ahead ([`Book::reserve`]), so `note` takes no memory.
//!
//! **Not claimed**: which transactions wait or fall: see `commit_gate` and `abort_cascade`.
#![tactic(auto)]

mod book;
mod cell_lists;
mod registers;
mod source_lists;

pub use book::Book;
