//! The batches of one node: groups of transactions of one side that share a start and an end timestamp.
//!
//! At a timestamp or a snapshot node, the transactions of one side (one child of the node) share a *batch*. It *starts* at a Began
//! before which no transaction of the side was active, and *closes* at the first event after which none is active. So a side has at
//! most one open batch. At a leaf each transaction is a separate side.
//!
//! ```text
//!   side A    ├─── t1 ───┤                            ├── t5 ──┤
//!                   ├─── t2 ───┤
//!             [ one batch      ]                      [        ]
//!   side B         ├── t3 ──┤        ├── t4 ──┤
//!                  [        ]        [        ]
//!
//!   the batch of t1 and t2 and that of t3 are concurrent; it closed before those of t4 and t5 started
//! ```
//!
//! - [`Batches::join`] and [`Batches::finish`] note a Began, and a Done or Gone. [`Batches::start`] and [`Batches::close`] are
//!   positions in the history.
//! - A batch is *full* once it has admitted its size; a Begin then waits for its lowest-numbered active member ([`Batches::full`]).
//! - The *horizon* of a transaction is a member below which every batch closed before that of the transaction started. Searches for
//!   concurrent transactions begin there ([`Batches::horizon`]).
//!
//! **What is proved.** `BatchesOf` of `specs/Histories` says which history and node a book shows. Under it, each answer is that of
//! `Batches` in `teb_rules`: `start`, `close`, `on_begin`. [`laws`] has what holds of every book.
//!
//! **What it costs.** `join`, `finish` and `full` go through the active members, of which an engine has at most 32. The others are
//! one look, or a binary search if not every transaction has joined.
//!
//! **Not claimed**: anything of transactions without the node on their path: they join no batch.
#![tactic(auto)]

mod batches;
pub mod laws;
mod members;
mod settled;

pub use batches::Batches;
