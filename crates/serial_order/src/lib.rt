//! The serial order of the committed transactions, and the final tables.
//!
//! Each committed transaction has a *rank* at each node of its path. The order sorts by the rank at the root, then by the side there,
//! then by the rank at the child, and so on down: the transactions' *keys*, in dictionary order.
//!
//! | Node | Rank of a committed transaction |
//! |---|---|
//! | locks, pipeline | the position of its Done |
//! | timestamp | the start of its batch |
//! | snapshot | the start of its batch if an edge leads from a committed member of the batch to a committed transaction, and otherwise the batch's close |
//!
//! So at a snapshot node a batch that read old values goes to where its snapshot was taken, and other batches go to where their
//! writes appeared. Under a root of locks or a pipeline the order is that of the commits, and nothing is sorted.
//!
//! **What is proved.** [`order`] returns `serial_order` of `teb_rules` (clause `order`), and it serializes the engine's history
//! (clause `serializes`): run serially in that order, from the starting rows, the transactions read what they read, and leave the
//! final tables. [`tables`] returns those tables as rows. [`laws`] says the laws of the rules of every engine.
//!
//! **What it costs.** One sort by keys. At a snapshot root, one look at a mark tells of most transactions that no edge leads from
//! them.
//!
//! **Not claimed**: that the order is that of real time. By the tree it may be (`guarantees`). Both calls may return out of memory.
#![tactic(auto)]

mod batches;
mod booked;
mod edges;
mod end_state;
mod final_tables;
mod keys;
pub mod laws;
mod seen_cells;
mod serial;

pub use final_tables::tables;
pub use serial::order;
