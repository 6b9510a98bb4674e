//! Versions by cell in a pool of places that are linked by index: an implementation of the trait `Chains` for many versions.
//!
//! ```text
//!   cells     place of x in a cell index ──► first, last, length
//!                                                   │
//!   places    ┌──────┐  next  ┌──────┐  next  ┌──────┐           a ring: the last place leads to the first
//!             │ t3 x │ ─────► │ t7 x │ ─────► │ t5 x │ ─► first
//!             └──────┘ ◄───── └──────┘ ◄───── └──────┘
//!                │ sibling: the next place of the writer's list
//!   writers   hash of t3 ──► first, length                        free places form one more list
//! ```
//!
//! - A *place* holds a version, with links to its neighbours in the chain of its cell and to the next place of its writer. A place
//!   takes 40 bytes.
//! - A *mark* is the greatest writer of a pair of remainders, of a writer's number by 64 and of a key by 32. A transaction above the
//!   mark has not put the cell, so most reads do not search for a version of their own.
//!
//! **What is proved.** [`PooledChains`] has the contract of `Chains`: the lists of `version_chain`, and nothing of links. Its
//! invariant is `Holds` of `specs/View`: each place is in the chain of its cell and in the list of its writer, or is free (`Linked`),
//! and the marks are right (`IsMarked`).
//!
//! **What it costs.** A chain is found through the cell index, and walked from its newest version. An abort costs the writer's own
//! versions, however long the chains are. `reserve` makes room, so no edit takes memory.
//!
//! **Not claimed**: a limit on the length of a chain: no version is removed while its writer is not aborted. A pool has at most 2^32
//! - 1 places.
#![tactic(auto)]

mod cell_chain;
mod chain_heads;
mod latest;
mod places;
mod pool;
mod pooled;
mod walks;
mod writer_heads;

pub use pooled::PooledChains;
