//! The tree of concurrency controls, and the path of each transaction from the root to its leaf.
//!
//! Each node has a control. Each transaction type is at a leaf, or, if its instances are partitioned, at one leaf for each part. Two
//! transactions *meet* at the lowest node on both paths, and only the control there regulates their conflicts.
//!
//! ```text
//!              0 snapshot                      the path of reports             0, 1
//!             /          \                     the path of payments, 7         0, 2, 4    (7 mod 2 is 1: part 1)
//!      1 locks          2 locks                they meet at                    0
//!      reports         /       \               payments, 7 and payments, 8     meet at 2
//!             3 pipeline     4 pipeline        payments, 7 and payments, 9     meet at 4, their leaf
//!             payments       payments
//!             part 0 of 2    part 1 of 2
//! ```
//!
//! - The *side* of a transaction at a node is the child on its path. At its own leaf each transaction is a separate side.
//! - A list of rows is *accepted* if it has no fault: its shape is that of a tree of at most eight levels, each type has all its
//!   parts, and the placement rules hold ([`ShapeWhy`], [`Rule`]).
//!
//! **What is proved.** [`Tree::build`] returns a tree only if the rows have no fault, and otherwise their first fault (`Answers` of
//! `specs/tree/Answers`; `tree_fault` of `teb_rules`), unless it runs out of memory. `path`, `is_on`, `side` and `meet` are the
//! definitions of `teb_rules`. For `meet`, that holds whatever the history is (`IsMeet`).
//!
//! **What it costs.** A path is stored for each leaf, so [`Tree::path`] is one look-up; the other questions cost at most the depth.
//!
//! **Not claimed**: that a tree suits a load. `tree_guarantees` says what its shape guarantees.

mod check;
mod fault;
mod homes;
mod path;
mod placement;
mod rows;
mod shape;
mod tree;
mod way;

pub use fault::{Rule, ShapeWhy, TreeError};
pub use rows::NodeRow;
pub use teb_rules::names::ControlKind;
pub use tree::Tree;
