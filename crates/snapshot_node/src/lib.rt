//! The control of a snapshot node: serializable snapshot isolation, by batches.
//!
//! The transactions of a side share a batch (`batch_book`), and so a snapshot: they see what was committed in batches that had closed
//! before theirs started.
//!
//! The control regulates transactions of different sides:
//!
//! | Asks | Answer |
//! |---|---|
//! | a read | goes on |
//! | a write | breaks (`First`) if a concurrent transaction has committed a version of the cell; otherwise waits for an active writer of it |
//! | a Prepare or a Commit | breaks (`Pivot`) if the batches would have a dangerous structure |
//! | a Begin | waits if the open batch of its side is full |
//!
//! An *edge* (read-write antidependency) goes from a reader to a concurrent writer, of another side, of a later version. A *pivot* is
//! an edge into a batch and an edge out of the same batch, among the prepared and committed transactions and the one that asks. Write
//! skew, with a batch for each transaction:
//!
//! ```text
//!   t1 reads x, writes y        t2 reads y, writes x        edges  t1 ─► t2 (by x),  t2 ─► t1 (by y)
//!   commit: granted             commit: Pivot { a: t1, b: t2, c: t2, d: t1 }
//! ```
//!
//! **What is proved.** [`Snapshot`] implements `Control` of `phase_api`: each answer is that of `teb_rules` for a snapshot node, and
//! a pivot is the least one (`validate` of `Controls`). That prepared and committed transactions hold no pivot is a law
//! (`settled_hold_no_pivot` of `teb_rules::laws`).
//!
//! **What it costs.** Edges are not stored, since an edge to a prepared transaction goes away if that one aborts. A validation finds
//! those of its transaction by cell, from the *horizon* on: the first transaction that may be concurrent. Two *marks* for each batch
//! and each transaction say that an edge may lead into it or out of it. A mark that is not set spares a search; the answer never
//! depends on a mark.
//!
//! If the marks do not exclude a pivot, the edges into or out of another batch are searched too. That takes a look at every transaction
//! from the horizon of that batch to the last one that has begun, and a search by cell for each marked member. It may be repeated for
//! each transaction with which the one that validates, or the first of the pivot, shares an edge.
//!
//! **Not claimed**: that a broken transaction was in a cycle. As in serializable snapshot isolation, some breaks are not needed.
#![tactic(auto)]

mod asked;
mod batch_edges;
mod leaving;
mod marking;
mod marks;
mod near;
mod neighbours;
mod numbered;
mod own_edges;
mod pivots;
mod recent;
mod register;
mod snapshot;
mod validation;

pub use snapshot::Snapshot;
