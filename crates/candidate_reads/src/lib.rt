//! Which version of a cell a transaction reads, and at which place its own version belongs.
//!
//! The versions of a cell are a chain in version order (`version_chain`). A transaction reads its own version if it has one.
//! Otherwise it reads the last version that it *sees*; otherwise the starting row. Whether it sees a version is asked of one control:
//! that of the node at which it meets the writer.
//!
//! ```text
//!   chain of x      t3: 10      t7: 4      t9: 12          t8 reads x
//!
//!   t9?  t8 meets t9 at the root, a timestamp node, and the batch of t9 started later      not seen
//!   t7?  t8 meets t7 at their leaf, a locks node, and t7 has committed                     seen: t8 reads 4, from t7
//! ```
//!
//! | Call | |
//! |---|---|
//! | [`read`] | the writer that a transaction reads from, and the value |
//! | [`place_of`] | the place of its version, present or about to be put; it asks the nodes for the order |
//! | [`place_behind`] | the same if no timestamp node is on its path: a new version goes to the end |
//! | [`candidate`], [`amend`] | the last version that the leaf shows; the later of that and what a node above shows (`amended_reads`) |
//! | [`control_at`], [`control_between`] | the control of a node; of the node at which two transactions meet |
//!
//! **What is proved.** [`read`] is `read` of `Versions` in `teb_rules`. A place is one before which all writers precede the
//! transaction, and from which none does (`IsPlaceOf` of `phase_api`). Both hold of a lawful history, controls that stand for it, and
//! chains that hold its versions (`HoldsVersions`).
//!
//! **Law only**: no code calls [`candidate`] and [`amend`], since the engine reads by one walk ([`read`]). They carry the law that
//! amending the candidate from the leaf to the root gives the version that is read (`amended_reads`).
//!
//! **What it costs.** A read walks from the newest version down to the first that is seen.
//!
//! **Not claimed**: that the read may be made. The engine asks the nodes first.
#![tactic(auto)]

mod node_control;
mod placing;
mod reading;
mod sight;

pub use node_control::{control_at, control_between};
pub use placing::{Place, place_behind, place_of};
pub use reading::read;
pub use sight::{amend, candidate};
