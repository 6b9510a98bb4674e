//! The control of a timestamp node: multiversion timestamp ordering, by batches.
//!
//! The timestamp of a transaction is the start of its side's batch (`batch_book`); at a leaf, its own Began. The versions of a cell
//! are in the order of timestamps, whichever was put last.
//!
//! | Asks | Answer |
//! |---|---|
//! | a read | goes on. It sees versions with an earlier timestamp, committed or not |
//! | a write | breaks (`Late`) if a transaction with a later timestamp, which is not aborted, has read the writer's own version or an earlier one |
//! | a Begin | waits if the open batch of its side is full |
//! | a Commit | goes on; if the node is *ordered*, it waits for active transactions with an earlier timestamp |
//!
//! ```text
//!   t1 begins (timestamp 0)     t2 begins (1)     t2 reads x: the starting row     t1 writes x: Late, and t1 is aborted
//! ```
//!
//! **What is proved.** [`Stamps`] implements `Control` of `phase_api`: each answer is that of `teb_rules` for a timestamp node, and
//! `Late` names the lowest-numbered such reader (`specs/Standing` says for which history the control stands). Two more contracts lend
//! what it keeps: [`Stamps::batches`], and [`Stamps::reads`], the reads of a cell.
//!
//! **What it costs.** A write goes through the reads of the cell, from the newest back to the first whose batch closed before the
//! writer's started.
//!
//! **Not claimed**: that a read lasts. It may be of an uncommitted version; the Commit then waits for the writer, and falls with it.
#![tactic(auto)]

mod reads;
mod stamps;

pub use stamps::Stamps;
