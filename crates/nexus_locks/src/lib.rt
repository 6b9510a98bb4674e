//! The control of a locks node: strict two-phase locking between the sides of the node.
//!
//! | Asks | Waits for the lowest-numbered active transaction of another side that |
//! |---|---|
//! | a read of a cell | has put the cell |
//! | a write of a cell | has read or put the cell |
//! | a Begin, a Prepare, a Commit | nobody |
//!
//! Transactions of one side do not lock each other here: they meet at a node below (*nexus* locks). Locks are held until the commit
//! or the abort. There is no table of waiting requests: a request that waits is answered `Again`, changes nothing, and is asked
//! again.
//!
//! Of the writers of other sides, a reader sees the committed ones. Their versions are in the order of the puts.
//!
//! **What is proved.** [`Locks`] implements `Control` of `phase_api`: each answer is that of `teb_rules` for a locks node (`blocks`
//! of `Controls`; `LocksStand` of `specs/Standing` is what it keeps). No deadlock is possible: a wait for a newer transaction becomes
//! an abort in the engine.
//!
//! **What it costs.** One look at the holders of the cell, at most 32 of them.
//!
//! **Not claimed**: in which order waiting sessions are served.
#![tactic(auto)]

mod locks;

pub use locks::Locks;
