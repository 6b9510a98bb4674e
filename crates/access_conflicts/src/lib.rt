//! What locks and pipeline nodes share: the register of holders, and which of them are in the way of an access.
//!
//! - [`HoldRegister`] is the lock table of a node (`hold_book`), which notes each event. It leaves out transactions without the
//!   node on their path.
//! - [`is_in_the_way`]: a read conflicts with holders that have put the cell, and a write with all holders. A transaction does not
//!   conflict with its own holds, or with holders on its own side of the node: they meet at a node below (*nexus* locks).
//! - [`wait_for`] is the verdict that waits for the holder that was found, if any.
//!
//! ```text
//!                   a holder of another side has
//!                   read the cell     put the cell
//!   a read asks     goes on           is in the way
//!   a write asks    is in the way     is in the way
//! ```
//!
//! **What is proved.** The register lends the holders by the history (`HoldRegister::holds`: `holds_in` of `hold_book`), and
//! `Registered` of `specs/Registered` says which history it stands for. [`is_in_the_way`] is `in_the_way` of `specs/Blockers`.
//!
//! **Not claimed**: that a holder in the way is waited for. At a pipeline it is passed over once it has passed the rank of the table.
#![tactic(auto)]

ghost use Rattle.std.specs.Prelude.{◌≡◌};
ghost use Rattle.phase_api.specs.FactsView.{setup_of, events_of, IsTyped};
ghost use Rattle.access_conflicts.specs.Blockers.{in_the_way};
ghost use Rattle.access_conflicts.specs.Waits.{wait_for_txn};

mod hold_register;

use hold_book::Hold;
pub use hold_register::HoldRegister;
use phase_api::Facts;
use teb_rules::Verdict;
use teb_rules::names::{Node, Txn};

/// Returns a wait for the transaction that was found, or `Go`.
pub fn wait_for(who: Option<Txn>) -> Verdict
    ensures { result ≡ wait_for_txn who }
{
    match who {
        None => Verdict::Go,
        Some(u) => Verdict::Wait(u),
    }
}

/// Returns whether a hold on a cell is in the way of t's access of the cell: at this node, t's read conflicts with each transaction that has
/// put it, and t's write with each that has accessed it. Its own hold is never in its way.
#[inline(always)]
pub fn is_in_the_way(facts: &Facts, node: Node, t: Txn, hold: &Hold, write: bool) -> bool
    requires typed { IsTyped facts.now t.0 }
    requires holder { IsTyped facts.now hold.now.txn.0 }
    ensures { result ≡ in_the_way (setup_of facts.now) (events_of facts.now) node.0 t.0 write hold.now }
{
    if hold.txn == t {
        return false;
    }
    (write || hold.wrote) && facts.meet_at(node, t, hold.txn)
}
