//! The key of a committed transaction: its ranks and its sides along its path, up to the rank that is its Done.

ghost use Rattle.std.specs.Prelude.{◌≡◌, ◌++◌, OnOk};
ghost use Rattle.teb_rules.specs.history.Phases.{done_at, spot_of};
ghost use Rattle.teb_rules.specs.Tree.{side};
ghost use Rattle.teb_rules.specs.Ranks.{rank};
ghost use Rattle.phase_api.specs.FactsView.{IsTyped};
ghost use Rattle.serial_order.specs.Booked.{ControlsStand, history, IsNode, IsAt, told};
ghost use Rattle.serial_order.specs.Edges.{MarkEdges};
ghost use Rattle.serial_order.specs.Keys.{cut_key, ranks_by_done};

use crate::booked::Booked;
use std::alloc::AllocError;
use teb_rules::names::{ControlKind, Node, Spot, Txn};

impl<'a> Booked<'a> {
    /// Appends the rank and the side of a transaction at each node from the root to its leaf, at most 16 numbers. A rank that is its
    /// Done is the last number: no other transaction has it. `marks` are those of the batches with an edge out, and `done` is the
    /// position of its Done.
    pub(crate) fn push_key(
        &self,
        numbers: &mut Vec<usize>,
        marks: &[bool],
        t: Txn,
        done: usize,
    ) -> Result<(), AllocError>
        requires controls { ControlsStand self.now }
        requires marks { told self.now MarkEdges marks.now }
        requires typed { IsTyped self.now.facts.now t.0 }
        requires done { done ≡ done_at (history self.now) t.0 }
        ensures { OnOk result (numbers.new.items ≡ numbers.old.items ++ told self.now cut_key t.0) }
    {
        let facts = self.facts;
        let spot = facts.spot(t).unwrap();
        for n in facts.tree.path(spot) {
            numbers.push(self.rank(marks, *n, t, done))?;
            if ranks_by_done(facts.tree.row(*n).control) {
                return Ok(());
            }
            numbers.push(self.side(*n, spot, t) as usize)?;
        }
        Ok(())
    }

    // Returns the number of the side of a node on which a transaction is, by its spot.
    fn side(&self, n: Node, spot: Spot, t: Txn) -> u32
        requires here { IsAt self.now n.0 t.0 }
        requires spot { spot ≡ spot_of (history self.now) t.0 }
        ensures { result ≡ told self.now side n.0 t.0 }
    {
        match self.facts.tree.side(n, spot) {
            Some(child) => u32::from(child.0),
            None => t.0,
        }
    }

    // Returns the rank of a transaction at a node.
    fn rank(&self, marks: &[bool], n: Node, t: Txn, done: usize) -> usize
        requires controls { ControlsStand self.now }
        requires marks { told self.now MarkEdges marks.now }
        requires here { IsAt self.now n.0 t.0 }
        requires node { IsNode self.now n.0 }
        requires done { done ≡ done_at (history self.now) t.0 }
        ensures { result ≡ told self.now rank n.0 t.0 }
    {
        match self.facts.tree.row(n).control {
            ControlKind::Locks | ControlKind::Pipeline => done,
            ControlKind::Timestamp => self.start_of(n, t),
            ControlKind::Snapshot => {
                let start = self.start_of(n, t);
                if marks[start] {
                    start
                } else {
                    self.close_of(n, t)
                }
            }
        }
    }
}

// Returns whether a node of a kind ranks a transaction by its Done.
fn ranks_by_done(control: ControlKind) -> bool
    ensures { result ≡ ranks_by_done control }
{
    match control {
        ControlKind::Locks | ControlKind::Pipeline => true,
        ControlKind::Timestamp | ControlKind::Snapshot => false,
    }
}
