//! The start and the close of the batch of a transaction at a node.

ghost use Rattle.std.specs.Prelude.{◌≡◌};
ghost use Rattle.teb_rules.specs.Batches.{start, close};
ghost use Rattle.batch_book.specs.Histories.{BatchesOf};
ghost use Rattle.serial_order.specs.Booked.{ControlsStand, IsNode, HasBatches, IsAt, told};

use crate::booked::Booked;
use batch_book::Batches;
use candidate_reads::control_at;
use engine_core::AnyControl;
use teb_rules::names::{Node, Txn};

impl<'a> Booked<'a> {
    // Returns the batches of a node that has them, which its control keeps.
    fn batches(&self, n: Node) -> &Batches
        requires controls { ControlsStand self.now }
        requires node { IsNode self.now n.0 }
        requires batches { HasBatches self.now n.0 }
        ensures { told self.now (BatchesOf result.now) n.0 }
    {
        match control_at(self.controls, self.facts, n) {
            AnyControl::Timestamp(stamps) => stamps.batches(),
            AnyControl::Snapshot(snapshot) => snapshot.batches(),
            AnyControl::Locks(_) | AnyControl::Pipeline(_) => unreachable!(),
        }
    }

    /// Returns the start of a transaction's batch at a node.
    pub(crate) fn start_of(&self, n: Node, t: Txn) -> usize
        requires controls { ControlsStand self.now }
        requires here { IsAt self.now n.0 t.0 }
        requires node { IsNode self.now n.0 }
        requires batches { HasBatches self.now n.0 }
        ensures { result ≡ told self.now start n.0 t.0 }
    {
        self.batches(n).start(t)
    }

    /// Returns the close of that batch: the length of the history while it is open.
    pub(crate) fn close_of(&self, n: Node, t: Txn) -> usize
        requires controls { ControlsStand self.now }
        requires here { IsAt self.now n.0 t.0 }
        requires node { IsNode self.now n.0 }
        requires batches { HasBatches self.now n.0 }
        ensures { result ≡ told self.now close n.0 t.0 }
    {
        self.batches(n).close(t).unwrap_or(self.facts.history.len())
    }
}
