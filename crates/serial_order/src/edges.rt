//! The batches of a snapshot node from which an edge leads.

ghost use Rattle.std.specs.Prelude.{◌≡◌, IfOk};
ghost use Rattle.teb_rules.specs.history.Phases.{txns};
ghost use Rattle.snapshot_node.specs.Controls.{SnapshotStandsFor, snapshot_node_number};
ghost use Rattle.serial_order.specs.Booked.{ControlsStand, history, told};
ghost use Rattle.serial_order.specs.Edges.{leads_out, AreMarked, MarkEdges};

use crate::booked::Booked;
use candidate_reads::control_at;
use engine_core::AnyControl;
use snapshot_node::Snapshot;
use std::alloc::{AllocError, Global};
use teb_rules::names::{Node, Txn};

// Only the root can be a snapshot node.
const ROOT: Node = Node(0);

impl<'a> Booked<'a> {
    /// Returns for each position whether a committed member of the batch that starts there has an edge to a committed transaction. If
    /// the root is no snapshot node, there are no marks. It costs what the root's control takes to tell of each committed transaction
    /// whether it has an edge.
    pub(crate) fn edges_out(&self, alloc: Global) -> Result<Vec<bool>, AllocError>
        requires { ControlsStand self.now }
        ensures { IfOk result (λ v. told self.now MarkEdges v.items) }
    {
        match control_at(self.controls, self.facts, ROOT) {
            AnyControl::Snapshot(root) => self.edges_at(alloc, root),
            _ => Ok(Vec::new(alloc)),
        }
    }

    // Returns the marks of a root that is a snapshot node.
    fn edges_at(&self, alloc: Global, root: &Snapshot) -> Result<Vec<bool>, AllocError>
        requires stands { told self.now (SnapshotStandsFor root.now) }
        requires root { snapshot_node_number root.now ≡ 0 }
        ensures { IfOk result (λ v. told self.now AreMarked 0 (txns (history self.now)) v.items) }
    {
        let mut marks = vec![in alloc; false; self.facts.history.len()]?;
        for k in 0..self.facts.history.begun() {
            let a = Txn(k + 1);
            if self.leads_out(root, a) {
                marks[root.batches().start(a)] = true;
            }
        }
        Ok(marks)
    }

    // Returns whether a transaction is committed and has an edge to a committed one.
    fn leads_out(&self, root: &Snapshot, a: Txn) -> bool
        requires stands { told self.now (SnapshotStandsFor root.now) }
        requires root { snapshot_node_number root.now ≡ 0 }
        ensures { result ≡ told self.now leads_out 0 a.0 }
    {
        let facts = self.facts;
        facts.history.is_committed(a) && facts.is_on(ROOT, a) && root.has_edge(facts, a)
    }
}
