//! Edges between the transaction that validates and the members of a batch.
ghost use Rattle.teb_rules.specs.history.Ascending.{IsAscendingBy};
ghost use Rattle.teb_rules.specs.history.Live.{number_of};
ghost use Rattle.snapshot_node.specs.Asking.{IsAt};
ghost use Rattle.snapshot_node.specs.Pivots.{IsLeast, IsMateAmong, EntersAt, Leaves};
ghost use Rattle.snapshot_node.specs.Validating.{AreAt, at};

use crate::neighbours::{is_at_stake, lesser};
use crate::validation::Validation;
use access_book::Access;
use teb_rules::names::Txn;

impl<'a> Validation<'a> {
    /// Returns the least member of b's batch that has an edge to t.
    pub(crate) fn least_mate_behind(&self, b: Txn) -> Option<Txn>
        requires { IsAt self.now.asked b.0 }
        ensures { IsLeast (λ c. at self.now Leaves b.0 c self.now.t.0) result }
    {
        let recent = self.asked.recent(self.t);
        let mut least = None;
        for access in self.asked.accesses(self.t) {
            if let Access::Put { readers } = access {
                least = lesser(least, self.first_mate_across(b, recent.among(readers)));
            }
        }
        least
    }

    /// Returns the least member of b's batch to which t has an edge.
    pub(crate) fn least_mate_ahead(&self, b: Txn) -> Option<Txn>
        requires { IsAt self.now.asked b.0 }
        ensures { IsLeast (at self.now EntersAt b.0) result }
    {
        let recent = self.asked.recent(self.t);
        let mut least = None;
        for access in self.asked.accesses(self.t) {
            if let Access::Read { writers } = access {
                least = lesser(least, self.first_mate_across(b, recent.among(writers)));
            }
        }
        least
    }

    // Returns the least of some at stake that are across from t, and of b's batch.
    fn first_mate_across(&self, b: Txn, among: &[Txn]) -> Option<Txn>
        requires here { IsAt self.now.asked b.0 }
        requires ascending { IsAscendingBy number_of among.now }
        requires among_here { AreAt self.now among.now }
        ensures { IsLeast (at self.now IsMateAmong b.0 among.now) result }
    {
        for u in among {
            if self.are_one_batch(b, *u)
                && is_at_stake(self.asked.facts.history, self.t, *u)
                && self.are_across(self.t, *u)
            {
                return Some(*u);
            }
        }
        None
    }
}
