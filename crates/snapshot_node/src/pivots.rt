//! The least pivot: two edges among those at stake, from a to b and from c to d, such that b and c are of one batch.
//!
//! Each pivot contains the transaction that validates, since those that were validated before hold none. So the first of a pivot is
//! found from the edges at that transaction and at its batch.

ghost use Rattle.std.specs.Prelude.{◌≡◌};
ghost use Rattle.teb_rules.specs.history.Ascending.{IsAscendingBy};
ghost use Rattle.teb_rules.specs.history.Live.{number_of};
ghost use Rattle.snapshot_node.specs.Asking.{IsAt};
ghost use Rattle.snapshot_node.specs.Validating.{AreAt, AreOwn, IsAtStake, ruled, at};
ghost use Rattle.snapshot_node.specs.Pivots.{IsLeast, IsMiddle, IsMiddleAmong, IsFirst, ComesBefore, ComesAfter, ComesIn, ComesInAmong, break_by};

use crate::neighbours::{is_at_stake, lesser};
use crate::validation::{Own, Validation};
use access_book::Access;
use teb_rules::Broken;
use teb_rules::names::Txn;

impl<'a> Validation<'a> {
    /// Returns the least pivot among those at stake.
    pub(crate) fn least_pivot(&self) -> Option<Broken>
        ensures { break_by result ≡ ruled self.now }
    {
        if self.asked.facts.history.is_prepared(self.t) {
            return None;
        }
        let own = self.own_edges();
        if !self.is_near(own) {
            return None;
        }
        let a = self.least_first(own)?;
        let b = self.least_middle(a, own)?;
        let (c, d) = self.edge_out(b, own)?;
        Some(Broken::Pivot { a, b, c, d })
    }

    // Returns the least transaction that is the first of a pivot.
    fn least_first(&self, own: Own) -> Option<Txn>
        requires { AreOwn self.now own }
        ensures { IsLeast (at self.now IsFirst) result }
    {
        lesser(self.first_before(own), self.first_after(own))
    }

    // Returns the same for pivots with t last or second. With t last, an edge leads to t, and one into the batch of the one that has it; with t
    // second, an edge leads to t, and one leaves t's batch.
    fn first_before(&self, own: Own) -> Option<Txn>
        requires { AreOwn self.now own }
        ensures { IsLeast (at self.now ComesBefore) result }
    {
        if own.behind.is_none() {
            return None;
        }
        let least = self.least_before(own);
        if self.edge_out(self.t, own).is_some() {
            return lesser(least, own.behind);
        }
        least
    }

    // Returns the same for pivots with t third or first. With t third, an edge leads from t, and one into t's batch; with t first, an edge leads
    // from t into a batch that one leaves.
    fn first_after(&self, own: Own) -> Option<Txn>
        requires { AreOwn self.now own }
        ensures { IsLeast (at self.now ComesAfter) result }
    {
        if own.ahead.is_none() {
            return None;
        }
        let least = self.least_into(self.t, own);
        if self.least_middle(self.t, own).is_some() {
            return lesser(least, Some(self.t));
        }
        least
    }

    // Returns the least one with an edge into a batch that an edge leads from to t.
    fn least_before(&self, own: Own) -> Option<Txn>
        requires { AreOwn self.now own }
        ensures { IsLeast (at self.now ComesIn) result }
    {
        let recent = self.asked.recent(self.t);
        let mut least = None;
        for access in self.asked.accesses(self.t) {
            if let Access::Put { readers } = access {
                least = lesser(least, self.least_before_by(recent.among(readers), own));
            }
        }
        least
    }

    // Returns the same by those at stake among some that are across from t. Of those that follow one another in one batch it asks the first:
    // the others are reached by the same. `last` is the last one that was asked; at first t, which has no mate across from it.
    fn least_before_by(&self, among: &[Txn], own: Own) -> Option<Txn>
        requires own { AreOwn self.now own }
        requires among_here { AreAt self.now among.now }
        ensures { IsLeast (at self.now ComesInAmong among.now) result }
    {
        let t = self.t;
        let mut least = None;
        let mut last = t;
        for c in among {
            if is_at_stake(self.asked.facts.history, t, *c)
                && self.are_across(t, *c)
                && !self.are_one_batch(last, *c)
            {
                least = lesser(least, self.least_into(*c, own));
                last = *c;
            }
        }
        least
    }

    // Returns the least transaction to which a, which is at stake, has an edge, and whose batch an edge leaves.
    fn least_middle(&self, a: Txn, own: Own) -> Option<Txn>
        requires here { IsAt self.now.asked a.0 }
        requires stake { IsAtStake self.now a.0 }
        requires own { AreOwn self.now own }
        ensures { IsLeast (at self.now IsMiddle a.0) result }
    {
        let recent = self.asked.recent(a);
        let mut least = None;
        for access in self.asked.accesses(a) {
            if let Access::Read { writers } = access {
                least = lesser(least, self.middle_by(a, recent.among(writers), own));
            }
        }
        least
    }

    // Returns the first of some at stake that are across from a, and whose batch an edge leaves.
    fn middle_by(&self, a: Txn, among: &[Txn], own: Own) -> Option<Txn>
        requires here { IsAt self.now.asked a.0 }
        requires own { AreOwn self.now own }
        requires ascending { IsAscendingBy number_of among.now }
        requires among_here { AreAt self.now among.now }
        ensures { IsLeast (at self.now IsMiddleAmong a.0 among.now) result }
    {
        for b in among {
            if is_at_stake(self.asked.facts.history, self.t, *b)
                && self.are_across(a, *b)
                && self.edge_out(*b, own).is_some()
            {
                return Some(*b);
            }
        }
        None
    }
}
