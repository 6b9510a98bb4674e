//! The transactions to which edges lead from a transaction, and those from which they lead to it, by the readers and the writers
//! of the cells that it has put or read.

ghost use Rattle.std.specs.Prelude.{◌≡◌};
ghost use Rattle.teb_rules.specs.history.Ascending.{IsAscendingBy};
ghost use Rattle.teb_rules.specs.history.Live.{number_of};
ghost use Rattle.teb_rules.specs.Batches.{one_batch};
ghost use Rattle.snapshot_node.specs.Asking.{HasBegun, IsAt, there};
ghost use Rattle.snapshot_node.specs.Validating.{AreAt, AreOwn, IsAtStake, at};
ghost use Rattle.snapshot_node.specs.Pivots.{is_at_stake, is_across, lesser_of, IsLeast, IsAcross, Leads};

use crate::validation::{Own, Validation};
use access_book::Access;
use teb_rules::history::History;
use teb_rules::names::Txn;

/// Returns whether u is at stake when t validates: it is t itself, or prepared or committed.
#[inline(always)]
pub(crate) fn is_at_stake(history: &History, t: Txn, u: Txn) -> bool
    ensures { result ≡ is_at_stake history.now.events t.0 u.0 }
{
    u == t || history.is_prepared(u) || history.is_committed(u)
}

/// Returns the lesser of two, or the only one.
pub(crate) fn lesser(a: Option<Txn>, b: Option<Txn>) -> Option<Txn>
    ensures { result ≡ lesser_of a b }
{
    match (a, b) {
        (Some(t), Some(u)) => Some(if u < t { u } else { t }),
        (None, other) => other,
        (only, None) => only,
    }
}

impl<'a> Validation<'a> {
    /// Returns whether u and v meet here, and their batches are concurrent: they overlap.
    #[inline(always)]
    pub(crate) fn are_across(&self, u: Txn, v: Txn) -> bool
        requires left { IsAt self.now.asked u.0 }
        requires right { IsAt self.now.asked v.0 }
        ensures { result ≡ there self.now.asked is_across u.0 v.0 }
    {
        u != v && self.asked.register.batches.overlap(u, v)
    }

    /// Returns whether two transactions are of one batch: both have the node on their paths, and their batches start at one position.
    pub(crate) fn are_one_batch(&self, b: Txn, c: Txn) -> bool
        requires begun_b { HasBegun self.now.asked b.0 }
        requires begun_c { HasBegun self.now.asked c.0 }
        ensures { result ≡ there self.now.asked one_batch b.0 c.0 }
    {
        let batches = &self.asked.register.batches;
        let Some(start) = batches.start_of(b) else {
            return false;
        };
        let Some(other) = batches.start_of(c) else {
            return false;
        };
        start == other
    }

    /// Returns the least of some at stake that are across from u.
    #[inline(always)]
    pub(crate) fn first_across(&self, u: Txn, among: &[Txn]) -> Option<Txn>
        requires here { IsAt self.now.asked u.0 }
        requires ascending { IsAscendingBy number_of among.now }
        requires among_here { AreAt self.now among.now }
        ensures { IsLeast (at self.now IsAcross u.0 among.now) result }
    {
        for v in among {
            if is_at_stake(self.asked.facts.history, self.t, *v) && self.are_across(u, *v) {
                return Some(*v);
            }
        }
        None
    }

    /// Returns the least transaction to which t has an edge, the least one that has an edge to t, and whether edges of others may go on from t's.
    pub(crate) fn own_edges(&self) -> Own
        ensures { AreOwn self.now result }
    {
        let recent = self.asked.recent(self.t);
        let mut ahead = None;
        let mut behind = None;
        let mut left = false;
        let mut entered = false;
        for access in self.asked.accesses(self.t) {
            match access {
                Access::Read { writers } => {
                    let (first, is_left) = self.heads_among(recent.among(writers));
                    ahead = lesser(ahead, first);
                    left |= is_left;
                }
                Access::Put { readers } => {
                    let (first, is_entered) = self.tails_among(recent.among(readers));
                    behind = lesser(behind, first);
                    entered |= is_entered;
                }
            }
        }
        Own {
            ahead,
            behind,
            left,
            entered,
        }
    }

    /// Returns the least transaction to which c, which is at stake, has an edge.
    pub(crate) fn least_ahead(&self, c: Txn) -> Option<Txn>
        requires here { IsAt self.now.asked c.0 }
        requires stake { IsAtStake self.now c.0 }
        ensures { IsLeast (at self.now Leads c.0) result }
    {
        let recent = self.asked.recent(c);
        let mut least = None;
        for access in self.asked.accesses(c) {
            if let Access::Read { writers } = access {
                least = lesser(least, self.first_across(c, recent.among(writers)));
            }
        }
        least
    }

    /// Returns the least one that has an edge to b, which is at stake.
    pub(crate) fn least_behind(&self, b: Txn) -> Option<Txn>
        requires here { IsAt self.now.asked b.0 }
        requires stake { IsAtStake self.now b.0 }
        ensures { IsLeast (λ a. at self.now Leads a b.0) result }
    {
        let recent = self.asked.recent(b);
        let mut least = None;
        for access in self.asked.accesses(b) {
            if let Access::Put { readers } = access {
                least = lesser(least, self.first_across(b, recent.among(readers)));
            }
        }
        least
    }
}
