//! Edges at all members of a batch: at members that are known to have one, and at the transaction that validates.

ghost use Rattle.std.specs.Prelude.{◌≡◌};
ghost use Rattle.snapshot_node.specs.Pivots.{IsLeast, IsLeastEdge, IsLeastEdgeAside, IsLeastEdgeFrom, IsLeastAside, Reaches, ReachesOne, is_mate, earlier_of};
ghost use Rattle.snapshot_node.specs.Asking.{HasBegun, IsAt};
ghost use Rattle.snapshot_node.specs.Validating.{at, AreOwn, may_lead, may_be_led_to};

use crate::marks::{mark_at, place_of};
use crate::neighbours::{is_at_stake, lesser};
use crate::validation::{Own, Validation};
use teb_rules::names::Txn;

/// Returns the one of two edges with the lesser tail, or the only one.
fn earlier(known: Option<(Txn, Txn)>, edge: (Txn, Txn)) -> Option<(Txn, Txn)>
    ensures { result ≡ earlier_of known edge }
{
    match known {
        Some(first) => Some(if edge.0 < first.0 { edge } else { first }),
        None => Some(edge),
    }
}

impl<'a> Validation<'a> {
    // Returns whether u is of b's batch, and at stake.
    fn is_mate(&self, b: Txn, u: Txn) -> bool
        requires begun_b { HasBegun self.now.asked b.0 }
        requires begun_u { HasBegun self.now.asked u.0 }
        ensures { result ≡ at self.now is_mate b.0 u.0 }
    {
        self.are_one_batch(b, u) && is_at_stake(self.asked.facts.history, self.t, u)
    }

    // Returns whether c is t, or known to have an edge.
    fn may_lead(&self, c: Txn) -> bool
        ensures { result ≡ may_lead self.now c.0 }
    {
        c == self.t || mark_at(self.marks, place_of(c)).ahead
    }

    // Returns whether b is t, or an edge is known to lead to it.
    fn may_be_led_to(&self, b: Txn) -> bool
        ensures { result ≡ may_be_led_to self.now b.0 }
    {
        b == self.t || mark_at(self.marks, place_of(b)).behind
    }

    /// Returns the least edge out of b's batch: of its least member that has one, to the least that it leads to.
    pub(crate) fn edge_out(&self, b: Txn, own: Own) -> Option<(Txn, Txn)>
        requires here { IsAt self.now.asked b.0 }
        requires own { AreOwn self.now own }
        ensures { at self.now IsLeastEdge b.0 result }
    {
        let known = self.edge_aside(b, own);
        if own.behind.is_none() {
            return known;
        }
        match self.least_mate_behind(b) {
            Some(c) => earlier(known, (c, self.t)),
            None => known,
        }
    }

    // Returns the same, but for edges of others to t, some of which it may leave out. If no edge is known to leave b's batch, t's are the
    // only others.
    fn edge_aside(&self, b: Txn, own: Own) -> Option<(Txn, Txn)>
        requires here { IsAt self.now.asked b.0 }
        requires own { AreOwn self.now own }
        ensures { at self.now IsLeastEdgeAside b.0 result }
    {
        if self.mark_of(b).left {
            return self.known_edge_out(b);
        }
        if !self.are_one_batch(b, self.t) {
            return None;
        }
        match own.ahead {
            Some(d) => Some((self.t, d)),
            None => None,
        }
    }

    // Returns the same by the members that are known to have an edge, and by t.
    fn known_edge_out(&self, b: Txn) -> Option<(Txn, Txn)>
        requires { IsAt self.now.asked b.0 }
        ensures { at self.now IsLeastEdgeFrom (may_lead self.now) b.0 result }
    {
        let first = self.asked.register.batches.horizon(b).0;
        for i in first - 1..self.asked.facts.history.begun() {
            let c = Txn(i + 1);
            if self.may_lead(c)
                && self.is_mate(b, c)
                && let Some(d) = self.least_ahead(c)
            {
                return Some((c, d));
            }
        }
        None
    }

    /// Returns the least one that has an edge to a member of c's batch.
    pub(crate) fn least_into(&self, c: Txn, own: Own) -> Option<Txn>
        requires here { IsAt self.now.asked c.0 }
        requires own { AreOwn self.now own }
        ensures { IsLeast (at self.now Reaches c.0) result }
    {
        let known = self.into_aside(c, own);
        if own.ahead.is_none() {
            return known;
        }
        match self.least_mate_ahead(c) {
            Some(_) => lesser(known, Some(self.t)),
            None => known,
        }
    }

    // Returns the same, but may leave t out. If no edge is known to lead into c's batch, those to t are the only others.
    fn into_aside(&self, c: Txn, own: Own) -> Option<Txn>
        requires here { IsAt self.now.asked c.0 }
        requires own { AreOwn self.now own }
        ensures { at self.now IsLeastAside c.0 result }
    {
        if self.mark_of(c).entered {
            return self.known_into(c);
        }
        if !self.are_one_batch(c, self.t) {
            return None;
        }
        own.behind
    }

    // Returns the same by the members that an edge is known to lead to, and by t.
    fn known_into(&self, c: Txn) -> Option<Txn>
        requires { IsAt self.now.asked c.0 }
        ensures { IsLeast (at self.now ReachesOne (may_be_led_to self.now) c.0) result }
    {
        let mut least = None;
        let first = self.asked.register.batches.horizon(c).0;
        for i in first - 1..self.asked.facts.history.begun() {
            let b = Txn(i + 1);
            if self.may_be_led_to(b) && self.is_mate(c, b) {
                least = lesser(least, self.least_behind(b));
            }
        }
        least
    }
}
