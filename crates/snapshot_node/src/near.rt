//! Whether a transaction may be in a pivot, by its own edges and by the marks of batches.

ghost use Rattle.std.specs.Prelude.{◌≡◌, ℕ, IsTrue, IsFalse, get_or};
ghost use Rattle.teb_rules.specs.history.Ascending.{IsAscendingBy};
ghost use Rattle.teb_rules.specs.history.Live.{number_of};
ghost use Rattle.teb_rules.specs.Batches.{start};
ghost use Rattle.snapshot_node.specs.Asking.{IsAt, there};
ghost use Rattle.snapshot_node.specs.Marks.{no_mark};
ghost use Rattle.snapshot_node.specs.Pivots.{IsAcross, IsFirst, IsLeast};
ghost use Rattle.snapshot_node.specs.Validating.{AreAt, AreOwn, at, is_marked_entered, is_marked_left};

use crate::marks::{Mark, mark_at};
use crate::neighbours::is_at_stake;
use crate::validation::{Own, Validation};
use teb_rules::names::Txn;

impl<'a> Validation<'a> {
    /// Returns whether t may be in a pivot, by its own edges. With edges of both kinds it may. With edges of one kind only, an edge of others
    /// has to enter or to leave the batch of t, or of one at the other end.
    pub(crate) fn is_near(&self, own: Own) -> bool
        requires { AreOwn self.now own }
        ensures { IsFalse result → (a : ℕ) → at self.now IsFirst a → ⊥ }
    {
        match (own.ahead, own.behind) {
            (Some(_), Some(_)) => true,
            (Some(_), None) => self.mark_of(self.t).entered || own.left,
            (None, Some(_)) => self.mark_of(self.t).left || own.entered,
            (None, None) => false,
        }
    }

    /// Returns the mark of u's batch.
    pub(crate) fn mark_of(&self, u: Txn) -> Mark
        requires { IsAt self.now.asked u.0 }
        ensures { result ≡ get_or self.now.marks.now (there self.now.asked start u.0) no_mark }
    {
        mark_at(self.marks, self.asked.register.batches.start(u))
    }

    /// Returns the least of some at stake that are across from t, and whether one of them is of a batch that is known to be left.
    #[inline(always)]
    pub(crate) fn heads_among(&self, among: &[Txn]) -> (Option<Txn>, bool)
        requires ascending { IsAscendingBy number_of among.now }
        requires among_here { AreAt self.now among.now }
        ensures least { IsLeast (at self.now IsAcross self.now.t.0 among.now) result.0 }
        ensures left { IsFalse result.1 → (b : ℕ) → at self.now IsAcross self.now.t.0 among.now b → IsTrue (is_marked_left self.now b) → ⊥ }
    {
        match self.first_across(self.t, among) {
            Some(first) => (Some(first), self.is_left_among(among)),
            None => (None, false),
        }
    }

    // Returns whether one of some at stake that are across from t is of a batch that is known to be left.
    fn is_left_among(&self, among: &[Txn]) -> bool
        requires { AreAt self.now among.now }
        ensures { IsFalse result → (b : ℕ) → at self.now IsAcross self.now.t.0 among.now b → IsTrue (is_marked_left self.now b) → ⊥ }
    {
        for b in among {
            if self.mark_of(*b).left
                && is_at_stake(self.asked.facts.history, self.t, *b)
                && self.are_across(self.t, *b)
            {
                return true;
            }
        }
        false
    }

    /// Returns the least of some at stake that are across from t, and whether one of them is of a batch that is known to be entered.
    #[inline(always)]
    pub(crate) fn tails_among(&self, among: &[Txn]) -> (Option<Txn>, bool)
        requires ascending { IsAscendingBy number_of among.now }
        requires among_here { AreAt self.now among.now }
        ensures least { IsLeast (at self.now IsAcross self.now.t.0 among.now) result.0 }
        ensures entered { IsFalse result.1 → (a : ℕ) → at self.now IsAcross self.now.t.0 among.now a → IsTrue (is_marked_entered self.now a) → ⊥ }
    {
        match self.first_across(self.t, among) {
            Some(first) => (Some(first), self.is_entered_among(among)),
            None => (None, false),
        }
    }

    // Returns whether one of some at stake that are across from t is of a batch that is known to be entered.
    fn is_entered_among(&self, among: &[Txn]) -> bool
        requires { AreAt self.now among.now }
        ensures { IsFalse result → (a : ℕ) → at self.now IsAcross self.now.t.0 among.now a → IsTrue (is_marked_entered self.now a) → ⊥ }
    {
        for a in among {
            if self.mark_of(*a).entered
                && is_at_stake(self.asked.facts.history, self.t, *a)
                && self.are_across(self.t, *a)
            {
                return true;
            }
        }
        false
    }
}
