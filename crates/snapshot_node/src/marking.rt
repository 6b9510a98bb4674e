//! The marks at the edges of a transaction that was validated.

ghost use Rattle.std.specs.Prelude.{◌≡◌, ◌≤◌, ℕ, IsTrue, length};
ghost use Rattle.teb_rules.specs.laws.Lawful.{Lawful};
ghost use Rattle.phase_api.specs.FactsView.{setup_of};
ghost use Rattle.snapshot_node.specs.Asking.{IsAt, AreThere, IsGranted, history, there};
ghost use Rattle.snapshot_node.specs.Marks.{validated_txn, HaveGrown, IsTold, Touches};
ghost use Rattle.snapshot_node.specs.Pivots.{is_at_stake, is_across, IsAcross};

use crate::asked::Asked;
use crate::marks::{Mark, mark_edge, mark_ends, place_of};
use crate::neighbours::is_at_stake;
use access_book::Access;
use teb_rules::history::Event;
use teb_rules::names::Txn;

/// Returns the transaction that an event shows to be validated.
pub(crate) fn validated(e: Event) -> Option<Txn>
    ensures { result ≡ validated_txn e }
{
    match e {
        Event::Ready(t) | Event::Done(t) => Some(t),
        _ => None,
    }
}

/// Marks both ends of each edge, and their batches, between t and one that is prepared or committed.
pub(crate) fn mark_edges(marks: &mut [Mark], asked: &Asked, t: Txn)
    requires here { IsAt asked.now t.0 }
    requires long { length (history asked.now) ≤ length marks.old }
    ensures grown { HaveGrown marks.old marks.new }
    ensures ahead { IsGranted asked.now t.0 → (u : ℕ) → IsTrue (is_at_stake (history asked.now) t.0 u) → there asked.now Touches t.0 u → there asked.now IsTold marks.new t.0 u }
    ensures behind { IsGranted asked.now t.0 → (u : ℕ) → IsTrue (is_at_stake (history asked.now) t.0 u) → there asked.now Touches u t.0 → there asked.now IsTold marks.new u t.0 }
{
    let recent = asked.recent(t);
    for access in asked.accesses(t) {
        match access {
            Access::Read { writers } => mark_ahead(marks, asked, t, recent.among(writers)),
            Access::Put { readers } => mark_behind(marks, asked, t, recent.among(readers)),
        }
    }
}

// Marks edges from t to some.
fn mark_ahead(marks: &mut [Mark], asked: &Asked, t: Txn, among: &[Txn])
    requires here { IsAt asked.now t.0 }
    requires long { length (history asked.now) ≤ length marks.old }
    requires among_here { AreThere asked.now among.now }
    ensures grown { HaveGrown marks.old marks.new }
    ensures told { Lawful (setup_of asked.now.facts.now) (history asked.now) → (u : ℕ) → there asked.now IsAcross t.0 t.0 among.now u → there asked.now IsTold marks.new t.0 u }
{
    for u in among {
        if may_be_across(asked, t, *u) {
            mark_pair(marks, asked, t, *u);
        }
    }
}

// Marks edges from some to t.
fn mark_behind(marks: &mut [Mark], asked: &Asked, t: Txn, among: &[Txn])
    requires here { IsAt asked.now t.0 }
    requires long { length (history asked.now) ≤ length marks.old }
    requires among_here { AreThere asked.now among.now }
    ensures grown { HaveGrown marks.old marks.new }
    ensures told { Lawful (setup_of asked.now.facts.now) (history asked.now) → (u : ℕ) → there asked.now IsAcross t.0 t.0 among.now u → there asked.now IsTold marks.new u t.0 }
{
    for u in among {
        if may_be_across(asked, t, *u) {
            mark_pair(marks, asked, *u, t);
        }
    }
}

// Marks an edge from u to w.
fn mark_pair(marks: &mut [Mark], asked: &Asked, u: Txn, w: Txn)
    requires tail { IsAt asked.now u.0 }
    requires head { IsAt asked.now w.0 }
    requires long { length (history asked.now) ≤ length marks.old }
    ensures grown { HaveGrown marks.old marks.new }
    ensures told { there asked.now IsTold marks.new u.0 w.0 }
{
    let batches = &asked.register.batches;
    mark_edge(marks, batches.start(u), batches.start(w));
    mark_ends(marks, place_of(u), place_of(w));
}

// Returns whether u was at stake when t was validated, and their batches overlap: if the rules granted each event, that is whether
// it is across from t.
#[inline(always)]
fn may_be_across(asked: &Asked, t: Txn, u: Txn) -> bool
    requires left { IsAt asked.now t.0 }
    requires right { IsAt asked.now u.0 }
    ensures { Lawful (setup_of asked.now.facts.now) (history asked.now) → IsTrue (is_at_stake (history asked.now) t.0 u.0) → IsTrue (there asked.now is_across t.0 u.0) → IsTrue result }
{
    t != u && asked.register.batches.overlap(t, u) && is_at_stake(asked.facts.history, t, u)
}
