//! The cascade: rounds over the unfinished transactions, until a round adds none.

ghost use Rattle.std.specs.Prelude.{◌≡◌, ◌≤◌, ◌||◌, eqb, find, length, IsTrue};
ghost use Rattle.teb_rules.specs.history.Phases.{unfinished};
ghost use Rattle.teb_rules.specs.Cascade.{cascade};
ghost use Rattle.phase_api.specs.FactsView.{events_of};
ghost use Rattle.dependency_book.specs.Books.{BookOf};
ghost use Rattle.abort_cascade.specs.Recoverable.{IsRecoverable};
ghost use Rattle.abort_cascade.specs.Rounds.{is_member, culprit, round_of, blames};

use crate::list::{CascadeList, MOST_FALLEN};
use dependency_book::Book;
use phase_api::Facts;
use teb_rules::names::Txn;

/// Returns the transactions that fall with t, in ascending number and without t: each that read from t or from one that falls, with the
/// least one that it read from and that is t or falls.
pub fn cascade(book: &Book, facts: &Facts, t: Txn) -> CascadeList
    requires book { BookOf book.now.lists (events_of facts.now) }
    requires unfinished { IsTrue (unfinished (events_of facts.now) t.0) }
    requires recoverable { IsRecoverable (events_of facts.now) }
    requires few { length (cascade (events_of facts.now) t.0) ≤ MOST_FALLEN }
    ensures { result ≡ blames (events_of facts.now) t.0 }
{
    let mut fell = CascadeList::new();
    loop {
        let next = round(book, t, &fell);
        if next.len() == fell.len() {
            return next;
        }
        fell = next;
    }
}

// Returns the unfinished transactions that read from t or from one that fell before, each with the least such.
fn round(book: &Book, t: Txn, fell: &CascadeList) -> CascadeList
    requires { length (round_of book.now.lists t.0 fell.now book.now.lists.unfinished) ≤ MOST_FALLEN }
    ensures { result ≡ round_of book.now.lists t.0 fell.now book.now.lists.unfinished }
{
    let mut next = CascadeList::new();
    for u in book.unfinished() {
        if let Some(w) = culprit(book, t, fell, *u) {
            next.push(*u, w);
        }
    }
    next
}

// Returns the least transaction that u, another one than t, read from and that is t or fell.
fn culprit(book: &Book, t: Txn, fell: &CascadeList, u: Txn) -> Option<Txn>
    ensures { result ≡ culprit book.now.lists t.0 fell.now u }
{
    if u == t {
        return None;
    }
    first_fallen(book.read_from(u), t, fell)
}

// Returns the first that is t or fell.
fn first_fallen(sources: &[Txn], t: Txn, fell: &CascadeList) -> Option<Txn>
    ensures { result ≡ find (λ w. eqb w.0 t.0 || is_member fell.now w.0) sources.now }
{
    sources
        .iter()
        .copied()
        .find(|w| *w == t || fell.contains(*w))
}
