//! Noting an event in the versions and the cursors.

ghost use Rattle.std.specs.Prelude.{◌≡◌, ◌<◌, ◌≤◌, ◌+◌, ◌∷◌, List};
ghost use Rattle.teb_rules.specs.declared.history.Event.{Event};
ghost use Rattle.teb_rules.specs.Setup.{Setup};
ghost use Rattle.teb_rules.specs.laws.TreeFacts.{TreeFacts};
ghost use Rattle.teb_rules.specs.laws.Lawful.{Lawful};
ghost use Rattle.teb_rules.specs.history.Phases.{kind_of};
ghost use Rattle.teb_rules.specs.Setup.{profile};
ghost use Rattle.phase_api.specs.FactsView.{setup_of, events_of};
ghost use Rattle.phase_api.specs.Versions.{HoldsVersions};
ghost use Rattle.cursor_book.specs.Cursors.{CursorsOf, moved};
ghost use Rattle.engine_core.specs.Keeping.{HasPlace, PutsAt};
ghost use Rattle.engine_core.specs.Appends.{AreBehind, HasCursor};

use candidate_reads::Place;
use cursor_book::Cursors;
use phase_api::Facts;
use teb_rules::history::Event;
use teb_rules::names::{Cell, Txn};
use version_chain::Chains;

/// Notes the newest event in the versions: a Put gives its transaction's version the value, at the place, and an abort removes all
/// versions of its transaction.
#[inline(always)]
pub fn keep_versions<C: Chains>(chains: &mut C, event: Event, place: Place)
    requires room { 0 < C.spare chains.old }
    requires place { HasPlace (C.lists chains.old) event place }
    ensures spare { C.spare chains.old ≤ C.spare chains.new + 1 }
    ensures versions { (S : Setup) (P : List Event) → TreeFacts S → Lawful S (event ∷ P) → HoldsVersions S P (C.lists chains.old) → PutsAt S P (C.lists chains.old) event place
        → HoldsVersions S (event ∷ P) (C.lists chains.new) }
{
    match event {
        Event::Put { txn, cell, value } => {
            if place.is_there {
                chains.overwrite(cell, place.at, value);
            } else {
                chains.place(cell, place.at, txn, value);
            }
        }
        Event::Gone { txn, .. } => chains.remove_all_of(txn),
        _ => {}
    }
}

/// Notes the newest event in the cursors: a transaction that begins is at step 0, and an access moves its transaction.
#[inline(always)]
pub fn keep_cursors(cursors: &mut Cursors, facts: &Facts, event: Event)
    requires { AreBehind (setup_of facts.now) (events_of facts.now) event cursors.old }
    ensures spare { cursors.old.spare ≤ cursors.new.spare + 1 }
    ensures cursors { CursorsOf cursors.new.cursors (setup_of facts.now) (events_of facts.now) }
{
    match event {
        Event::Began { .. } => cursors.begin(),
        Event::Got { txn, cell, .. } | Event::Put { txn, cell, .. } => {
            move_cursor(cursors, facts, txn, cell)
        }
        _ => {}
    }
}

/// An access of a cell moves a transaction that was unfinished before it.
#[inline(always)]
fn move_cursor(cursors: &mut Cursors, facts: &Facts, t: Txn, cell: Cell)
    requires { HasCursor facts.now cursors.old t.0 }
    ensures spare { cursors.new.spare ≡ cursors.old.spare }
    ensures cursors { cursors.new.cursors ≡ moved cursors.old.cursors t.0 (profile (setup_of facts.now) (kind_of (events_of facts.now) t.0)) cell.table.0 }
{
    let Some(spot) = facts.spot(t) else {
        unreachable!()
    };
    let profile = &facts.profiles[usize::from(spot.kind.0)];
    cursors.access(t, cell.table, profile);
}
