//! The place of a transaction's version.

ghost use Rattle.std.specs.Prelude.{◌≡◌, ◌≤◌, slice_get, Some, IfSome, IsTrue, IsFalse};
ghost use Rattle.std.specs.Option.{option_map};
ghost use Rattle.teb_rules.specs.history.Phases.{aborted};
ghost use Rattle.teb_rules.specs.Versions.{precedes};
ghost use Rattle.teb_rules.specs.laws.TreeFacts.{TreeFacts};
ghost use Rattle.teb_rules.specs.laws.Lawful.{Lawful};
ghost use Rattle.version_chain.specs.Lists.{writers_of, is_writer, own_or_last};
ghost use Rattle.phase_api.specs.FactsView.{setup_of, events_of, IsTyped};
ghost use Rattle.phase_api.specs.Calls.{Writes};
ghost use Rattle.phase_api.specs.Versions.{HoldsVersions, IsPlaceOf, has_version};
ghost use Rattle.phase_api.specs.Standing.{StandAll};
ghost use Rattle.candidate_reads.specs.Asked.{AreAsked, MayPut, MeetsNoTimestamp};
ghost use Rattle.candidate_reads.specs.Places.{place_from};

use crate::node_control::control_between;
use phase_api::{Control, Facts};
use teb_rules::names::{Cell, ControlKind, Txn};
use version_chain::{Chains, Found};

/// A place in the chain of a cell for the version of a transaction.
#[derive(Clone, Copy)]
pub struct Place {
    pub at: usize,
    /// Whether the version is there, and not another one or none.
    pub is_there: bool,
}

impl Place {
    /// The place at the front of a chain, for a version that is not there.
    pub const FRONT: Place = Place {
        at: 0,
        is_there: false,
    };
}

/// Returns the place of t's version of a cell among the versions that exist, in version order: its present place, or the one that it
/// gets once t puts the cell. The starting row is not counted.
pub fn place_of<K: Control, C: Chains>(
    controls: &[K],
    chains: &C,
    facts: &Facts,
    t: Txn,
    cell: Cell,
) -> Place
    requires tree { TreeFacts (setup_of facts.now) }
    requires lawful { Lawful (setup_of facts.now) (events_of facts.now) }
    requires controls { StandAll K.node_number K.stands controls.now (setup_of facts.now) (events_of facts.now) }
    requires chains { HoldsVersions (setup_of facts.now) (events_of facts.now) (C.lists chains.now) }
    requires typed { IsTyped facts.now t.0 }
    requires kept { IsFalse (aborted (events_of facts.now) t.0) }
    requires writes { Writes (events_of facts.now) t.0 cell }
    ensures place { IsPlaceOf (setup_of facts.now) (events_of facts.now) cell t.0 result.at (writers_of (C.lists chains.now cell)) }
    ensures own { IsTrue (is_writer (C.lists chains.now cell) t.0) → slice_get (writers_of (C.lists chains.now cell)) result.at ≡ Some t.0 }
    ensures there { result.is_there ≡ is_writer (C.lists chains.now cell) t.0 }
{
    let found = own_or_before(controls, chains, facts, t, cell);
    place_from(found, t, facts.history.begun())
}

/// Returns the place of t's version of a cell if no timestamp node is on t's path: its present place, or else the end of the chain.
pub fn place_behind<C: Chains>(chains: &C, facts: &Facts, t: Txn, cell: Cell) -> Place
    requires tree { TreeFacts (setup_of facts.now) }
    requires lawful { Lawful (setup_of facts.now) (events_of facts.now) }
    requires chains { HoldsVersions (setup_of facts.now) (events_of facts.now) (C.lists chains.now) }
    requires typed { IsTyped facts.now t.0 }
    requires kept { IsFalse (aborted (events_of facts.now) t.0) }
    requires writes { Writes (events_of facts.now) t.0 cell }
    requires path { MeetsNoTimestamp (setup_of facts.now) (events_of facts.now) t.0 }
    ensures place { IsPlaceOf (setup_of facts.now) (events_of facts.now) cell t.0 result.at (writers_of (C.lists chains.now cell)) }
    ensures own { IsTrue (is_writer (C.lists chains.now cell) t.0) → slice_get (writers_of (C.lists chains.now cell)) result.at ≡ Some t.0 }
    ensures there { result.is_there ≡ is_writer (C.lists chains.now cell) t.0 }
{
    let found = chains.own_or_last(cell, t, &|_w: Txn| true);
    place_from(found, t, facts.history.begun())
}

// Returns the place of t's version: that of the version found, if it is t's, or else the one after it. A cell has at most one
// version of each transaction that has begun.
#[inline(always)]
fn place_from(found: Option<Found>, t: Txn, _begun: u32) -> Place
    requires { IfSome found (λ v. v.at ≤ _begun) }
    ensures { result ≡ place_from found t.0 }
{
    match found {
        Some(found) if found.writer == t => Place {
            at: found.at,
            is_there: true,
        },
        Some(found) => Place {
            at: found.at + 1,
            is_there: false,
        },
        None => Place::FRONT,
    }
}

// Returns the version of t, or else the last one that is before the one that t is about to put.
fn own_or_before<K: Control, C: Chains>(
    controls: &[K],
    chains: &C,
    facts: &Facts,
    t: Txn,
    cell: Cell,
) -> Option<Found>
    requires asked { AreAsked K.node_number K.stands controls.now facts.now }
    requires chains { HoldsVersions (setup_of facts.now) (events_of facts.now) (C.lists chains.now) }
    requires typed { IsTyped facts.now t.0 }
    requires kept { IsFalse (aborted (events_of facts.now) t.0) }
    requires writes { Writes (events_of facts.now) t.0 cell }
    ensures place { option_map (λ v. v.at) result ≡ own_or_last t.0 (λ w. precedes (setup_of facts.now) (events_of facts.now) cell w t.0) (writers_of (C.lists chains.now cell)) }
    ensures version { IfSome result (λ v. slice_get (C.lists chains.now cell) v.at ≡ Some (v.writer, v.value)) }
{
    chains.own_or_last(cell, t, &|w: Txn| is_before(controls, facts, w, t, cell))
}

// Returns whether the version of w is before the one that t is about to put. Its cost does not depend on what w has done.
fn is_before<K: Control>(controls: &[K], facts: &Facts, w: Txn, t: Txn, cell: Cell) -> bool
    requires asked { AreAsked K.node_number K.stands controls.now facts.now }
    requires put { MayPut facts.now t.0 cell }
    requires version { IsTrue (has_version (events_of facts.now) cell w.0) }
    ensures { result ≡ precedes (setup_of facts.now) (events_of facts.now) cell w.0 t.0 }
{
    let control = control_between(controls, facts, w, t);
    match facts.tree.row(control.node()).control {
        ControlKind::Timestamp => control.orders(facts, w, t, cell),
        // A version that is about to be put is later than all others.
        _ => true,
    }
}
