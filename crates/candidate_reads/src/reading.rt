//! What a transaction reads.

ghost use Rattle.std.specs.Prelude.{◌≡◌, slice_get, Some, IfSome, IsTrue, IsFalse};
ghost use Rattle.std.specs.Option.{option_map};
ghost use Rattle.teb_rules.specs.history.Phases.{aborted};
ghost use Rattle.teb_rules.specs.Versions.{read, sees};
ghost use Rattle.teb_rules.specs.laws.TreeFacts.{TreeFacts};
ghost use Rattle.teb_rules.specs.laws.Lawful.{Lawful};
ghost use Rattle.version_chain.specs.Lists.{writers_of, own_or_last};
ghost use Rattle.phase_api.specs.FactsView.{setup_of, events_of, IsTyped};
ghost use Rattle.phase_api.specs.Versions.{HoldsVersions, has_version};
ghost use Rattle.phase_api.specs.Standing.{StandAll};
ghost use Rattle.candidate_reads.specs.Asked.{AreAsked, ReadsOthers};

use crate::node_control::control_between;
use phase_api::{Control, Facts};
use teb_rules::names::{Cell, Rows, Txn};
use version_chain::{Chains, Found};

/// Returns whose version of a cell t reads, and its value: its own, or else the last one that it sees, or else the starting row, whose
/// writer is 0. The value is `None` if there is no row.
pub fn read<K: Control, C: Chains>(
    controls: &[K],
    chains: &C,
    rows: &Rows,
    facts: &Facts,
    t: Txn,
    cell: Cell,
) -> (Txn, Option<i64>)
    requires tree { TreeFacts (setup_of facts.now) }
    requires lawful { Lawful (setup_of facts.now) (events_of facts.now) }
    requires controls { StandAll K.node_number K.stands controls.now (setup_of facts.now) (events_of facts.now) }
    requires chains { HoldsVersions (setup_of facts.now) (events_of facts.now) (C.lists chains.now) }
    requires typed { IsTyped facts.now t.0 }
    requires kept { IsFalse (aborted (events_of facts.now) t.0) }
    ensures source { result.0.0 ≡ (read (setup_of facts.now) rows.now (events_of facts.now) t.0 cell).0 }
    ensures value { result.1 ≡ (read (setup_of facts.now) rows.now (events_of facts.now) t.0 cell).1 }
{
    match own_or_seen(controls, chains, facts, t, cell) {
        Some(found) => (found.writer, found.value),
        None => (Txn(0), rows.get(cell)),
    }
}

// Returns the version of t, or else the last one that it sees. It looks at the versions from the last one down, so that a read
// costs those that t does not see.
fn own_or_seen<K: Control, C: Chains>(
    controls: &[K],
    chains: &C,
    facts: &Facts,
    t: Txn,
    cell: Cell,
) -> Option<Found>
    requires asked { AreAsked K.node_number K.stands controls.now facts.now }
    requires chains { HoldsVersions (setup_of facts.now) (events_of facts.now) (C.lists chains.now) }
    requires typed { IsTyped facts.now t.0 }
    requires kept { IsFalse (aborted (events_of facts.now) t.0) }
    ensures place { option_map (λ v. v.at) result ≡ own_or_last t.0 (sees (setup_of facts.now) (events_of facts.now) cell t.0) (writers_of (C.lists chains.now cell)) }
    ensures version { IfSome result (λ v. slice_get (C.lists chains.now cell) v.at ≡ Some (v.writer, v.value)) }
{
    chains.own_or_last(cell, t, &|w: Txn| is_seen(controls, facts, t, w, cell))
}

// Returns whether t sees the version of the writer w. The node at which the two meet tells it.
fn is_seen<K: Control>(controls: &[K], facts: &Facts, t: Txn, w: Txn, cell: Cell) -> bool
    requires asked { AreAsked K.node_number K.stands controls.now facts.now }
    requires reads { ReadsOthers facts.now t.0 cell }
    requires version { IsTrue (has_version (events_of facts.now) cell w.0) }
    ensures { result ≡ sees (setup_of facts.now) (events_of facts.now) cell t.0 w.0 }
{
    control_between(controls, facts, t, w).sees(facts, t, w, cell)
}
