//! What a node shows to a reader.

ghost use Rattle.std.specs.Prelude.{◌≡◌, IsTrue, IsFalse};
ghost use Rattle.teb_rules.specs.history.Phases.{aborted};
ghost use Rattle.version_chain.specs.Lists.{writers_of, last_place};
ghost use Rattle.phase_api.specs.FactsView.{setup_of, events_of, IsTyped};
ghost use Rattle.phase_api.specs.Versions.{HoldsVersions, has_version};
ghost use Rattle.candidate_reads.specs.Shown.{shows, later};

use phase_api::{Control, Facts};
use teb_rules::names::{Cell, Txn};
use version_chain::Chains;

/// Returns the place of the last version that the leaf of t lets it see, among writers that meet t there; `None` if there is no such
/// version.
pub fn candidate<K: Control, C: Chains>(
    leaf: &K,
    chains: &C,
    facts: &Facts,
    t: Txn,
    cell: Cell,
) -> Option<usize>
    requires stands { K.stands leaf.now (setup_of facts.now) (events_of facts.now) }
    requires chains { HoldsVersions (setup_of facts.now) (events_of facts.now) (C.lists chains.now) }
    requires typed { IsTyped facts.now t.0 }
    requires kept { IsFalse (aborted (events_of facts.now) t.0) }
    ensures { result ≡ last_place (shows (setup_of facts.now) (events_of facts.now) (K.node_number leaf.now) cell t.0) (writers_of (C.lists chains.now cell)) }
{
    chains.last_where(cell, &|w: Txn| is_shown(leaf, facts, t, w, cell))
}

/// Returns the later of the candidate and the last version that a node lets t see, among writers that meet t there. A candidate that
/// the nodes above the leaf amend, up to the root, is the last version that t sees. Versions up to the candidate are not looked at.
pub fn amend<K: Control, C: Chains>(
    node: &K,
    chains: &C,
    facts: &Facts,
    t: Txn,
    cell: Cell,
    candidate: Option<usize>,
) -> Option<usize>
    requires stands { K.stands node.now (setup_of facts.now) (events_of facts.now) }
    requires chains { HoldsVersions (setup_of facts.now) (events_of facts.now) (C.lists chains.now) }
    requires typed { IsTyped facts.now t.0 }
    requires kept { IsFalse (aborted (events_of facts.now) t.0) }
    ensures { result ≡ later candidate (last_place (shows (setup_of facts.now) (events_of facts.now) (K.node_number node.now) cell t.0) (writers_of (C.lists chains.now cell))) }
{
    let above = candidate.map_or(0, |i| i.saturating_add(1));
    chains
        .last_where_from(cell, above, &|w: Txn| is_shown(node, facts, t, w, cell))
        .or(candidate)
}

// Returns whether t meets the writer w at a node, and sees its version there.
#[tactic(auto, using(crate::proofs::Shows::shows_met, crate::proofs::Shows::shows_not))]
fn is_shown<K: Control>(node: &K, facts: &Facts, t: Txn, w: Txn, cell: Cell) -> bool
    requires stands { K.stands node.now (setup_of facts.now) (events_of facts.now) }
    requires typed { IsTyped facts.now t.0 }
    requires kept { IsFalse (aborted (events_of facts.now) t.0) }
    requires version { IsTrue (has_version (events_of facts.now) cell w.0) }
    ensures { result ≡ shows (setup_of facts.now) (events_of facts.now) (K.node_number node.now) cell t.0 w.0 }
{
    facts.meet_at(node.node(), t, w) && node.sees(facts, t, w, cell)
}
