//! The stop of a Commit: validation, the gates, and those that the transaction read from, along its path.

ghost use Rattle.std.specs.Prelude.{◌≡◌, ◌<◌, IsTrue, length};
ghost use Rattle.teb_rules.specs.history.Phases.{unfinished};
ghost use Rattle.teb_rules.specs.Stops.{on_commit, commit_stop, stop_of};
ghost use Rattle.teb_rules.specs.Accepted.{IsSound};
ghost use Rattle.teb_rules.specs.laws.Lawful.{Lawful};
ghost use Rattle.store_setup.specs.tree.Grown.{node_numbers};
ghost use Rattle.phase_api.specs.Calls.{IsHere};
ghost use Rattle.phase_api.specs.Standing.{StandAll};
ghost use Rattle.phase_api.specs.FactsView.{setup_of, events_of};
ghost use Rattle.dependency_book.specs.Books.{BookOf};
ghost use Rattle.commit_gate.specs.Asked.{IsAsked};
ghost use Rattle.commit_gate.specs.Ways.{IsWay, first_wait};

use crate::sources::unfinished_source;
use dependency_book::Book;
use phase_api::{Control, Facts};
use teb_rules::names::{Node, Txn};
use teb_rules::{Stop, Verdict};

/// Returns the stop of a Commit of t: at each node of its path, from the root, validation, and then a wait for the lowest-numbered
/// transaction that the gate names, or that is unfinished, meets t there, and was read from by t. The first node that breaks or waits
/// stops it.
pub fn may_commit<K: Control>(controls: &[K], book: &Book, facts: &Facts, t: Txn) -> Stop
    requires tree { IsSound (setup_of facts.now) }
    requires lawful { Lawful (setup_of facts.now) (events_of facts.now) }
    requires controls { StandAll K.node_number K.stands controls.now (setup_of facts.now) (events_of facts.now) }
    requires book { BookOf book.now.lists (events_of facts.now) }
    requires unfinished { IsTrue (unfinished (events_of facts.now) t.0) }
    ensures { result ≡ commit_stop (setup_of facts.now) (events_of facts.now) t.0 }
{
    match facts.spot(t) {
        Some(spot) => stop_along(facts.tree.path(spot), controls, book.read_from(t), facts, t),
        None => unreachable!(),
    }
}

// Returns the stop along the nodes of a way down, of a transaction that read from the sources.
fn stop_along<K: Control>(
    way: &[Node],
    controls: &[K],
    sources: &[Txn],
    facts: &Facts,
    t: Txn,
) -> Stop
    requires asked { IsAsked K.node_number K.stands controls.now sources.now facts.now t.0 }
    requires way { IsWay facts.now t.0 (node_numbers way.now) }
    ensures { result ≡ stop_of (on_commit (setup_of facts.now) (events_of facts.now) t.0) (node_numbers way.now) }
{
    for n in way {
        match verdict_at(controls, sources, facts, *n, t) {
            Verdict::Go => {}
            Verdict::Wait(who) => return Stop::Wait { who, node: *n },
            Verdict::Break(broken) => return Stop::Break { node: *n, broken },
        }
    }
    Stop::Go
}

// Returns the verdict of one node of t's path.
fn verdict_at<K: Control>(
    controls: &[K],
    sources: &[Txn],
    facts: &Facts,
    n: Node,
    t: Txn,
) -> Verdict
    requires asked { IsAsked K.node_number K.stands controls.now sources.now facts.now t.0 }
    requires node { n.0 < length facts.now.tree.now.rows }
    requires here { IsHere facts.now n.0 t.0 }
    ensures { result ≡ on_commit (setup_of facts.now) (events_of facts.now) t.0 n.0 }
{
    let control = control_at(controls, facts, n);
    match control.validate(facts, t) {
        Verdict::Go => first_of(
            control.gate(facts, t),
            unfinished_source(sources, facts, n, t),
        ),
        stopped => stopped,
    }
}

// Returns the control of a node.
fn control_at<'a, K: Control>(controls: &'a [K], facts: &Facts, n: Node) -> &'a K
    requires controls { StandAll K.node_number K.stands controls.now (setup_of facts.now) (events_of facts.now) }
    requires node { n.0 < length facts.now.tree.now.rows }
    ensures node_number { K.node_number result.now ≡ n.0 }
    ensures stands { K.stands result.now (setup_of facts.now) (events_of facts.now) }
{
    &controls[usize::from(n.0)]
}

// Returns the wait for the lower-numbered of the transaction that the gate names and a source.
fn first_of(gate: Verdict, source: Option<Txn>) -> Verdict
    ensures { result ≡ first_wait gate source }
{
    match (gate, source) {
        (Verdict::Wait(u), Some(w)) => Verdict::Wait(if u.0 < w.0 { u } else { w }),
        (Verdict::Go, Some(w)) => Verdict::Wait(w),
        _ => gate,
    }
}
