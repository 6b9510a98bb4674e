//! A transaction that validates at a snapshot control, and its own edges.

ghost use Rattle.std.specs.Prelude.{IsTrue};
ghost use Rattle.teb_rules.specs.history.Phases.{unfinished};
ghost use Rattle.teb_rules.specs.Accepted.{IsSound};
ghost use Rattle.teb_rules.specs.laws.Lawful.{Lawful};
ghost use Rattle.phase_api.specs.FactsView.{setup_of, events_of};
ghost use Rattle.phase_api.specs.Calls.{IsHere};
ghost use Rattle.snapshot_node.specs.Marks.{AreMarked};
ghost use Rattle.snapshot_node.specs.Props.{kept};

use crate::asked::Asked;
use crate::marks::Mark;
use teb_rules::names::Txn;

/// The control, with its marks of batches and transactions, is asked of a transaction that is unfinished there, and the history
/// is lawful.
#[derive(Clone, Copy)]
pub(crate) struct Validation<'a> {
    pub(crate) asked: Asked<'a>,
    pub(crate) t: Txn,
    pub(crate) marks: &'a [Mark],
    ghost tree: { IsSound (setup_of asked.facts.now) },
    ghost lawful: { Lawful (setup_of asked.facts.now) (events_of asked.facts.now) } by { Prim.hlevel kept },
    ghost here: { IsHere asked.facts.now asked.register.now.node.0 t.0 },
    ghost unfinished: { IsTrue (unfinished (events_of asked.facts.now) t.0) },
    ghost marked: { AreMarked (setup_of asked.facts.now) (events_of asked.facts.now) asked.register.now.node.0 marks.now } by { Prim.hlevel kept },
}

/// The least transaction to which the one that validates has an edge, and the least that has an edge to it; and whether it has one to a
/// transaction whose batch is known to be left, and one from a transaction whose batch is known to be entered.
#[derive(Clone, Copy)]
pub(crate) struct Own {
    pub(crate) ahead: Option<Txn>,
    pub(crate) behind: Option<Txn>,
    pub(crate) left: bool,
    pub(crate) entered: bool,
}
