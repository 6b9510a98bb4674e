//! The control of a node, of whichever kind.

ghost use Rattle.std.specs.Prelude.{◌≡◌, ◌<◌, length, IfOk};
ghost use Rattle.phase_api.specs.FactsView.{setup_of, events_of};
ghost use Rattle.phase_api.specs.Standing.{StandAll};
ghost use Rattle.engine_core.specs.AnyControls.{any_node_number, any_stands};
ghost use Rattle.engine_core.specs.Starts.{IsAtStart};

use nexus_locks::Locks;
use phase_api::{Control, Facts};
use runtime_pipeline::Pipeline;
use snapshot_node::Snapshot;
use std::alloc::{AllocError, Global};
use teb_rules::Verdict;
use teb_rules::history::Event;
use teb_rules::names::{Cell, ControlKind, Node, Spot, Txn};
use timestamp_node::Stamps;
use version_chain::Chains;

/// The control of a node, of whichever kind.
#[derive(Drop)]
pub enum AnyControl {
    Locks(Locks),
    Pipeline(Pipeline),
    Timestamp(Stamps),
    Snapshot(Snapshot),
}

/// Returns a control for each node of the tree, for an empty history.
///
/// # Errors
/// `AllocError`: out of memory.
pub fn controls_of(alloc: Global, facts: &Facts) -> Result<Vec<AnyControl>, AllocError>
    requires { IsAtStart facts.now }
    ensures { IfOk result (λ v. StandAll any_node_number any_stands v.items (setup_of facts.now) (events_of facts.now)) }
{
    let mut controls = Vec::new(alloc);
    for n in 0..facts.tree.len() {
        controls.push(control_of(alloc, Node(n), facts)?)?;
    }
    Ok(controls)
}

fn control_of(alloc: Global, node: Node, facts: &Facts) -> Result<AnyControl, AllocError>
    requires node { node.0 < length (setup_of facts.now).tree }
    requires start { IsAtStart facts.now }
    ensures node_number { IfOk result (λ c. any_node_number c ≡ node.0) }
    ensures stands { IfOk result (λ c. any_stands c (setup_of facts.now) (events_of facts.now)) }
{
    match facts.tree.row(node).control {
        ControlKind::Locks => Ok(AnyControl::Locks(Locks::new(alloc, node, facts))),
        ControlKind::Pipeline => Ok(AnyControl::Pipeline(Pipeline::new(alloc, node, facts)?)),
        ControlKind::Timestamp => Ok(AnyControl::Timestamp(Stamps::new(alloc, node, facts)?)),
        ControlKind::Snapshot => Ok(AnyControl::Snapshot(Snapshot::new(alloc, node, facts)?)),
    }
}

impl Control for AnyControl {
    ghost use Rattle.engine_core.specs.AnyControls.{any_stands, any_node_number, any_spare, any_orderly};

    ghost stands = { any_stands };

    ghost node_number = { any_node_number };

    ghost spare = { any_spare };

    ghost sound = { any_orderly };

    fn node(&self) -> Node {
        match self {
            AnyControl::Locks(c) => c.node(),
            AnyControl::Pipeline(c) => c.node(),
            AnyControl::Timestamp(c) => c.node(),
            AnyControl::Snapshot(c) => c.node(),
        }
    }

    fn reserve(&mut self, n: usize) -> Result<(), AllocError> {
        match self {
            AnyControl::Locks(c) => c.reserve(n),
            AnyControl::Pipeline(c) => c.reserve(n),
            AnyControl::Timestamp(c) => c.reserve(n),
            AnyControl::Snapshot(c) => c.reserve(n),
        }
    }

    #[inline(always)]
    fn note(&mut self, facts: &Facts, e: Event) {
        match self {
            AnyControl::Locks(c) => c.note(facts, e),
            AnyControl::Pipeline(c) => c.note(facts, e),
            AnyControl::Timestamp(c) => c.note(facts, e),
            AnyControl::Snapshot(c) => c.note(facts, e),
        }
    }

    fn start(&self, facts: &Facts, s: Spot) -> Verdict {
        match self {
            AnyControl::Locks(c) => c.start(facts, s),
            AnyControl::Pipeline(c) => c.start(facts, s),
            AnyControl::Timestamp(c) => c.start(facts, s),
            AnyControl::Snapshot(c) => c.start(facts, s),
        }
    }

    #[inline(always)]
    fn before_read(&self, facts: &Facts, t: Txn, cell: Cell) -> Verdict {
        match self {
            AnyControl::Locks(c) => c.before_read(facts, t, cell),
            AnyControl::Pipeline(c) => c.before_read(facts, t, cell),
            AnyControl::Timestamp(c) => c.before_read(facts, t, cell),
            AnyControl::Snapshot(c) => c.before_read(facts, t, cell),
        }
    }

    fn before_write<C: Chains>(
        &self,
        facts: &Facts,
        chains: &C,
        at: Option<usize>,
        t: Txn,
        cell: Cell,
    ) -> Verdict {
        match self {
            AnyControl::Locks(c) => c.before_write(facts, chains, at, t, cell),
            AnyControl::Pipeline(c) => c.before_write(facts, chains, at, t, cell),
            AnyControl::Timestamp(c) => c.before_write(facts, chains, at, t, cell),
            AnyControl::Snapshot(c) => c.before_write(facts, chains, at, t, cell),
        }
    }

    fn sees(&self, facts: &Facts, reader: Txn, writer: Txn, cell: Cell) -> bool {
        match self {
            AnyControl::Locks(c) => c.sees(facts, reader, writer, cell),
            AnyControl::Pipeline(c) => c.sees(facts, reader, writer, cell),
            AnyControl::Timestamp(c) => c.sees(facts, reader, writer, cell),
            AnyControl::Snapshot(c) => c.sees(facts, reader, writer, cell),
        }
    }

    fn orders(&self, facts: &Facts, u: Txn, w: Txn, cell: Cell) -> bool {
        match self {
            AnyControl::Locks(c) => c.orders(facts, u, w, cell),
            AnyControl::Pipeline(c) => c.orders(facts, u, w, cell),
            AnyControl::Timestamp(c) => c.orders(facts, u, w, cell),
            AnyControl::Snapshot(c) => c.orders(facts, u, w, cell),
        }
    }

    fn validate(&self, facts: &Facts, t: Txn) -> Verdict {
        match self {
            AnyControl::Locks(c) => c.validate(facts, t),
            AnyControl::Pipeline(c) => c.validate(facts, t),
            AnyControl::Timestamp(c) => c.validate(facts, t),
            AnyControl::Snapshot(c) => c.validate(facts, t),
        }
    }

    fn gate(&self, facts: &Facts, t: Txn) -> Verdict {
        match self {
            AnyControl::Locks(c) => c.gate(facts, t),
            AnyControl::Pipeline(c) => c.gate(facts, t),
            AnyControl::Timestamp(c) => c.gate(facts, t),
            AnyControl::Snapshot(c) => c.gate(facts, t),
        }
    }
}
