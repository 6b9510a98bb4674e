//! The control of a snapshot node.

ghost use Rattle.std.specs.Prelude.{◌≡◌, [], IfOk};
ghost use Rattle.teb_rules.specs.declared.names.ControlKind.TheVariants.{Snapshot as IsSnapshot};
ghost use Rattle.teb_rules.specs.declared.history.Event.{Event};
ghost use Rattle.teb_rules.specs.Tree.{row};
ghost use Rattle.phase_api.specs.FactsView.{setup_of, events_of};
ghost use Rattle.snapshot_node.specs.Standing.{committed_in};
ghost use Rattle.snapshot_node.specs.Controls.{SnapshotStandsFor, snapshot_node_number};

use crate::asked::Asked;
use crate::marking::{mark_edges, validated};
use crate::marks::{Mark, NO_MARK};
use crate::register::Register;
use crate::validation::Validation;
use access_conflicts::wait_for;
use batch_book::Batches;
use phase_api::{Control, Facts};
use std::alloc::{AllocError, Global};
use teb_rules::history::Event;
use teb_rules::names::{Cell, Node, Spot, Txn};
use teb_rules::vectors::make_wide_room;
use teb_rules::{Broken, Verdict};
use version_chain::Chains;

/// The snapshot control of a node.
#[derive(Drop)]
pub struct Snapshot {
    pub(crate) register: Register,
    // For each event the mark of its place: of the batch that starts there, if one does, and of the transaction of that place.
    pub(crate) marks: Vec<Mark>,
}

impl Snapshot {
    /// Returns the control of a snapshot node for an empty history. Takes no memory.
    ///
    /// # Errors
    /// No error is returned, since it takes no memory.
    pub fn new(alloc: Global, node: Node, facts: &Facts) -> Result<Self, AllocError>
        requires kind { (row (setup_of facts.now).tree node.0).control ≡ IsSnapshot }
        requires empty { events_of facts.now ≡ [] }
        ensures node { IfOk result (λ c. c.register.node ≡ node) }
        ensures stands { IfOk result (λ c. SnapshotStandsFor c (setup_of facts.now) (events_of facts.now)) }
    {
        Ok(Snapshot {
            register: Register::new(alloc, node, facts)?,
            marks: Vec::new(alloc),
        })
    }

    /// Returns the committed transactions with the node on their paths that have put a cell, in ascending number, each once.
    pub fn committed(&self, _facts: &Facts, cell: Cell) -> &[Txn]
        requires { SnapshotStandsFor self.now (setup_of _facts.now) (events_of _facts.now) }
        ensures { result.now ≡ committed_in (setup_of _facts.now) (events_of _facts.now) (snapshot_node_number self.now) cell }
    {
        self.register.accesses.committed(cell)
    }

    /// Returns the batches of its node.
    pub fn batches(&self) -> &Batches
        ensures { result.now ≡ self.now.register.batches }
    {
        &self.register.batches
    }
}

impl Control for Snapshot {
    ghost use Rattle.snapshot_node.specs.Controls.{snapshot_spare};

    ghost stands = { SnapshotStandsFor };

    ghost node_number = { snapshot_node_number };

    ghost spare = { snapshot_spare };

    ghost sound = { λ c S H s. s.register.orderly };

    fn node(&self) -> Node {
        self.register.node
    }

    fn reserve(&mut self, n: usize) -> Result<(), AllocError> {
        self.register.reserve(n)?;
        make_wide_room(&mut self.marks, n)
    }

    #[inline(always)]
    fn note(&mut self, facts: &Facts, e: Event) {
        self.register.note(facts, e);
        let _ = self.marks.push(NO_MARK);
        if let Some(t) = validated(e) {
            if self.register.batches.has(t) {
                let asked = Asked {
                    register: &self.register,
                    facts,
                };
                mark_edges(&mut self.marks, &asked, t);
            }
        }
    }

    fn start(&self, facts: &Facts, s: Spot) -> Verdict {
        match facts.tree.side(self.register.node, s) {
            Some(child) => wait_for(self.register.batches.full(u32::from(child.0))),
            None => Verdict::Go,
        }
    }

    fn before_read(&self, _facts: &Facts, _t: Txn, _cell: Cell) -> Verdict {
        Verdict::Go
    }

    fn before_write<C: Chains>(
        &self,
        facts: &Facts,
        _chains: &C,
        _at: Option<usize>,
        t: Txn,
        cell: Cell,
    ) -> Verdict {
        let asked = Asked {
            register: &self.register,
            facts,
        };
        let recent = asked.recent(t);
        let among = recent.among(asked.writers(cell));
        match asked.first_writer(t, among) {
            Some(writer) => Verdict::Break(Broken::First { writer, cell }),
            None => wait_for(asked.blocker(t, among)),
        }
    }

    fn sees(&self, facts: &Facts, reader: Txn, writer: Txn, _cell: Cell) -> bool {
        let asked = Asked {
            register: &self.register,
            facts,
        };
        asked.is_closed_before(writer, reader)
    }

    fn orders(&self, facts: &Facts, u: Txn, w: Txn, cell: Cell) -> bool {
        facts.history.put_at(u, cell) < facts.history.put_at(w, cell)
    }

    fn validate(&self, facts: &Facts, t: Txn) -> Verdict {
        let asked = Asked {
            register: &self.register,
            facts,
        };
        let validation = Validation {
            asked,
            t,
            marks: &self.marks,
        };
        match validation.least_pivot() {
            Some(pivot) => Verdict::Break(pivot),
            None => Verdict::Go,
        }
    }

    fn gate(&self, _facts: &Facts, _t: Txn) -> Verdict {
        Verdict::Go
    }
}
