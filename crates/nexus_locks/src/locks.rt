//! The control of a locks node: a read waits for a transaction that has put the cell, and a write for one that has accessed it.

ghost use Rattle.std.specs.Prelude.{◌≡◌, [], find};
ghost use Rattle.teb_rules.specs.declared.names.ControlKind.TheVariants.{Locks as IsLocks};
ghost use Rattle.teb_rules.specs.history.Phases.{txns};
ghost use Rattle.teb_rules.specs.Tree.{row};
ghost use Rattle.teb_rules.specs.Controls.{blocks};
ghost use Rattle.phase_api.specs.FactsView.{setup_of, events_of};
ghost use Rattle.phase_api.specs.Calls.{IsHere};
ghost use Rattle.hold_book.specs.Holders.{holds_in};
ghost use Rattle.access_conflicts.specs.Waits.{some_txn};
ghost use Rattle.nexus_locks.specs.Standing.{LocksStand};

use access_conflicts::{HoldRegister, is_in_the_way, wait_for};
use hold_book::Hold;
use phase_api::{Control, Facts};
use std::alloc::{AllocError, Global};
use teb_rules::Verdict;
use teb_rules::history::Event;
use teb_rules::names::{Cell, Node, Spot, Txn};
use version_chain::Chains;

/// The locks control of a node.
#[derive(Drop)]
pub struct Locks {
    register: HoldRegister,
}

impl Locks {
    /// Returns the control of a locks node for an empty history. Takes no memory.
    pub fn new(alloc: Global, node: Node, _facts: &Facts) -> Self
        requires kind { (row (setup_of _facts.now).tree node.0).control ≡ IsLocks }
        requires empty { events_of _facts.now ≡ [] }
        ensures node { result.register.node ≡ node }
        ensures stands { LocksStand result.register (setup_of _facts.now) (events_of _facts.now) }
    {
        Locks {
            register: HoldRegister::new(alloc, node),
        }
    }

    /// Returns the holders of a cell: the unfinished transactions with the node on their paths that have accessed it, in ascending number.
    pub fn holds(&self, facts: &Facts, cell: Cell) -> &[Hold]
        requires { LocksStand self.now.register (setup_of facts.now) (events_of facts.now) }
        ensures { result.now ≡ holds_in (setup_of facts.now) (events_of facts.now) self.now.register.node.0 cell }
    {
        self.register.holds(facts, cell)
    }

    // Returns the least-numbered transaction that an access waits for.
    #[inline(always)]
    fn blocker(&self, facts: &Facts, t: Txn, cell: Cell, write: bool) -> Option<Txn>
        requires stands { LocksStand self.now.register (setup_of facts.now) (events_of facts.now) }
        requires here { IsHere facts.now self.now.register.node.0 t.0 }
        ensures { result ≡ some_txn (find (blocks (setup_of facts.now) (events_of facts.now) self.now.register.node.0 t.0 cell write) (txns (events_of facts.now))) }
    {
        let node = self.register.node();
        for hold in self.register.holds(facts, cell) {
            if is_in_the_way(facts, node, t, hold, write) {
                return Some(hold.txn);
            }
        }
        None
    }
}

impl Control for Locks {
    ghost use Rattle.nexus_locks.specs.Controls.{LocksStandFor, locks_node_number, locks_spare};

    ghost stands = { LocksStandFor };

    ghost node_number = { locks_node_number };

    ghost spare = { locks_spare };

    ghost sound = { λ c S H s. s.register.book.orderly };

    fn node(&self) -> Node {
        self.register.node()
    }

    fn reserve(&mut self, n: usize) -> Result<(), AllocError> {
        self.register.reserve(n)
    }

    #[inline(always)]
    fn note(&mut self, facts: &Facts, e: Event) {
        self.register.note(facts, e);
    }

    fn start(&self, _facts: &Facts, _s: Spot) -> Verdict {
        Verdict::Go
    }

    #[inline(always)]
    fn before_read(&self, facts: &Facts, t: Txn, cell: Cell) -> Verdict {
        wait_for(self.blocker(facts, t, cell, false))
    }

    fn before_write<C: Chains>(
        &self,
        facts: &Facts,
        _chains: &C,
        _at: Option<usize>,
        t: Txn,
        cell: Cell,
    ) -> Verdict {
        wait_for(self.blocker(facts, t, cell, true))
    }

    fn sees(&self, facts: &Facts, _reader: Txn, writer: Txn, _cell: Cell) -> bool {
        facts.history.is_committed(writer)
    }

    fn orders(&self, facts: &Facts, u: Txn, w: Txn, cell: Cell) -> bool {
        facts.history.put_at(u, cell) < facts.history.put_at(w, cell)
    }

    fn validate(&self, _facts: &Facts, _t: Txn) -> Verdict {
        Verdict::Go
    }

    fn gate(&self, _facts: &Facts, _t: Txn) -> Verdict {
        Verdict::Go
    }
}
