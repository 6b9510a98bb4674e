//! What a snapshot control keeps of a history: the batches of its node, and the accesses there.

ghost use Rattle.std.specs.Prelude.{◌≡◌, ◌<◌, ◌≤◌, ◌+◌, [], List, drop, length, IfOk, OnOk};
ghost use Rattle.teb_rules.specs.declared.names.ControlKind.TheVariants.{Snapshot as IsSnapshot};
ghost use Rattle.teb_rules.specs.declared.history.Event.{Event};
ghost use Rattle.teb_rules.specs.Setup.{Setup};
ghost use Rattle.teb_rules.specs.Tree.{row};
ghost use Rattle.phase_api.specs.FactsView.{setup_of, events_of};
ghost use Rattle.phase_api.specs.Calls.{HasJustBegun, IsNewest};
ghost use Rattle.snapshot_node.specs.Stood.{CommittedStands, RegisterStands, StandsFor, room_of};

use access_book::AccessBook;
use batch_book::Batches;
use phase_api::Facts;
use std::alloc::{AllocError, Global};
use teb_rules::history::Event;
use teb_rules::names::{Node, Txn};

/// The batches of a snapshot node, and the readers and writers of each cell.
#[derive(Drop)]
pub struct Register {
    pub(crate) node: Node,
    pub(crate) batches: Batches,
    pub(crate) accesses: AccessBook,
}

impl Register {
    /// Returns the register of an empty history. Takes no memory.
    pub(crate) fn new(alloc: Global, node: Node, facts: &Facts) -> Result<Self, AllocError>
        requires kind { (row (setup_of facts.now).tree node.0).control ≡ IsSnapshot }
        requires empty { events_of facts.now ≡ [] }
        ensures node { IfOk result (λ c. c.node ≡ node) }
        ensures stands { IfOk result (λ c. StandsFor c facts.now) }
        ensures committed { IfOk result (λ c. CommittedStands c (setup_of facts.now) (events_of facts.now)) }
    {
        Ok(Register {
            node,
            batches: Batches::new(alloc, facts.tree.row(node).batch),
            accesses: AccessBook::new(alloc),
        })
    }

    /// Makes room for n events. It stands for the same history as before, also on `Err`.
    pub(crate) fn reserve(&mut self, n: usize) -> Result<(), AllocError>
        ensures node { self.new.node ≡ self.old.node }
        ensures stands { (S : Setup) (H : List Event) → RegisterStands self.old S H → RegisterStands self.new S H }
        ensures committed { (S : Setup) (H : List Event) → CommittedStands self.old S H → CommittedStands self.new S H }
        ensures room { OnOk result (n ≤ room_of self.new) }
    {
        self.batches.reserve(n)?;
        self.accesses.reserve(n)
    }

    /// Notes the newest event of the history, which takes at most one place of the room.
    #[inline(always)]
    pub(crate) fn note(&mut self, facts: &Facts, e: Event)
        requires newest { IsNewest facts.now e self.old.node.0 }
        requires stands { RegisterStands self.old (setup_of facts.now) (drop 1 (events_of facts.now)) }
        requires committed { CommittedStands self.old (setup_of facts.now) (drop 1 (events_of facts.now)) }
        requires room { 0 < room_of self.old }
        ensures stands { StandsFor self.new facts.now }
        ensures committed { CommittedStands self.new (setup_of facts.now) (events_of facts.now) }
        ensures node { self.new.node ≡ self.old.node }
        ensures spare { room_of self.old ≤ room_of self.new + 1 }
    {
        let at = facts.history.len() - 1;
        match e {
            Event::Began { txn, .. } => self.begin(facts, txn, at),
            Event::Got { txn, cell, .. } => {
                if self.batches.has(txn) {
                    self.accesses.read(txn, cell);
                }
            }
            Event::Put { txn, cell, .. } => {
                if self.batches.has(txn) {
                    self.accesses.put(txn, cell);
                }
            }
            Event::Done(txn) => {
                self.accesses.commit(txn);
                self.batches.finish(txn, at);
            }
            Event::Gone { txn, .. } => {
                self.accesses.abort(txn);
                self.batches.finish(txn, at);
            }
            Event::Ready(_) | Event::Told(_) => {}
        }
    }

    // Notes the Began of a transaction at position `at`, the newest event: if the node is on its path, it joins a batch.
    #[inline(never)]
    fn begin(&mut self, facts: &Facts, txn: Txn, at: usize)
        requires newest { HasJustBegun facts.now self.old.node.0 txn }
        requires stands { RegisterStands self.old (setup_of facts.now) (drop 1 (events_of facts.now)) }
        requires committed { CommittedStands self.old (setup_of facts.now) (drop 1 (events_of facts.now)) }
        requires room { 0 < room_of self.old }
        requires at { at ≡ length (drop 1 (events_of facts.now)) }
        ensures stands { StandsFor self.new facts.now }
        ensures committed { CommittedStands self.new (setup_of facts.now) (events_of facts.now) }
        ensures node { self.new.node ≡ self.old.node }
        ensures spare { room_of self.old ≤ room_of self.new + 1 }
    {
        self.accesses.begin();
        if facts.is_on(self.node, txn) {
            self.batches.join(facts.side(self.node, txn), txn, at);
        }
    }
}
