//! The register of a node.

ghost use Rattle.std.specs.Prelude.{◌≡◌, ◌<◌, ◌≤◌, ◌+◌, [], ◌∷◌, ◌++◌, List, drop, OnOk};
ghost use Rattle.teb_rules.specs.declared.history.Event.{Event};
ghost use Rattle.teb_rules.specs.Setup.{Setup};
ghost use Rattle.teb_rules.specs.Tree.{on};
ghost use Rattle.phase_api.specs.FactsView.{IsTyped, setup_of, events_of};
ghost use Rattle.phase_api.specs.Calls.{IsNewest};
ghost use Rattle.hold_book.specs.Holders.{holds_in};
ghost use Rattle.access_conflicts.specs.Registered.{Registered, is_here, register_spare, puts};

use hold_book::{Hold, HoldBook};
use phase_api::Facts;
use std::alloc::{AllocError, Global};
use teb_rules::history::Event;
use teb_rules::names::{Cell, Node, Txn};

/// The lock table of a node. It stands for a history, and notes each later event.
#[derive(Drop)]
pub struct HoldRegister {
    node: Node,
    book: HoldBook,
    // By number, for each transaction that has begun: whether the node is on its path.
    here: Vec<bool>,
}

impl HoldRegister {
    /// Returns the register of a node for an empty history. Takes no memory.
    pub fn new(alloc: Global, node: Node) -> Self
        ensures node { result.node ≡ node }
        ensures stands { (S : Setup) → Registered result S [] }
    {
        HoldRegister {
            node,
            book: HoldBook::new(alloc),
            here: Vec::new(alloc),
        }
    }

    /// Returns the node.
    #[inline(always)]
    pub fn node(&self) -> Node
        ensures { result ≡ self.now.node }
    {
        self.node
    }

    /// Makes room for n events. It stands for the same history as before.
    ///
    /// # Errors
    /// Out of memory.
    pub fn reserve(&mut self, n: usize) -> Result<(), AllocError>
        ensures node { self.new.node ≡ self.old.node }
        ensures stands { (S : Setup) (H : List Event) → Registered self.old S H → Registered self.new S H }
        ensures room { OnOk result (n ≤ register_spare self.new) }
        ensures kept { register_spare self.old ≤ register_spare self.new }
    {
        self.here.reserve(n)?;
        self.book.reserve(n)
    }

    /// Notes the newest event of the history, and takes one place of the room at most.
    #[inline(always)]
    pub fn note(&mut self, facts: &Facts, e: Event)
        requires newest { IsNewest facts.now e self.old.node.0 }
        requires stands { Registered self.old (setup_of facts.now) (drop 1 (events_of facts.now)) }
        requires room { 0 < register_spare self.old }
        ensures stands { Registered self.new (setup_of facts.now) (events_of facts.now) }
        ensures node { self.new.node ≡ self.old.node }
        ensures spare { register_spare self.old ≤ register_spare self.new + 1 }
    {
        match e {
            Event::Began { txn, .. } => self.begin(facts, txn),
            Event::Got { txn, cell, .. } | Event::Put { txn, cell, .. } => {
                if is_here(&self.here, txn) {
                    self.book.access(txn, cell, is_put(e));
                }
            }
            Event::Done(txn) | Event::Gone { txn, .. } => {
                if is_here(&self.here, txn) {
                    self.book.release_all(facts.history, txn);
                }
            }
            Event::Ready(_) | Event::Told(_) => {}
        }
    }

    // Notes a transaction that has begun.
    #[inline(never)]
    fn begin(&mut self, facts: &Facts, txn: Txn)
        requires typed { IsTyped facts.now txn.0 }
        requires room { 0 < register_spare self.old }
        ensures here { self.new.here.items ≡ self.old.here.items ++ on (setup_of facts.now) (events_of facts.now) self.old.node.0 txn.0 ∷ [] }
        ensures book { self.new.book ≡ self.old.book }
        ensures node { self.new.node ≡ self.old.node }
        ensures spare { register_spare self.old ≤ register_spare self.new + 1 }
    {
        let here = facts.is_on(self.node, txn);
        self.here.push_reserved(here);
    }

    /// Returns the holders of a cell: the unfinished transactions with the node on their paths that have accessed it, in ascending number.
    #[inline(always)]
    pub fn holds(&self, facts: &Facts, cell: Cell) -> &[Hold]
        requires { Registered self.now (setup_of facts.now) (events_of facts.now) }
        ensures { result.now ≡ holds_in (setup_of facts.now) (events_of facts.now) self.now.node.0 cell }
    {
        // Only the contract uses the facts.
        let _ = facts;
        self.book.holds(cell)
    }
}

// Returns whether the node is on the path of a transaction that has begun.
#[inline(always)]
fn is_here(here: &[bool], t: Txn) -> bool
    ensures { result ≡ is_here here.now t.0 }
{
    let i = (t.0 as usize).wrapping_sub(1);
    i < here.len() && here[i]
}

// Returns whether an event is a Put.
#[inline(always)]
fn is_put(e: Event) -> bool
    ensures { result ≡ puts e }
{
    matches!(e, Event::Put { .. })
}
