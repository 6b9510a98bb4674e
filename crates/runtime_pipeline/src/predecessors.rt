//! Which transactions are ahead of which at a node, kept event by event.

ghost use Rattle.std.specs.Prelude.{◌≡◌, ◌<◌, ◌≤◌, ◌+◌, ◌||◌, ℕ, [], IsFalse, cond, drop, eqb, get_or, length, vec_capacity, vec_len, All, IsTrue, OnOk};
ghost use Rattle.teb_rules.specs.declared.names.Txn.{Txn};
ghost use Rattle.teb_rules.specs.declared.history.Event.{Event};
ghost use Rattle.teb_rules.specs.history.Ascending.{IsAscendingBy};
ghost use Rattle.teb_rules.specs.history.Live.{number_of};
ghost use Rattle.teb_rules.specs.Setup.{Setup};
ghost use Rattle.phase_api.specs.FactsView.{setup_of, events_of, IsOrderly, IsTyped};
ghost use Rattle.phase_api.specs.Calls.{IsNewest};
ghost use Rattle.hold_book.specs.declared.Hold.{Hold};
ghost use Rattle.access_conflicts.specs.Blockers.{in_the_way};
ghost use Rattle.access_conflicts.specs.Registered.{Registered};
ghost use Rattle.sorted_multimap.specs.Multimap.{values_in};
ghost use Rattle.sorted_multimap.specs.Keys.{txn_cmp};
ghost use Rattle.dependency_book.specs.Dependencies.{has};
ghost use Rattle.runtime_pipeline.specs.Predecessors.{PredecessorsOf, AllBehind, joined, list_of, without};

use access_conflicts::{HoldRegister, is_in_the_way};
use hold_book::Hold;
use phase_api::Facts;
use sorted_multimap::{Multimap, clear_txn};
use std::alloc::{AllocError, Global};
use std::marker::Model;
use teb_rules::history::Event;
use teb_rules::names::{Node, Txn};

/// For each unfinished transaction, those that are ahead of it at a node. It stands for a history, and notes each later event.
#[derive(Drop)]
pub struct Predecessors {
    // By transaction: those that are ahead of it, in ascending number.
    lists: Multimap<Txn, Txn>,
    // Those whose list may not be empty, each once.
    behind: Vec<Txn>,
    // How many transactions are unfinished.
    unfinished: usize,
    // There is room for this many events.
    spare: usize,
    // How many transactions may be unfinished while the room lasts, and so how many an event may put into a list.
    most: usize,
}

impl Model for Predecessors {
    ghost use Rattle.runtime_pipeline.specs.Predecessors.{Kept, HasRoom, AllBehind};

    ghost Value = { Kept };

    ghost view = { λ p. record { lists = p.lists.entries; unfinished = p.unfinished; spare = p.spare } };

    ghost invariant = { λ p. HasRoom p.lists.spare p.behind p.unfinished p.spare p.most × AllBehind p.lists.entries p.behind.items };
}

impl Predecessors {
    /// Returns empty lists, for an empty history. Takes no memory.
    pub fn new(alloc: Global) -> Self
        ensures { (S : Setup) (n : ℕ) → PredecessorsOf result S [] n }
    {
        Predecessors {
            lists: Multimap::narrow(alloc),
            behind: Vec::new(alloc),
            unfinished: 0,
            spare: 0,
            most: 0,
        }
    }

    /// Makes room for n events. It stands for the same history as before.
    ///
    /// # Errors
    /// Out of memory.
    pub fn reserve(&mut self, n: usize) -> Result<(), AllocError>
        ensures lists { self.new.lists ≡ self.old.lists }
        ensures unfinished { self.new.unfinished ≡ self.old.unfinished }
        ensures room { OnOk result (n ≤ self.new.spare) }
    {
        if n <= self.spare {
            return Ok(());
        }
        self.behind.reserve(n)?;
        let most = self.unfinished.checked_add(n).ok_or(AllocError)?;
        let room = most.checked_mul(n).ok_or(AllocError)?;
        self.lists.reserve(room)?;
        self.spare = n;
        self.most = most;
        Ok(())
    }

    /// Returns the list of a transaction, in ascending number.
    #[inline(always)]
    pub fn list(&self, t: Txn) -> &[Txn]
        ensures { result.now ≡ list_of self.now t }
    {
        self.lists.list(t)
    }

    /// Notes the newest event of the history, which the register of the node knows already. It takes at most one place of the room.
    #[inline(always)]
    pub fn note(&mut self, facts: &Facts, register: &HoldRegister, e: Event)
        requires newest { IsNewest facts.now e register.now.node.0 }
        requires orderly { IsOrderly (setup_of facts.now) (drop 1 (events_of facts.now)) }
        requires register { Registered register.now (setup_of facts.now) (events_of facts.now) }
        requires stands { PredecessorsOf self.old (setup_of facts.now) (drop 1 (events_of facts.now)) register.now.node.0 }
        requires room { 0 < self.old.spare }
        ensures stands { PredecessorsOf self.new (setup_of facts.now) (events_of facts.now) register.now.node.0 }
        ensures spare { self.old.spare ≤ self.new.spare + 1 }
    {
        match e {
            Event::Began { .. } => self.begin(),
            Event::Got { txn, cell, .. } | Event::Put { txn, cell, .. } => {
                let holds = register.holds(facts, cell);
                if !is_alone(holds, txn) {
                    let write = matches!(e, Event::Put { .. });
                    self.access(facts, register.node(), txn, holds, write);
                }
            }
            Event::Done(txn) | Event::Gone { txn, .. } => self.finish(txn),
            Event::Ready(_) | Event::Told(_) => {}
        }
    }

    // Notes that a transaction begins.
    fn begin(&mut self)
        requires { 0 < self.old.spare }
        ensures lists { self.new.lists ≡ self.old.lists }
        ensures unfinished { self.new.unfinished ≡ self.old.unfinished + 1 }
        ensures spare { self.old.spare ≤ self.new.spare + 1 }
    {
        self.unfinished += 1;
        self.spare -= 1;
    }

    // Notes an access of a cell: its holders that are in the way are ahead of the transaction from now on.
    fn access(&mut self, facts: &Facts, node: Node, t: Txn, holds: &[Hold], write: bool)
        requires room { 0 < self.old.spare }
        requires few { length holds.now ≤ self.old.unfinished }
        requires ascending { IsAscendingBy number_of (list_of self.old t) }
        requires typed { IsTyped facts.now t.0 }
        requires holders { (i : ℕ) (d : Hold) → i < length holds.now → IsTyped facts.now (get_or holds.now i d).txn.0 }
        ensures lists { (v : Txn) → list_of self.new v ≡ cond (eqb t.0 v.0) (joined (in_the_way (setup_of facts.now) (events_of facts.now) node.0 t.0 write) holds.now (list_of self.old v))
            (list_of self.old v) }
        ensures unfinished { self.new.unfinished ≡ self.old.unfinished }
        ensures spare { self.old.spare ≤ self.new.spare + 1 }
    {
        if put_holders(&mut self.lists, facts, node, t, holds, write) {
            add_once(&mut self.behind, t);
        }
        self.spare -= 1;
    }

    // Notes that a transaction finishes: it leaves the lists of the others, and its own is emptied.
    fn finish(&mut self, t: Txn)
        requires room { 0 < self.old.spare }
        requires unfinished { 0 < self.old.unfinished }
        requires ascending { (v : Txn) → IsAscendingBy number_of (list_of self.old v) }
        ensures lists { (v : Txn) → list_of self.new v ≡ cond (eqb t.0 v.0) [] (without t.0 (list_of self.old v)) }
        ensures unfinished { self.old.unfinished ≡ self.new.unfinished + 1 }
        ensures spare { self.old.spare ≤ self.new.spare + 1 }
    {
        take_away(&mut self.lists, &mut self.behind, t);
        self.unfinished -= 1;
        self.spare -= 1;
    }
}

// Returns whether t is the only holder. Then nothing is in its way, since its own hold never is. It costs two comparisons.
#[inline(always)]
fn is_alone(holds: &[Hold], t: Txn) -> bool
    ensures { IsTrue result → All (λ h. h.txn.0 ≡ t.0) holds.now }
{
    match holds {
        [] => true,
        [only] => only.txn == t,
        _ => false,
    }
}

// Puts the holders that are in the way of an access into the list of the transaction that accesses. Returns whether there are any.
fn put_holders(
    lists: &mut Multimap<Txn, Txn>,
    facts: &Facts,
    node: Node,
    t: Txn,
    holds: &[Hold],
    write: bool,
) -> bool
    requires room { length holds.now ≤ lists.old.spare }
    requires ascending { IsAscendingBy number_of (values_in txn_cmp lists.old t) }
    requires typed { IsTyped facts.now t.0 }
    requires holders { (i : ℕ) (d : Hold) → i < length holds.now → IsTyped facts.now (get_or holds.now i d).txn.0 }
    ensures values { (v : Txn) → values_in txn_cmp lists.new v ≡ cond (eqb t.0 v.0)
        (joined (in_the_way (setup_of facts.now) (events_of facts.now) node.0 t.0 write) holds.now (values_in txn_cmp lists.old v)) (values_in txn_cmp lists.old v) }
    ensures none { IsFalse result → (v : Txn) → values_in txn_cmp lists.new v ≡ values_in txn_cmp lists.old v }
    ensures spare { lists.old.spare ≤ lists.new.spare + length holds.now }
{
    let mut some = false;
    for hold in holds {
        if is_in_the_way(facts, node, t, hold, write) {
            lists.put_by_number(t, hold.txn);
            some = true;
        }
    }
    some
}

// Adds t to a vector, unless it is there.
fn add_once(behind: &mut Vec<Txn>, t: Txn)
    requires { vec_len behind.old < vec_capacity behind.old }
    ensures members { (v : Txn) → has v behind.new.items ≡ (has v behind.old.items || eqb t.0 v.0) }
    ensures len { vec_len behind.new ≤ vec_len behind.old + 1 }
    ensures capacity { vec_capacity behind.old ≤ vec_capacity behind.new }
{
    if !behind.contains(&t) {
        let _ = behind.push(t);
    }
}

// Removes t from all lists, and empties its own. If no list has a value, that costs one look.
fn take_away(lists: &mut Multimap<Txn, Txn>, behind: &mut Vec<Txn>, t: Txn)
    requires ascending { (v : Txn) → IsAscendingBy number_of (values_in txn_cmp lists.old v) }
    requires behind { AllBehind lists.old.entries behind.old.items }
    ensures values { (v : Txn) → values_in txn_cmp lists.new v ≡ cond (eqb t.0 v.0) [] (without t.0 (values_in txn_cmp lists.old v)) }
    ensures behind { AllBehind lists.new.entries behind.new.items }
    ensures spare { lists.new.spare ≡ lists.old.spare }
    ensures len { vec_len behind.new ≤ vec_len behind.old }
    ensures capacity { vec_capacity behind.old ≤ vec_capacity behind.new }
{
    if behind.is_empty() {
        return;
    }
    take_out(lists, behind, t);
    clear_txn(lists, t);
    behind.retain(|u| *u != t);
}

// Removes t from the lists of some transactions.
fn take_out(lists: &mut Multimap<Txn, Txn>, behind: &[Txn], t: Txn)
    requires { (v : Txn) → IsAscendingBy number_of (values_in txn_cmp lists.old v) }
    ensures values { (v : Txn) → values_in txn_cmp lists.new v ≡ cond (has v behind.now) (without t.0 (values_in txn_cmp lists.old v)) (values_in txn_cmp lists.old v) }
    ensures spare { lists.new.spare ≡ lists.old.spare }
{
    for u in behind {
        lists.take_by_number(*u, t.0);
    }
}
