//! The serial order.

ghost use Rattle.std.specs.Prelude.{◌≡◌, reverse, IfOk};
ghost use Rattle.teb_rules.specs.Accepted.{IsSound};
ghost use Rattle.teb_rules.specs.Ranks.{serial_order};
ghost use Rattle.teb_rules.specs.Serializes.{Serializes};
ghost use Rattle.teb_rules.specs.laws.Lawful.{Lawful};
ghost use Rattle.phase_api.specs.FactsView.{setup_of, events_of};
ghost use Rattle.phase_api.specs.Standing.{StandAll};
ghost use Rattle.engine_core.specs.AnyControls.{any_node_number, any_stands};
ghost use Rattle.serial_order.specs.Booked.{ControlsStand, history, told};
ghost use Rattle.serial_order.specs.Commits.{commits_in, txn_numbers};
ghost use Rattle.serial_order.specs.Edges.{MarkEdges};
ghost use Rattle.serial_order.specs.Keys.{entry_numbers, key_of, HaveKeys};

use crate::booked::Booked;
use engine_core::{AnyControl, Engine};
use phase_api::Facts;
use std::alloc::{AllocError, Global};
use teb_rules::history::{Event, History};
use teb_rules::names::{ControlKind, Node, Txn};
use version_chain::Chains;

/// A committed transaction, with the range of its key among the numbers of all keys.
#[derive(Clone, Copy)]
pub(crate) struct Entry {
    txn: Txn,
    start: usize,
    end: usize,
}

/// Returns the committed transactions in the serial order, which serializes the history.
///
/// # Errors
/// `AllocError`: out of memory. The engine is only read.
pub fn order<C: Chains>(alloc: Global, engine: &Engine<C>) -> Result<Vec<Txn>, AllocError>
    ensures order { IfOk result (λ v. txn_numbers v.items ≡ serial_order engine.now.store.setup engine.now.events) }
    ensures serializes { IfOk result (λ v. Serializes engine.now.store engine.now.events (txn_numbers v.items)) }
{
    let setup = engine.setup();
    let facts = Facts {
        history: engine.history(),
        tree: &setup.tree,
        profiles: &setup.profiles,
    };
    order_of(alloc, &facts, engine.controls())
}

// Returns the same, from the facts that controls are told. Under a root of locks or a pipeline it is the order of the commits.
fn order_of(alloc: Global, facts: &Facts, controls: &[AnyControl]) -> Result<Vec<Txn>, AllocError>
    requires sound { IsSound (setup_of facts.now) }
    requires lawful { Lawful (setup_of facts.now) (events_of facts.now) }
    requires controls { StandAll any_node_number any_stands controls.now (setup_of facts.now) (events_of facts.now) }
    ensures { IfOk result (λ v. txn_numbers v.items ≡ serial_order (setup_of facts.now) (events_of facts.now)) }
{
    match facts.tree.row(Node(0)).control {
        ControlKind::Locks | ControlKind::Pipeline => order_of_commits(alloc, facts.history),
        ControlKind::Timestamp | ControlKind::Snapshot => order_by_keys(alloc, facts, controls),
    }
}

// Returns the committed transactions in the order of their commits.
fn order_of_commits(alloc: Global, history: &History) -> Result<Vec<Txn>, AllocError>
    ensures { IfOk result (λ v. txn_numbers v.items ≡ commits_in (reverse history.now.events)) }
{
    let mut txns = Vec::new(alloc);
    for event in history.events() {
        if let Event::Done(txn) = event {
            txns.push(*txn)?;
        }
    }
    Ok(txns)
}

// Returns the committed transactions sorted by keys.
fn order_by_keys(
    alloc: Global,
    facts: &Facts,
    controls: &[AnyControl],
) -> Result<Vec<Txn>, AllocError>
    requires sound { IsSound (setup_of facts.now) }
    requires lawful { Lawful (setup_of facts.now) (events_of facts.now) }
    requires controls { StandAll any_node_number any_stands controls.now (setup_of facts.now) (events_of facts.now) }
    ensures { IfOk result (λ v. txn_numbers v.items ≡ serial_order (setup_of facts.now) (events_of facts.now)) }
{
    let booked = Booked { facts, controls };
    let marks = booked.edges_out(alloc)?;
    let mut numbers = Vec::new(alloc);
    let mut entries = booked.entries(alloc, &marks, &mut numbers)?;
    entries.sort_by(|a, b| key_of(&numbers, a).cmp(key_of(&numbers, b)))?;
    txns_of(alloc, &entries)
}

impl<'a> Booked<'a> {
    // Returns the committed transactions in the order of their commits, each with its key, which it appends to the numbers.
    fn entries(
        &self,
        alloc: Global,
        marks: &[bool],
        numbers: &mut Vec<usize>,
    ) -> Result<Vec<Entry>, AllocError>
        requires controls { ControlsStand self.now }
        requires marks { told self.now MarkEdges marks.now }
        ensures numbers { IfOk result (λ v. entry_numbers v.items ≡ commits_in (reverse (history self.now))) }
        ensures keys { IfOk result (λ v. told self.now HaveKeys numbers.new.items v.items) }
    {
        let mut entries = Vec::new(alloc);
        for i in 0..self.facts.history.len() {
            let Event::Done(txn) = self.facts.history.at(i) else {
                continue;
            };
            let start = numbers.len();
            self.push_key(numbers, marks, txn, i)?;
            let end = numbers.len();
            entries.push(Entry { txn, start, end })?;
        }
        Ok(entries)
    }
}

// Returns the key of an entry, among the numbers of all keys.
fn key_of<'k>(numbers: &'k [usize], entry: &Entry) -> &'k [usize]
    ensures { result.now ≡ key_of numbers.now entry.now }
{
    let ended = &numbers[..entry.end.min(numbers.len())];
    &ended[entry.start.min(ended.len())..]
}

// Returns the transactions alone.
fn txns_of(alloc: Global, entries: &[Entry]) -> Result<Vec<Txn>, AllocError>
    ensures { IfOk result (λ v. txn_numbers v.items ≡ entry_numbers entries.now) }
{
    let mut txns = Vec::with_capacity(alloc, entries.len())?;
    for entry in entries {
        txns.push(entry.txn)?;
    }
    Ok(txns)
}
