//! The trait of controls.

ghost use Rattle.std.specs.Prelude.{◌≡◌, ◌<◌, ◌≤◌, ◌+◌, ℕ, List, drop, OnOk, IsTrue, true, false, find};
ghost use Rattle.teb_rules.specs.declared.history.Event.{Event};
ghost use Rattle.teb_rules.specs.history.Phases.{unfinished, txns};
ghost use Rattle.teb_rules.specs.Setup.{Setup};
ghost use Rattle.teb_rules.specs.Tree.{row, on_path};
ghost use Rattle.teb_rules.specs.Accepted.{IsSound};
ghost use Rattle.teb_rules.specs.Verdicts.{wait_for};
ghost use Rattle.teb_rules.specs.Versions.{sees_by, orders};
ghost use Rattle.teb_rules.specs.Controls.{on_access, validate, gate};
ghost use Rattle.teb_rules.specs.Stops.{on_begin};
ghost use Rattle.teb_rules.specs.laws.Lawful.{Lawful};
ghost use Rattle.version_chain.specs.Lists.{writers_of};
ghost use Rattle.phase_api.specs.FactsView.{setup_of, events_of, IsOrderly};
ghost use Rattle.phase_api.specs.Calls.{IsHere, IsAccess, IsPair, Writes, IsNewest};
ghost use Rattle.phase_api.specs.Versions.{HoldsVersions, IsToldPlace, SourcesStand};

use crate::facts::Facts;
use std::alloc::AllocError;
use teb_rules::Verdict;
use teb_rules::history::Event;
use teb_rules::names::{Cell, Node, Spot, Txn};
use version_chain::Chains;

/// The control of one node. It regulates transactions that meet there, and says nothing of others. Contracts see which setup and
/// history it stands for, its node's number, and for how many events it has room.
pub trait Control: Drop {
    ghost stands: { Self → Setup → List Event → Type 0 };

    ghost node_number: { Self → ℕ };

    ghost spare: { Self → ℕ };

    /// Returns the node.
    fn node(&self) -> Node
        ensures { result.0 ≡ node_number self.now };

    /// Makes room for n events. It stands for the same history as before.
    ///
    /// # Errors
    /// Out of memory.
    fn reserve(&mut self, n: usize) -> Result<(), AllocError>
        ensures node_number { node_number self.new ≡ node_number self.old }
        ensures stands { (S : Setup) (H : List Event) → stands self.old S H → stands self.new S H }
        ensures room { OnOk result (n ≤ spare self.new) };

    /// Notes the newest event of the history. A control that stood for the history before it then stands for the history with it.
    fn note(&mut self, facts: &Facts, e: Event)
        requires newest { IsNewest facts.now e (node_number self.old) }
        requires stands { stands self.old (setup_of facts.now) (drop 1 (events_of facts.now)) }
        requires room { 0 < spare self.old }
        ensures stands { stands self.new (setup_of facts.now) (events_of facts.now) }
        ensures node_number { node_number self.new ≡ node_number self.old }
        ensures spare { spare self.old ≤ spare self.new + 1 };

    /// Returns the answer to a Begin at a spot: if the open batch of its side is full, it waits for the batch's least unfinished member.
    fn start(&self, facts: &Facts, s: Spot) -> Verdict
        requires stands { stands self.now (setup_of facts.now) (events_of facts.now) }
        requires kind { s.kind.0 < facts.now.tree.now.types }
        requires on { IsTrue (on_path (setup_of facts.now).tree (node_number self.now) s) }
        ensures { result ≡ on_begin (setup_of facts.now) (events_of facts.now) s (node_number self.now) };

    /// Returns the answer to a read of a cell.
    fn before_read(&self, facts: &Facts, t: Txn, cell: Cell) -> Verdict
        requires stands { stands self.now (setup_of facts.now) (events_of facts.now) }
        requires access { IsAccess facts.now (node_number self.now) t.0 cell }
        ensures { result ≡ on_access (row (setup_of facts.now).tree (node_number self.now)).control (setup_of facts.now) (events_of facts.now) (node_number self.now) t.0 cell false };

    /// Returns the answer to a write of a cell. `at` is the place that t's version has, or would have, among those of the cell; a timestamp
    /// node is always told it. If a transaction that is not aborted has read from a writer, that writer still has its version: this holds
    /// between any two answers.
    fn before_write<C: Chains>(
        &self,
        facts: &Facts,
        chains: &C,
        at: Option<usize>,
        t: Txn,
        cell: Cell,
    ) -> Verdict
        requires stands { stands self.now (setup_of facts.now) (events_of facts.now) }
        requires access { IsAccess facts.now (node_number self.now) t.0 cell }
        requires chains { HoldsVersions (setup_of facts.now) (events_of facts.now) (C.lists chains.now) }
        requires sources { SourcesStand (events_of facts.now) cell }
        requires at { IsToldPlace (setup_of facts.now) (events_of facts.now) (node_number self.now) cell t.0 at (writers_of (C.lists chains.now cell)) }
        ensures { result ≡ on_access (row (setup_of facts.now).tree (node_number self.now)).control (setup_of facts.now) (events_of facts.now) (node_number self.now) t.0 cell true };

    /// Returns whether a reader sees a writer's version of a cell, for two that meet here.
    fn sees(&self, facts: &Facts, reader: Txn, writer: Txn, cell: Cell) -> bool
        requires stands { stands self.now (setup_of facts.now) (events_of facts.now) }
        requires pair { IsPair facts.now (node_number self.now) reader.0 writer.0 }
        requires writes { Writes (events_of facts.now) writer.0 cell }
        ensures { result ≡ sees_by (row (setup_of facts.now).tree (node_number self.now)).control (setup_of facts.now) (events_of facts.now) (node_number self.now) cell reader.0 writer.0 };

    /// Returns whether u's version of a cell is before w's, for two that meet here.
    fn orders(&self, facts: &Facts, u: Txn, w: Txn, cell: Cell) -> bool
        requires stands { stands self.now (setup_of facts.now) (events_of facts.now) }
        requires pair { IsPair facts.now (node_number self.now) u.0 w.0 }
        requires left { Writes (events_of facts.now) u.0 cell }
        requires right { Writes (events_of facts.now) w.0 cell }
        ensures { result ≡ orders (setup_of facts.now) (events_of facts.now) (node_number self.now) cell u.0 w.0 };

    /// Returns the verdict of the validation of a transaction. Each event of the history was granted by the rules.
    fn validate(&self, facts: &Facts, t: Txn) -> Verdict
        requires stands { stands self.now (setup_of facts.now) (events_of facts.now) }
        requires tree { IsSound (setup_of facts.now) }
        requires lawful { Lawful (setup_of facts.now) (events_of facts.now) }
        requires here { IsHere facts.now (node_number self.now) t.0 }
        requires unfinished { IsTrue (unfinished (events_of facts.now) t.0) }
        ensures { result ≡ validate (row (setup_of facts.now).tree (node_number self.now)).control (setup_of facts.now) (events_of facts.now) (node_number self.now) t.0 };

    /// Returns the wait for the lowest-numbered transaction that holds up a Commit at the gate.
    fn gate(&self, facts: &Facts, t: Txn) -> Verdict
        requires stands { stands self.now (setup_of facts.now) (events_of facts.now) }
        requires here { IsHere facts.now (node_number self.now) t.0 }
        requires unfinished { IsTrue (unfinished (events_of facts.now) t.0) }
        ensures { result ≡ wait_for (find (gate (row (setup_of facts.now).tree (node_number self.now)).control (setup_of facts.now) (events_of facts.now) (node_number self.now) t.0)
            (txns (events_of facts.now))) };

    ghost sound: { (c : Self) (S : Setup) (H : List Event) → stands c S H → IsOrderly S H };
}
