//! The control of a timestamp node: versions are in the order in which batches start, and a write that is too late for a
//! read breaks.

ghost use Rattle.std.specs.Prelude.{◌≡◌, ◌⊎◌, ◌||◌, ◌&&◌, ◌<◌, ◌≤◌, ◌+◌, [], IfOk, IsTrue, List, drop, eqb, length, ltb, find};
ghost use Rattle.teb_rules.specs.declared.names.ControlKind.TheVariants.{Timestamp as IsTimestamp};
ghost use Rattle.teb_rules.specs.declared.history.Event.{Event};
ghost use Rattle.teb_rules.specs.history.Phases.{txns, unfinished};
ghost use Rattle.teb_rules.specs.history.Written.{txn_of};
ghost use Rattle.teb_rules.specs.Setup.{Setup};
ghost use Rattle.teb_rules.specs.Tree.{row, meets};
ghost use Rattle.teb_rules.specs.Batches.{start};
ghost use Rattle.teb_rules.specs.Versions.{precedes};
ghost use Rattle.teb_rules.specs.Controls.{is_late};
ghost use Rattle.version_chain.specs.Lists.{writers_of};
ghost use Rattle.phase_api.specs.FactsView.{setup_of, events_of, IsTyped};
ghost use Rattle.phase_api.specs.Calls.{HasJustBegun, IsHere};
ghost use Rattle.phase_api.specs.Versions.{HoldsVersions, IsPlaceOf, SourcesStand, has_version};
ghost use Rattle.timestamp_node.specs.Reads.{reads};
ghost use Rattle.timestamp_node.specs.Late.{is_after, lesser_txn};
ghost use Rattle.timestamp_node.specs.Standing.{StampsStand};
ghost use Rattle.timestamp_node.specs.Controls.{StampsStandFor, stamps_spare};

use crate::reads::{forget_reads, push_read};
use access_conflicts::wait_for;
use arena_multimap::CellMultimap;
use batch_book::Batches;
use phase_api::{Control, Facts};
use std::alloc::{AllocError, Global};
use teb_rules::history::Event;
use teb_rules::names::{Cell, Node, Spot, Txn};
use teb_rules::{Broken, Verdict};
use version_chain::Chains;

/// The timestamp control of a node.
#[derive(Drop)]
pub struct Stamps {
    node: Node,
    // Whether a Commit waits for those whose batches started before.
    ordered: bool,
    batches: Batches,
    // By cell: reader and writer read from, in the order of the history.
    reads: CellMultimap<(Txn, Txn)>,
}

impl Stamps {
    /// Returns the control of a timestamp node for an empty history. Takes no memory.
    ///
    /// # Errors
    /// No error is returned, since it takes no memory.
    pub fn new(alloc: Global, node: Node, facts: &Facts) -> Result<Self, AllocError>
        requires kind { (row (setup_of facts.now).tree node.0).control ≡ IsTimestamp }
        requires empty { events_of facts.now ≡ [] }
        ensures node { IfOk result (λ c. c.node ≡ node) }
        ensures stands { IfOk result (λ c. StampsStand c.node.0 c.ordered c.batches c.reads (setup_of facts.now) (events_of facts.now)) }
    {
        let row = facts.tree.row(node);
        Ok(Stamps {
            node,
            ordered: row.ordered,
            batches: Batches::new(alloc, row.batch),
            reads: CellMultimap::new(alloc),
        })
    }

    /// Returns the batches of its node.
    pub fn batches(&self) -> &Batches
        ensures { result.now ≡ self.now.batches }
    {
        &self.batches
    }

    /// Returns the readers of a cell, each beside the writer that it read from, 0 for the starting row: a pair for each Got by a transaction with the
    /// node on its path that is not aborted, in the order of the history.
    pub fn reads(&self, _facts: &Facts, cell: Cell) -> &[(Txn, Txn)]
        requires { StampsStand self.now.node.0 self.now.ordered self.now.batches self.now.reads (setup_of _facts.now) (events_of _facts.now) }
        ensures { result.now ≡ reads (setup_of _facts.now) (events_of _facts.now) self.now.node.0 cell }
    {
        self.reads.list(cell)
    }

    // Returns the lowest-numbered transaction that makes t's write of a cell too late. It goes back from the newest read, and stops at
    // one whose reader's batch closed before t's starts: the batches of all earlier readers started before t's.
    fn reader_after<C: Chains>(
        &self,
        facts: &Facts,
        chains: &C,
        at: usize,
        t: Txn,
        cell: Cell,
    ) -> Option<Txn>
        requires stands { StampsStand self.now.node.0 self.now.ordered self.now.batches self.now.reads (setup_of facts.now) (events_of facts.now) }
        requires here { IsHere facts.now self.now.node.0 t.0 }
        requires chains { HoldsVersions (setup_of facts.now) (events_of facts.now) (C.lists chains.now) }
        requires sources { SourcesStand (events_of facts.now) cell }
        requires at { IsPlaceOf (setup_of facts.now) (events_of facts.now) cell t.0 at (writers_of (C.lists chains.now cell)) }
        ensures { result ≡ txn_of (find (is_late (setup_of facts.now) (events_of facts.now) self.now.node.0 t.0 cell) (txns (events_of facts.now))) }
    {
        let mut least = None;
        for read in self.reads(facts, cell).iter().rev() {
            if self.batches.is_closed_before(read.0, t) {
                break;
            }
            if self.is_after(facts, chains, at, t, cell, *read) {
                least = Some(lesser(least, read.0));
            }
        }
        least
    }

    // Returns whether a reader meets t here, starts later, and read t's own version or one before it.
    fn is_after<C: Chains>(
        &self,
        facts: &Facts,
        chains: &C,
        at: usize,
        t: Txn,
        cell: Cell,
        read: (Txn, Txn),
    ) -> bool
        requires stands { StampsStand self.now.node.0 self.now.ordered self.now.batches self.now.reads (setup_of facts.now) (events_of facts.now) }
        requires here { IsHere facts.now self.now.node.0 t.0 }
        requires reader { IsTyped facts.now read.0.0 }
        requires chains { HoldsVersions (setup_of facts.now) (events_of facts.now) (C.lists chains.now) }
        requires source { (read.1.0 ≡ 0) ⊎ IsTrue (has_version (events_of facts.now) cell read.1.0) }
        requires at { IsPlaceOf (setup_of facts.now) (events_of facts.now) cell t.0 at (writers_of (C.lists chains.now cell)) }
        ensures { result ≡ is_after (setup_of facts.now) (events_of facts.now) self.now.node.0 t.0 cell read }
    {
        let (reader, writer) = read;
        facts.meet_at(self.node, t, reader)
            && self.batches.start(t) < self.batches.start(reader)
            && is_at_most(chains, at, t, cell, writer)
    }

    // Notes the Began of a transaction at position `at`, the newest event: if the node is on its path, it joins a batch.
    #[inline(never)]
    fn begin(&mut self, facts: &Facts, txn: Txn, at: usize)
        requires newest { HasJustBegun facts.now self.old.node.0 txn }
        requires stands { StampsStandFor self.old (setup_of facts.now) (drop 1 (events_of facts.now)) }
        requires room { 0 < self.old.batches.spare }
        requires at { at ≡ length (drop 1 (events_of facts.now)) }
        ensures stands { StampsStandFor self.new (setup_of facts.now) (events_of facts.now) }
        ensures node { self.new.node ≡ self.old.node }
        ensures spare { stamps_spare self.old ≤ stamps_spare self.new + 1 }
    {
        if facts.is_on(self.node, txn) {
            self.batches.join(facts.side(self.node, txn), txn, at);
        }
    }

    // Returns whether an unfinished transaction that meets t here started before it.
    fn holds_back(&self, facts: &Facts, t: Txn, u: Txn) -> bool
        requires stands { StampsStand self.now.node.0 self.now.ordered self.now.batches self.now.reads (setup_of facts.now) (events_of facts.now) }
        requires here { IsHere facts.now self.now.node.0 t.0 }
        ensures { result ≡ (unfinished (events_of facts.now) u.0 && meets (setup_of facts.now) (events_of facts.now) self.now.node.0 t.0 u.0
            && ltb (start (setup_of facts.now) (events_of facts.now) self.now.node.0 u.0) (start (setup_of facts.now) (events_of facts.now) self.now.node.0 t.0)) }
    {
        facts.history.is_unfinished(u)
            && facts.meet_at(self.node, t, u)
            && self.batches.start(u) < self.batches.start(t)
    }
}

// Returns the lesser of two, of which the first may be missing.
fn lesser(least: Option<Txn>, t: Txn) -> Txn
    ensures { result ≡ lesser_txn least t }
{
    match least {
        Some(u) if u.0 < t.0 => u,
        _ => t,
    }
}

// Returns whether the version that was read is t's own or one before it. `at` is the place that t's has or would have; 0 wrote the starting row.
fn is_at_most<C: Chains>(chains: &C, at: usize, t: Txn, cell: Cell, writer: Txn) -> bool
    requires { 0 < t.0 }
    ensures { (S : Setup) (H : List Event) → HoldsVersions S H (C.lists chains.now) → IsPlaceOf S H cell t.0 at (writers_of (C.lists chains.now cell)) → (writer.0 ≡ 0)
        ⊎ IsTrue (has_version H cell writer.0) → result ≡ (eqb writer.0 t.0 || precedes S H cell writer.0 t.0) }
{
    if writer == t || writer.0 == 0 {
        return true;
    }
    match chains.find(cell, writer) {
        Some(place) => place < at,
        None => false,
    }
}

impl Control for Stamps {
    ghost use Rattle.timestamp_node.specs.Controls.{StampsStandFor, stamps_node_number, stamps_spare};

    ghost stands = { StampsStandFor };

    ghost node_number = { stamps_node_number };

    ghost spare = { stamps_spare };

    ghost sound = { λ c S H s. s.orderly };

    fn node(&self) -> Node {
        self.node
    }

    fn reserve(&mut self, n: usize) -> Result<(), AllocError> {
        self.batches.reserve(n)?;
        self.reads.reserve(n)
    }

    #[inline(always)]
    fn note(&mut self, facts: &Facts, e: Event) {
        let at = facts.history.len() - 1;
        match e {
            Event::Began { txn, .. } => self.begin(facts, txn, at),
            Event::Got {
                txn,
                cell,
                from,
                ..
            } => {
                if self.batches.has(txn) {
                    push_read(&mut self.reads, cell, txn, from);
                }
            }
            Event::Done(txn) => self.batches.finish(txn, at),
            Event::Gone { txn, .. } => {
                if self.batches.has(txn) {
                    forget_reads(&mut self.reads, facts.history, txn);
                }
                self.batches.finish(txn, at);
            }
            Event::Put { .. } | Event::Ready(_) | Event::Told(_) => {}
        }
    }

    fn start(&self, facts: &Facts, s: Spot) -> Verdict {
        match facts.tree.side(self.node, s) {
            Some(child) => wait_for(self.batches.full(u32::from(child.0))),
            None => Verdict::Go,
        }
    }

    fn before_read(&self, _facts: &Facts, _t: Txn, _cell: Cell) -> Verdict {
        Verdict::Go
    }

    fn before_write<C: Chains>(
        &self,
        facts: &Facts,
        chains: &C,
        at: Option<usize>,
        t: Txn,
        cell: Cell,
    ) -> Verdict {
        let Some(at) = at else { unreachable!() };
        match self.reader_after(facts, chains, at, t, cell) {
            Some(reader) => Verdict::Break(Broken::Late { reader, cell }),
            None => Verdict::Go,
        }
    }

    fn sees(&self, _facts: &Facts, reader: Txn, writer: Txn, _cell: Cell) -> bool {
        self.batches.start(writer) < self.batches.start(reader)
    }

    fn orders(&self, _facts: &Facts, u: Txn, w: Txn, _cell: Cell) -> bool {
        self.batches.start(u) < self.batches.start(w)
    }

    fn validate(&self, _facts: &Facts, _t: Txn) -> Verdict {
        Verdict::Go
    }

    fn gate(&self, facts: &Facts, t: Txn) -> Verdict {
        if !self.ordered {
            return Verdict::Go;
        }
        for u in facts.history.live() {
            if self.holds_back(facts, t, *u) {
                return Verdict::Wait(*u);
            }
        }
        Verdict::Go
    }
}
