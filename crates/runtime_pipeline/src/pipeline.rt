//! The control of a pipeline node. An access waits for a transaction that has accessed the cell and not passed its rank; a
//! transaction enters a step, and commits, after those that are earlier.

ghost use Rattle.std.specs.Prelude.{◌≡◌, ◌<◌, ◌≤◌, ◌&&◌, not, [], Option, Some, None, IfOk, IsTrue, find, ltb, slice_index_or, length};
ghost use Rattle.teb_rules.specs.declared.names.ControlKind.TheVariants.{Pipeline as IsPipeline};
ghost use Rattle.teb_rules.specs.history.Phases.{txns, unfinished, kind_of};
ghost use Rattle.teb_rules.specs.Setup.{above_profiles};
ghost use Rattle.teb_rules.specs.Tree.{row};
ghost use Rattle.teb_rules.specs.Steps.{passed, rank_of_table, rank_of_step, cursor};
ghost use Rattle.teb_rules.specs.Controls.{blocks, on_access};
ghost use Rattle.phase_api.specs.FactsView.{setup_of, events_of, IsTyped};
ghost use Rattle.hold_book.specs.Holders.{holds_in};
ghost use Rattle.access_conflicts.specs.Waits.{some_txn};
ghost use Rattle.runtime_pipeline.specs.Standing.{PipelineStands, pipeline_node_number, passed_some, holds_up};
ghost use Rattle.runtime_pipeline.specs.Predecessors.{before_in};

use crate::node_ranks::NodeRanks;
use crate::predecessors::Predecessors;
use access_conflicts::{HoldRegister, is_in_the_way, wait_for};
use cursor_book::Cursors;
use hold_book::Hold;
use phase_api::{Control, Facts};
use std::alloc::{AllocError, Global};
use store_setup::profile::Profile;
use teb_rules::Verdict;
use teb_rules::history::Event;
use teb_rules::names::{Cell, Node, Spot, Table, Txn};
use version_chain::Chains;

/// The pipeline control of a node.
#[derive(Drop)]
pub struct Pipeline {
    register: HoldRegister,
    ranks: NodeRanks,
    cursors: Cursors,
    predecessors: Predecessors,
}

impl Pipeline {
    /// Returns the control of a pipeline node for an empty history.
    ///
    /// # Errors
    /// `AllocError`: out of memory.
    pub fn new(alloc: Global, node: Node, facts: &Facts) -> Result<Self, AllocError>
        requires kind { (row (setup_of facts.now).tree node.0).control ≡ IsPipeline }
        requires empty { events_of facts.now ≡ [] }
        requires profiled { facts.now.tree.now.types ≤ length facts.now.profiles.now }
        requires few { above_profiles facts.now.profiles.now ≤ 64 }
        ensures node { IfOk result (λ c. c.register.node ≡ node) }
        ensures stands { IfOk result (λ c. PipelineStands c (setup_of facts.now) (events_of facts.now)) }
    {
        let ranks = NodeRanks::of(alloc, node, facts.tree, facts.profiles)?;
        Ok(Pipeline {
            register: HoldRegister::new(alloc, node),
            ranks,
            cursors: Cursors::new(alloc),
            predecessors: Predecessors::new(alloc),
        })
    }

    /// Returns the holders of a cell: the unfinished transactions with the node on their paths that have accessed it, in ascending number.
    pub fn holds(&self, facts: &Facts, cell: Cell) -> &[Hold]
        requires { PipelineStands self.now (setup_of facts.now) (events_of facts.now) }
        ensures { result.now ≡ holds_in (setup_of facts.now) (events_of facts.now) (pipeline_node_number self.now) cell }
    {
        self.register.holds(facts, cell)
    }

    // Returns the rank of a transaction's current step.
    fn current_rank(&self, facts: &Facts, u: Txn) -> u8
        requires stands { PipelineStands self.now (setup_of facts.now) (events_of facts.now) }
        requires typed { IsTyped facts.now u.0 }
        ensures { result ≡ rank_of_step (setup_of facts.now) self.now.register.node.0 (kind_of (events_of facts.now) u.0) (cursor (setup_of facts.now) (events_of facts.now) u.0) }
    {
        match facts.history.kind(u) {
            Some(kind) => {
                let step = self.cursors.cursor(u);
                self.ranks
                    .rank(first_table(&facts.profiles[usize::from(kind.0)], step))
            }
            None => unreachable!(),
        }
    }

    // Returns whether an access of a table of this rank enters a step of a greater rank than the transaction's current one.
    fn enters(&self, facts: &Facts, t: Txn, rank: u8) -> bool
        requires stands { PipelineStands self.now (setup_of facts.now) (events_of facts.now) }
        requires typed { IsTyped facts.now t.0 }
        ensures { result ≡ ltb (rank_of_step (setup_of facts.now) self.now.register.node.0 (kind_of (events_of facts.now) t.0) (cursor (setup_of facts.now) (events_of facts.now) t.0)) rank }
    {
        0 < rank && self.current_rank(facts, t) < rank
    }

    // Returns whether a transaction has passed a rank.
    fn has_passed(&self, facts: &Facts, u: Txn, rank: u8) -> bool
        requires stands { PipelineStands self.now (setup_of facts.now) (events_of facts.now) }
        requires typed { IsTyped facts.now u.0 }
        ensures { result ≡ passed (setup_of facts.now) (events_of facts.now) self.now.register.node.0 u.0 rank }
    {
        facts.history.is_prepared(u)
            || facts.history.is_committed(u)
            || facts.history.is_aborted(u)
            || rank < self.current_rank(facts, u)
    }

    /// Returns the transactions that are ahead of an unfinished one: the unfinished ones that meet it at the node, an access of which
    /// precedes a conflicting access of that transaction. In ascending number, each once.
    #[inline(always)]
    pub fn before(&self, _facts: &Facts, t: Txn) -> &[Txn]
        requires stands { PipelineStands self.now (setup_of _facts.now) (events_of _facts.now) }
        requires unfinished { IsTrue (unfinished (events_of _facts.now) t.0) }
        ensures { result.now ≡ before_in (setup_of _facts.now) (events_of _facts.now) (pipeline_node_number self.now) t.0 }
    {
        self.predecessors.list(t)
    }

    // Returns whether a transaction has passed a rank; false if none is given.
    fn has_passed_some(&self, facts: &Facts, u: Txn, rank: Option<u8>) -> bool
        requires stands { PipelineStands self.now (setup_of facts.now) (events_of facts.now) }
        requires typed { IsTyped facts.now u.0 }
        ensures { result ≡ passed_some (setup_of facts.now) (events_of facts.now) self.now.register.node.0 u.0 rank }
    {
        match rank {
            Some(k) => self.has_passed(facts, u, k),
            None => false,
        }
    }

    // Returns the least-numbered transaction that holds up t: it is ahead of t, and has not passed the rank that is given.
    #[inline(always)]
    fn first_ahead(&self, facts: &Facts, t: Txn, rank: Option<u8>) -> Option<Txn>
        requires stands { PipelineStands self.now (setup_of facts.now) (events_of facts.now) }
        requires unfinished { IsTrue (unfinished (events_of facts.now) t.0) }
        ensures { result ≡ some_txn (find (holds_up (setup_of facts.now) (events_of facts.now) self.now.register.node.0 t.0 rank) (txns (events_of facts.now))) }
    {
        for u in self.before(facts, t) {
            if !self.has_passed_some(facts, *u, rank) {
                return Some(*u);
            }
        }
        None
    }

    // Returns the least-numbered transaction that is in the way of an access and has not passed the cell's rank.
    #[inline(always)]
    fn first_holder(&self, facts: &Facts, t: Txn, cell: Cell, write: bool) -> Option<Txn>
        requires stands { PipelineStands self.now (setup_of facts.now) (events_of facts.now) }
        requires typed { IsTyped facts.now t.0 }
        ensures { let S = setup_of facts.now in let H = events_of facts.now in let n = self.now.register.node.0 in
            result ≡ some_txn (find (λ u. blocks S H n t.0 cell write u && not (passed S H n u (rank_of_table S n cell.table.0))) (txns H)) }
    {
        let rank = self.ranks.rank(cell.table);
        let node = self.register.node();
        for hold in self.register.holds(facts, cell) {
            if is_in_the_way(facts, node, t, hold, write)
                && !self.has_passed(facts, hold.txn, rank)
            {
                return Some(hold.txn);
            }
        }
        None
    }

    // Returns the answer to an access: first by those that are earlier, if it would enter a step of a greater rank, and then by the holders.
    #[inline(always)]
    fn before_access(&self, facts: &Facts, t: Txn, cell: Cell, write: bool) -> Verdict
        requires stands { PipelineStands self.now (setup_of facts.now) (events_of facts.now) }
        requires typed { IsTyped facts.now t.0 }
        requires unfinished { IsTrue (unfinished (events_of facts.now) t.0) }
        ensures { result ≡ on_access (row (setup_of facts.now).tree self.now.register.node.0).control (setup_of facts.now) (events_of facts.now) self.now.register.node.0 t.0 cell write }
    {
        let rank = self.ranks.rank(cell.table);
        if self.enters(facts, t, rank) {
            if let Some(u) = self.first_ahead(facts, t, Some(rank)) {
                return Verdict::Wait(u);
            }
        }
        wait_for(self.first_holder(facts, t, cell, write))
    }
}

impl Control for Pipeline {
    ghost use Rattle.runtime_pipeline.specs.Standing.{PipelineStands, pipeline_node_number, pipeline_spare};

    ghost stands = { λ c S H. PipelineStands c S H };

    ghost node_number = { pipeline_node_number };

    ghost spare = { pipeline_spare };

    ghost sound = { λ c S H s. s.register.book.orderly };

    fn node(&self) -> Node {
        self.register.node()
    }

    fn reserve(&mut self, n: usize) -> Result<(), AllocError> {
        self.register.reserve(n)?;
        self.predecessors.reserve(n)?;
        self.cursors.reserve(n)
    }

    #[inline(always)]
    fn note(&mut self, facts: &Facts, e: Event) {
        self.register.note(facts, e);
        self.predecessors.note(facts, &self.register, e);
        match e {
            Event::Began { .. } => self.cursors.begin(),
            Event::Got { txn, cell, .. } | Event::Put { txn, cell, .. } => {
                if let Some(kind) = facts.history.kind(txn) {
                    let profile = &facts.profiles[usize::from(kind.0)];
                    self.cursors.access(txn, cell.table, profile);
                }
            }
            Event::Ready(_) | Event::Done(_) | Event::Gone { .. } | Event::Told(_) => {}
        }
    }

    fn start(&self, _facts: &Facts, _s: Spot) -> Verdict {
        Verdict::Go
    }

    #[inline(always)]
    fn before_read(&self, facts: &Facts, t: Txn, cell: Cell) -> Verdict {
        self.before_access(facts, t, cell, false)
    }

    fn before_write<C: Chains>(
        &self,
        facts: &Facts,
        _chains: &C,
        _at: Option<usize>,
        t: Txn,
        cell: Cell,
    ) -> Verdict {
        self.before_access(facts, t, cell, true)
    }

    fn sees(&self, facts: &Facts, _reader: Txn, writer: Txn, cell: Cell) -> bool {
        facts.history.is_committed(writer)
            || self.has_passed(facts, writer, self.ranks.rank(cell.table))
    }

    fn orders(&self, facts: &Facts, u: Txn, w: Txn, cell: Cell) -> bool {
        facts.history.put_at(u, cell) < facts.history.put_at(w, cell)
    }

    fn validate(&self, _facts: &Facts, _t: Txn) -> Verdict {
        Verdict::Go
    }

    fn gate(&self, facts: &Facts, t: Txn) -> Verdict {
        wait_for(self.first_ahead(facts, t, None))
    }
}

// Returns the first table of a step, or table 0 if there is no such step.
fn first_table(profile: &Profile, step: u8) -> Table
    ensures { result.0 ≡ slice_index_or (slice_index_or profile.now step []) 0 0 }
{
    if profile.len() <= step {
        return Table(0);
    }
    match profile.step(step) {
        [first, ..] => *first,
        [] => Table(0),
    }
}
