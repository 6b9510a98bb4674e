//! Questions to a snapshot control: which batches closed before which, the writers of a cell, and the accesses of a transaction.

ghost use Rattle.std.specs.Prelude.{◌≡◌, find, ltb};
ghost use Rattle.teb_rules.specs.Batches.{start, close};
ghost use Rattle.snapshot_node.specs.Standing.{writers_in};
ghost use Rattle.snapshot_node.specs.Stood.{StandsFor};
ghost use Rattle.snapshot_node.specs.Props.{kept};

use crate::register::Register;
use access_book::Accesses;
use phase_api::Facts;
use teb_rules::names::{Cell, Txn};

/// A control, with the facts of the history that it stands for.
#[derive(Clone, Copy)]
pub(crate) struct Asked<'a> {
    pub(crate) register: &'a Register,
    pub(crate) facts: &'a Facts<'a>,
    ghost stands: { StandsFor register.now facts.now } by { Prim.hlevel kept },
}

impl<'a> Asked<'a> {
    ghost use Rattle.snapshot_node.specs.Asking.{AreThere, IsAt, IsWalk, comes_first, is_met, there};

    // Returns the transactions with the node on their paths that have put a cell and are not aborted, in ascending number, each once.
    #[inline(always)]
    pub(crate) fn writers(&self, cell: Cell) -> &[Txn]
        ensures { result.now ≡ there self.now writers_in cell }
    {
        self.register.accesses.writers(cell)
    }

    // Returns the accesses of a transaction, the newest first.
    #[inline(always)]
    pub(crate) fn accesses(&self, t: Txn) -> Accesses<'_>
        requires { IsAt self.now t.0 }
        ensures { IsWalk self.now t.0 result }
    {
        self.register.accesses.accesses(t)
    }

    // Returns whether u's batch is closed before t's starts.
    pub(crate) fn is_closed_before(&self, u: Txn, t: Txn) -> bool
        requires left { IsAt self.now u.0 }
        requires right { IsAt self.now t.0 }
        ensures { result ≡ ltb (there self.now close u.0) (there self.now start t.0) }
    {
        self.register.batches.is_closed_before(u, t)
    }

    // Returns the first of some writers of a cell that is committed, meets t, and is not of a batch closed before t's starts.
    pub(crate) fn first_writer(&self, t: Txn, among: &[Txn]) -> Option<Txn>
        requires here { IsAt self.now t.0 }
        requires among_here { AreThere self.now among.now }
        ensures { result ≡ find (there self.now comes_first t.0) among.now }
    {
        for u in among {
            if self.facts.history.is_committed(*u)
                && !self.is_closed_before(*u, t)
                && self.facts.meet_at(self.register.node, t, *u)
            {
                return Some(*u);
            }
        }
        None
    }

    // Returns the first of some writers of a cell that is unfinished and meets t, so that t's write of the cell waits for it.
    pub(crate) fn blocker(&self, t: Txn, among: &[Txn]) -> Option<Txn>
        requires here { IsAt self.now t.0 }
        requires among_here { AreThere self.now among.now }
        ensures { result ≡ find (there self.now is_met t.0) among.now }
    {
        for u in among {
            if self.facts.history.is_unfinished(*u)
                && self.facts.meet_at(self.register.node, t, *u)
            {
                return Some(*u);
            }
        }
        None
    }
}
