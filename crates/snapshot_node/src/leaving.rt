//! Whether an edge leads from a committed transaction to a committed one.
//!
//! A read and a committed write of its cell make an edge if their batches are of different sides and concurrent: the version read
//! is then before the one written. The batches of the writers of one cell follow one another, in the order in which the writers
//! are numbered. So it is enough to look at the last committed one whose batch starts before the reader's closes.

ghost use Rattle.std.specs.Prelude.{◌≡◌, IsTrue};
ghost use Rattle.sorted_multimap.specs.LastMatches.{IsLastPlace};
ghost use Rattle.teb_rules.specs.Batches.{close};
ghost use Rattle.teb_rules.specs.history.Phases.{committed};
ghost use Rattle.teb_rules.specs.Accepted.{IsSound};
ghost use Rattle.teb_rules.specs.laws.Lawful.{Lawful};
ghost use Rattle.phase_api.specs.FactsView.{setup_of, events_of};
ghost use Rattle.phase_api.specs.Calls.{IsHere};
ghost use Rattle.snapshot_node.specs.Asking.{IsAt, history, there};
ghost use Rattle.snapshot_node.specs.Leaving.{has_edge, is_overwritten, AreStarted};
ghost use Rattle.snapshot_node.specs.Controls.{SnapshotStandsFor};

use crate::asked::Asked;
use crate::marks::{mark_at, place_of};
use crate::snapshot::Snapshot;
use phase_api::Facts;
use teb_rules::history::{Event, History};
use teb_rules::names::{Cell, Txn};

impl Snapshot {
    /// Returns whether an edge leads from `a`, which is committed and has the node on its path, to a committed transaction. It costs
    /// one look if no edge is known to lead from `a`; otherwise, for each read of `a`, a binary search in the writers of the cell
    /// and a look at the unfinished ones among them, of which there is at most one for each session.
    pub fn has_edge(&self, facts: &Facts, a: Txn) -> bool
        requires stands { SnapshotStandsFor self.now (setup_of facts.now) (events_of facts.now) }
        requires sound { IsSound (setup_of facts.now) }
        requires lawful { Lawful (setup_of facts.now) (events_of facts.now) }
        requires here { IsHere facts.now self.now.register.node.0 a.0 }
        requires committed { IsTrue (committed (events_of facts.now) a.0) }
        ensures { result ≡ has_edge (setup_of facts.now) (events_of facts.now) self.now.register.node.0 a.0 }
    {
        if !mark_at(&self.marks, place_of(a)).ahead {
            return false;
        }
        let asked = Asked {
            register: &self.register,
            facts,
        };
        asked.leads_out(a)
    }
}

impl<'a> Asked<'a> {
    // Returns the same by the reads of `a`.
    fn leads_out(&self, a: Txn) -> bool
        requires sound { IsSound (setup_of self.now.facts.now) }
        requires lawful { Lawful (setup_of self.now.facts.now) (history self.now) }
        requires here { IsAt self.now a.0 }
        ensures { result ≡ there self.now has_edge a.0 }
    {
        for event in self.facts.history.own_events(a) {
            if let Event::Got { cell, .. } = event {
                if self.is_overwritten(a, cell) {
                    return true;
                }
            }
        }
        false
    }

    // Returns whether a committed transaction across from `a` has put a cell. The last committed writer whose batch starts before that of
    // `a` closes is one, if there is any.
    fn is_overwritten(&self, a: Txn, cell: Cell) -> bool
        requires lawful { Lawful (setup_of self.now.facts.now) (history self.now) }
        requires here { IsAt self.now a.0 }
        ensures { result ≡ there self.now is_overwritten a.0 cell }
    {
        let started = self.started_before(cell, self.close_of(a));
        match last_committed(self.facts.history, started) {
            Some(i) => self.register.batches.overlap(a, started[i]),
            None => false,
        }
    }

    // Returns the close of `a`'s batch: the length of the history while it is open.
    fn close_of(&self, a: Txn) -> usize
        requires { IsAt self.now a.0 }
        ensures { result ≡ there self.now close a.0 }
    {
        self.register
            .batches
            .close(a)
            .unwrap_or(self.facts.history.len())
    }

    // Returns the writers of a cell whose batches start before a position. They are the first ones, and are found by a binary search.
    fn started_before(&self, cell: Cell, at: usize) -> &[Txn]
        requires { Lawful (setup_of self.now.facts.now) (history self.now) }
        ensures { there self.now AreStarted cell at result.now }
    {
        let writers = self.writers(cell);
        let mut first = 0;
        let mut end = writers.len();
        while first < end {
            let middle = first + (end - first) / 2;
            if self.register.batches.start(writers[middle]) < at {
                first = middle + 1;
            } else {
                end = middle;
            }
        }
        &writers[..first]
    }
}

// Returns the place of the last of some transactions that is committed.
fn last_committed(history: &History, txns: &[Txn]) -> Option<usize>
    ensures { IsLastPlace (λ u. committed history.now.events u.0) txns.now result }
{
    txns.iter().rposition(|u| history.is_committed(*u))
}
