//! Edits of the reads by cell: what a Got adds, and what an abort removes.

ghost use Rattle.std.specs.Prelude.{◌≡◌, ◌<◌, ◌++◌, ◌∷◌, ◌+◌, [], cond, not, filter};
ghost use Rattle.teb_rules.specs.declared.names.Cell.{Cell};
ghost use Rattle.teb_rules.specs.names.Cells.{cell_cmp, same_cell};
ghost use Rattle.sorted_multimap.specs.Multimap.{values_in};
ghost use Rattle.sorted_multimap.specs.LastMatches.{IsLastPlace, without_last};
ghost use Rattle.timestamp_node.specs.Reads.{all_reads, is_by};

use arena_multimap::CellMultimap;
use teb_rules::history::{Event, History};
use teb_rules::names::{Cell, Txn};

/// Appends a read to those of its cell. It takes one place of the room.
pub(crate) fn push_read(reads: &mut CellMultimap<(Txn, Txn)>, cell: Cell, t: Txn, from: Txn)
    requires { 0 < reads.old.spare }
    ensures values { (x : Cell) → values_in cell_cmp reads.new x ≡ cond (same_cell cell x) (values_in cell_cmp reads.old x ++ (t, from) ∷ []) (values_in cell_cmp reads.old x) }
    ensures spare { reads.old.spare ≡ reads.new.spare + 1 }
{
    reads.push(cell, (t, from));
}

/// Removes all reads of t, which are those of the history. Each costs a look at what was read of its cell since.
pub(crate) fn forget_reads(reads: &mut CellMultimap<(Txn, Txn)>, history: &History, t: Txn)
    requires { (x : Cell) → filter (is_by t) (values_in cell_cmp reads.old x) ≡ filter (is_by t) (all_reads history.now.events x) }
    ensures values { (x : Cell) → values_in cell_cmp reads.new x ≡ filter (λ r. not (is_by t r)) (values_in cell_cmp reads.old x) }
    ensures spare { reads.new.spare ≡ reads.old.spare }
{
    for event in history.own_events(t) {
        if let Event::Got { cell, .. } = event {
            forget_last(reads, cell, t);
        }
    }
}

/// Removes the last read of t in a cell, if there is one.
fn forget_last(reads: &mut CellMultimap<(Txn, Txn)>, cell: Cell, t: Txn)
    ensures values { (x : Cell) → values_in cell_cmp reads.new x ≡ cond (same_cell cell x) (without_last (is_by t) (values_in cell_cmp reads.old x)) (values_in cell_cmp reads.old x) }
    ensures spare { reads.new.spare ≡ reads.old.spare }
{
    if let Some(i) = last_place(reads.list(cell), t) {
        reads.take(cell, i);
    }
}

// Returns the last read of t.
fn last_place(reads: &[(Txn, Txn)], t: Txn) -> Option<usize>
    ensures { IsLastPlace (is_by t) reads.now result }
{
    reads.iter().rposition(|read| read.0 == t)
}
