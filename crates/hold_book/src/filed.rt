//! Holds filed by cell.

ghost use Rattle.std.specs.Prelude.{◌≡◌, ◌<◌, ◌≤◌, ◌+◌, ◌==◌, cond, length, not, IsTrue, IsFalse};
ghost use Rattle.teb_rules.specs.declared.names.Cell.{Cell};
ghost use Rattle.teb_rules.specs.names.Cells.{same_cell, cell_cmp};
ghost use Rattle.sorted_multimap.specs.Multimap.{values_in};
ghost use Rattle.hold_book.specs.Books.{IsFiled, accessed, released};

use crate::Hold;
use sorted_multimap::Multimap;
use teb_rules::names::{Cell, Txn};

/// Files that a transaction has accessed a cell, and whether it put it. It takes at most one place of the room.
#[inline(never)]
pub(crate) fn put_in(holds: &mut Multimap<Cell, Hold>, cell: Cell, t: Txn, wrote: bool)
    requires filed { IsFiled holds.old }
    requires room { 0 < holds.old.spare }
    ensures filed { IsFiled holds.new }
    ensures holds { (x : Cell) → values_in cell_cmp holds.new x ≡ cond (same_cell cell x) (accessed t wrote (values_in cell_cmp holds.old x)) (values_in cell_cmp holds.old x) }
    ensures spare { holds.old.spare ≤ holds.new.spare + 1 }
{
    let hold = Hold { txn: t, wrote };
    if wrote {
        holds.put_by_number(cell, hold);
    } else {
        holds.add_by_number(cell, hold);
    }
}

/// Files that a transaction has accessed a cell, and whether it put it, if some hold on the cell is filed. Returns whether one is; if not,
/// nothing changes. It takes at most one place of the room.
#[inline(always)]
pub(crate) fn join_in(holds: &mut Multimap<Cell, Hold>, cell: Cell, t: Txn, wrote: bool) -> bool
    requires filed { IsFiled holds.old }
    requires room { 0 < holds.old.spare }
    ensures held { result ≡ not (length (values_in cell_cmp holds.old cell) == 0) }
    ensures filed { IsFiled holds.new }
    ensures holds { IsTrue result → (x : Cell) → values_in cell_cmp holds.new x ≡ cond (same_cell cell x) (accessed t wrote (values_in cell_cmp holds.old x)) (values_in cell_cmp holds.old x) }
    ensures kept { IsFalse result → holds.new ≡ holds.old }
    ensures spare { holds.old.spare ≤ holds.new.spare + 1 }
{
    holds.join_by_number(cell, Hold { txn: t, wrote }, wrote)
}

/// Removes the hold of a transaction on a cell, if it is filed. The room stays.
#[inline(never)]
pub(crate) fn take_out(holds: &mut Multimap<Cell, Hold>, cell: Cell, t: Txn)
    requires { IsFiled holds.old }
    ensures filed { IsFiled holds.new }
    ensures holds { (x : Cell) → values_in cell_cmp holds.new x ≡ cond (same_cell cell x) (released t.0 (values_in cell_cmp holds.old x)) (values_in cell_cmp holds.old x) }
    ensures spare { holds.new.spare ≡ holds.old.spare }
{
    holds.take_by_number(cell, t.0);
}
