//! A multimap by cell, in one vector.

ghost use Rattle.std.specs.Prelude.{◌≡◌, ◌<◌, ◌≤◌, ◌+◌, ◌++◌, ◌∷◌, length, cond, [], remove, OnOk};
ghost use Rattle.std.specs.Ordering.{is_eq};
ghost use Rattle.teb_rules.specs.declared.names.Cell.{Cell};
ghost use Rattle.teb_rules.specs.names.Cells.{cell_cmp};
ghost use Rattle.sorted_multimap.specs.Multimap.{values_in};

use crate::arena::{AHEAD, Arena};
use cell_index::CellIndex;
use std::alloc::{AllocError, Global};
use std::marker::Model;
use teb_rules::names::Cell;

/// A multimap by cell: values, each beside its cell. Those of a cell have an order, and are lent as one slice.
///
/// All values are in one vector, in which each cell has a segment. A look-up costs that of the cell's place in an index. So does a push, apart
/// from the moves of the values to a longer segment, at most two for each value. Taking a value out moves the later values of its cell.
pub struct CellMultimap<V: Copy> {
    // Each cell has the list of its place.
    cells: CellIndex,
    lists: Arena<V>,
    // There is room for this many more values.
    spare: usize,
}

/// Hand-written `Drop`, so that callers do not re-prove the drop glue.
impl<V: Copy> Drop for CellMultimap<V> {
    fn drop(self) {
        let CellMultimap {
            cells: _cells,
            lists: _lists,
            spare: _spare,
        } = self;
    }
}

impl<V: Copy> Model for CellMultimap<V> {
    ghost use Rattle.teb_rules.specs.declared.names.Cell.{Cell};
    ghost use Rattle.sorted_multimap.specs.Multimap.{Shown};

    ghost Value = { Shown Cell V };

    ghost use Rattle.arena_multimap.specs.Arenas.{list_at};
    ghost use Rattle.arena_multimap.specs.CellMultimap.{entries_from, AreListed};

    ghost view = { λ p. record { entries = entries_from (list_at p.lists) 0 p.cells.cells; spare = p.spare } };

    ghost invariant = { λ p. AreListed p.cells p.lists p.spare };
}

impl<V: Copy> CellMultimap<V> {
    /// Returns an empty multimap, with no room. Takes no memory.
    pub fn new(alloc: Global) -> Self
        ensures entries { result.entries ≡ [] }
        ensures spare { result.spare ≡ 0 }
    {
        CellMultimap {
            cells: CellIndex::new(alloc),
            lists: Arena::new(alloc),
            spare: 0,
        }
    }

    /// Makes room for n more values, whatever their cells.
    ///
    /// # Errors
    /// Out of memory; there would be more than 2^32 - 1 cells; or at least 2^30 values would have been put in, counting those that were taken
    /// out since and n more, or 64 if n is less. The values are unchanged.
    pub fn reserve(&mut self, n: usize) -> Result<(), AllocError>
        ensures entries { self.new.entries ≡ self.old.entries }
        ensures room { OnOk result (n ≤ self.new.spare) }
        ensures kept { self.old.spare ≤ self.new.spare }
    {
        if n <= self.spare {
            return Ok(());
        }
        let room = n.max(AHEAD);
        self.cells.reserve(room)?;
        self.lists.reserve(room)?;
        self.spare = room;
        Ok(())
    }

    /// Returns the values of a cell, in their order.
    #[inline(always)]
    pub fn list(&self, cell: Cell) -> &[V]
        ensures { result.now ≡ values_in cell_cmp self.now cell }
    {
        self.lists.list(self.cells.place(cell))
    }

    /// Appends a value to those of a cell. It takes one place of the room.
    pub fn push(&mut self, cell: Cell, value: V)
        requires { 0 < self.old.spare }
        ensures values { (x : Cell) → values_in cell_cmp self.new x ≡ cond (is_eq (cell_cmp cell x)) (values_in cell_cmp self.old cell ++ value ∷ []) (values_in cell_cmp self.old x) }
        ensures spare { self.old.spare ≡ self.new.spare + 1 }
    {
        let list = self.cells.add(cell);
        self.lists.push(list, value);
        self.spare -= 1;
    }

    /// Removes the value at an index among those of a cell.
    pub fn take(&mut self, cell: Cell, i: usize)
        requires { i < length (values_in cell_cmp self.old cell) }
        ensures values { (x : Cell) → values_in cell_cmp self.new x ≡ cond (is_eq (cell_cmp cell x)) (remove (values_in cell_cmp self.old cell) i) (values_in cell_cmp self.old x) }
        ensures spare { self.new.spare ≡ self.old.spare }
    {
        let list = self.cells.place(cell);
        self.lists.take(list, i);
    }

    /// Removes all values of a cell.
    pub fn clear(&mut self, cell: Cell)
        ensures values { (x : Cell) → values_in cell_cmp self.new x ≡ cond (is_eq (cell_cmp cell x)) [] (values_in cell_cmp self.old x) }
        ensures spare { self.new.spare ≡ self.old.spare }
    {
        let list = self.cells.place(cell);
        self.lists.clear(list);
    }
}
