//! The index: blocks of keys with pages of numbers, and the cells of other blocks by hash.

ghost use Rattle.std.specs.Prelude.{◌≡◌, ◌≢◌, None, ◌<◌, ◌≤◌, ◌+◌, [], length, OnOk, if◌then◌else◌};
ghost use Rattle.std.specs.List.{IsDistinct};
ghost use Rattle.indexmap.specs.IndexMap.{spare as map_spare};
ghost use Rattle.teb_rules.specs.declared.names.Cell.{Cell};
ghost use Rattle.teb_rules.specs.names.Cells.{same_cell};
ghost use Rattle.cell_index.specs.Blocks.{slots, owner_of, number_or, IsPaged};
ghost use Rattle.cell_index.specs.Cells.{place_in, with_cell};
ghost use Rattle.cell_index.specs.Index.{number_in, far_number};

use crate::blocks::Blocks;
use indexmap::IndexMap;
use std::alloc::{AllocError, Global};
use std::marker::Model;
use teb_rules::names::Cell;
use teb_rules::vectors::make_wide_room;

/// Cells, each with its place: how many cells had been added before it.
///
/// Consecutive keys, 128 to a block, have one page of numbers. A block finds its page in its slot, unless another block had the slot first;
/// then its cells are found by hash. So if keys are near each other, a look-up costs two looks at memory.
#[derive(Drop)]
pub struct CellIndex {
    // The number of a cell is one more than its place.
    blocks: Blocks,
    // The numbers of the cells of blocks that have no slot.
    far: IndexMap<Cell, u32>,
    // In the order of their places.
    cells: Vec<Cell>,
    // There is room for this many more cells.
    spare: usize,
}

impl Model for CellIndex {
    ghost use Rattle.cell_index.specs.Cells.{Shown};

    ghost Value = { Shown };

    ghost view = { λ p. record { cells = p.cells.items; spare = p.spare } };

    ghost use Rattle.cell_index.specs.Index.{IsIndex};

    ghost invariant = { λ p. IsIndex p.blocks p.far p.cells p.spare };
}

impl CellIndex {
    /// Returns an empty index, with no room. Takes no memory.
    pub fn new(alloc: Global) -> Self
        ensures cells { result.cells ≡ [] }
        ensures spare { result.spare ≡ 0 }
    {
        CellIndex {
            blocks: Blocks::new(alloc),
            far: IndexMap::new(alloc),
            cells: Vec::new(alloc),
            spare: 0,
        }
    }

    /// Makes room for n more cells.
    ///
    /// # Errors
    /// Out of memory, or there would be more than 2^32 - 1 cells. The cells are unchanged.
    pub fn reserve(&mut self, n: usize) -> Result<(), AllocError>
        ensures cells { self.new.cells ≡ self.old.cells }
        ensures room { OnOk result (n ≤ self.new.spare) }
        ensures kept { self.old.spare ≤ self.new.spare }
    {
        if n <= self.spare {
            return Ok(());
        }
        if n > u32::MAX as usize - self.cells.len() {
            return Err(AllocError);
        }
        self.blocks.reserve()?;
        self.far.reserve(n)?;
        make_wide_room(&mut self.cells, n)?;
        self.spare = n;
        Ok(())
    }

    /// Returns how many cells there are.
    #[inline(always)]
    pub fn len(&self) -> usize
        ensures len { result ≡ length self.now.cells }
        ensures unique { IsDistinct same_cell self.now.cells }
    {
        self.cells.len()
    }

    /// Returns the place of a cell, or the number of cells if it has none.
    #[inline(always)]
    pub fn place(&self, cell: Cell) -> usize
        ensures { result ≡ place_in self.now.cells cell }
    {
        match self.number(cell) {
            0 => self.cells.len(),
            number => number as usize - 1,
        }
    }

    /// Returns the number of a cell, or 0 if it has none.
    #[inline(always)]
    fn number(&self, cell: Cell) -> u32
        ensures { result ≡ number_in self.now.cells cell }
    {
        match self.blocks.owner(cell) {
            None => 0,
            Some(owner) => {
                if owner.has(cell) {
                    self.blocks.number(owner, cell)
                } else {
                    number_in_map(&self.far, cell)
                }
            }
        }
    }

    /// Returns the place of a cell, which gets the next one if it has none. That takes at most one place of the room.
    #[inline(always)]
    pub fn add(&mut self, cell: Cell) -> usize
        requires { 0 < self.old.spare }
        ensures place { result ≡ place_in self.old.cells cell }
        ensures cells { self.new.cells ≡ with_cell self.old.cells cell }
        ensures spare { self.old.spare ≤ self.new.spare + 1 }
    {
        let place = self.place(cell);
        if place == self.cells.len() {
            self.append(cell);
        }
        place
    }

    /// Gives a cell that has no place the next one.
    fn append(&mut self, cell: Cell)
        requires room { 0 < self.old.spare }
        requires absent { place_in self.old.cells cell ≡ length self.old.cells }
        ensures cells { self.new.cells ≡ with_cell self.old.cells cell }
        ensures spare { self.old.spare ≡ self.new.spare + 1 }
    {
        let number = self.cells.len() as u32 + 1;
        self.cells.push_reserved(cell);
        self.spare -= 1;
        put_number(&mut self.blocks, &mut self.far, cell, number);
    }
}

/// Puts the number of a cell into the page of its block, or into the map if another block has the slot.
fn put_number(blocks: &mut Blocks, far: &mut IndexMap<Cell, u32>, cell: Cell, number: u32)
    requires paged { IsPaged blocks.old }
    requires slots { slots ≤ length blocks.old.owners.items }
    requires vacant { (x : Cell) → owner_of blocks.old x ≡ None → far_number far.old x ≡ 0 }
    requires room { 0 < map_spare far.old }
    ensures paged { IsPaged blocks.new }
    ensures owner { owner_of blocks.new cell ≢ None }
    ensures owners { (x : Cell) → owner_of blocks.new x ≡ None → owner_of blocks.old x ≡ None }
    ensures slots { length blocks.new.owners.items ≡ length blocks.old.owners.items }
    ensures numbers { (x : Cell) → number_or blocks.new x (far_number far.new x) ≡ (if same_cell cell x then number else number_or blocks.old x (far_number far.old x)) }
    ensures room { map_spare far.old ≤ map_spare far.new + 1 }
{
    let owner = blocks.owner_or_claim(cell);
    if owner.has(cell) {
        blocks.set(owner, cell, number);
    } else {
        put_in_map(far, cell, number);
    }
}

/// Returns the number of a cell in a map, or 0 if it has none.
#[inline(never)]
fn number_in_map(far: &IndexMap<Cell, u32>, cell: Cell) -> u32
    ensures { result ≡ far_number far.now cell }
{
    match far.get(&cell) {
        Some(number) => *number,
        None => 0,
    }
}

/// Puts the number of a cell into a map that has room.
#[inline(never)]
fn put_in_map(far: &mut IndexMap<Cell, u32>, cell: Cell, number: u32)
    requires { 0 < map_spare far.old }
    ensures numbers { (x : Cell) → far_number far.new x ≡ (if same_cell cell x then number else far_number far.old x) }
    ensures room { map_spare far.old ≤ map_spare far.new + 1 }
{
    let _ = far.insert(cell, number);
}
