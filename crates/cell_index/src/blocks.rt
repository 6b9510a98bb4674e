//! Numbers of cells, by blocks of consecutive keys.

ghost use Rattle.std.specs.Prelude.{◌≡◌, ◌<◌, ◌≤◌, ℕ, length, Some, None, IsTrue, OnOk, if◌then◌else◌};
ghost use Rattle.teb_rules.specs.declared.names.Cell.{Cell};
ghost use Rattle.teb_rules.specs.names.Cells.{same_cell};
ghost use Rattle.cell_index.specs.Blocks.{slots, slot_of as spec_slot_of, owner_of, has_cell, number_or, IsPaged};

use std::alloc::{AllocError, Global};
use teb_rules::names::{Cell, Table};

/// How many consecutive keys make a block.
const KEYS_TO_A_BLOCK: u32 = 128;

/// How many slots there are for blocks.
const SLOTS: usize = 512;

/// A block that has a slot, and the beginning of its page.
#[derive(Clone, Copy)]
pub(crate) struct Owner {
    table: Table,
    block: u32,
    page: u32,
}

impl Owner {
    /// Returns whether it is the block of a cell.
    #[inline(always)]
    pub(crate) fn has(self, cell: Cell) -> bool
        ensures { result ≡ has_cell self cell }
    {
        self.table == cell.table && self.block == cell.key / KEYS_TO_A_BLOCK
    }
}

/// Numbers of cells. The first block of a slot that gets a cell has the slot, and a page of numbers.
#[derive(Drop)]
pub(crate) struct Blocks {
    // For each slot the block that has it.
    owners: Vec<Option<Owner>>,
    // Page after page, for each key of a block the number of its cell; 0 if it has none.
    numbers: Vec<u32>,
}

impl Blocks {
    /// Returns no slots and no numbers. Takes no memory.
    pub(crate) fn new(alloc: Global) -> Self
        ensures paged { IsPaged result }
        ensures numbers { (x : Cell) (n : ℕ) → number_or result x n ≡ n }
    {
        Blocks {
            owners: Vec::new(alloc),
            numbers: Vec::new(alloc),
        }
    }

    /// Makes the slots, and room for a page of each. The numbers are unchanged, also on `Err`.
    pub(crate) fn reserve(&mut self) -> Result<(), AllocError>
        requires { IsPaged self.old }
        ensures paged { IsPaged self.new }
        ensures owners { (x : Cell) → owner_of self.new x ≡ owner_of self.old x }
        ensures numbers { self.new.numbers.items ≡ self.old.numbers.items }
        ensures kept { slots ≤ length self.old.owners.items → slots ≤ length self.new.owners.items }
        ensures slots { OnOk result (slots ≤ length self.new.owners.items) }
    {
        if self.owners.len() < SLOTS {
            self.numbers.reserve(SLOTS * KEYS_TO_A_BLOCK as usize)?;
            self.owners.resize(SLOTS, None)?;
        }
        Ok(())
    }

    /// Returns which block has the slot of a cell.
    #[inline(always)]
    pub(crate) fn owner(&self, cell: Cell) -> Option<Owner>
        ensures { result ≡ owner_of self.now cell }
    {
        let slot = slot_of(cell);
        if slot < self.owners.len() {
            self.owners[slot]
        } else {
            None
        }
    }

    /// Returns the number of a cell of an owner.
    #[inline(always)]
    pub(crate) fn number(&self, owner: Owner, cell: Cell) -> u32
        requires paged { IsPaged self.now }
        requires owner { owner_of self.now cell ≡ Some owner }
        requires has { IsTrue (has_cell owner cell) }
        ensures { (n : ℕ) → number_or self.now cell n ≡ result }
    {
        self.numbers[owner.page as usize + (cell.key % KEYS_TO_A_BLOCK) as usize]
    }

    /// Sets the number of a cell of an owner.
    pub(crate) fn set(&mut self, owner: Owner, cell: Cell, number: u32)
        requires paged { IsPaged self.old }
        requires owner { owner_of self.old cell ≡ Some owner }
        requires has { IsTrue (has_cell owner cell) }
        ensures paged { IsPaged self.new }
        ensures owners { self.new.owners.items ≡ self.old.owners.items }
        ensures numbers { (x : Cell) (n : ℕ) → number_or self.new x n ≡ (if same_cell cell x then number else number_or self.old x n) }
    {
        self.numbers[owner.page as usize + (cell.key % KEYS_TO_A_BLOCK) as usize] = number;
    }

    /// Returns which block has the slot of a cell. If none has it, the block of the cell gets it, with an empty page.
    pub(crate) fn owner_or_claim(&mut self, cell: Cell) -> Owner
        requires paged { IsPaged self.old }
        requires slots { slots ≤ length self.old.owners.items }
        ensures paged { IsPaged self.new }
        ensures owner { owner_of self.new cell ≡ Some result }
        ensures owners { (x : Cell) → owner_of self.new x ≡ None → owner_of self.old x ≡ None }
        ensures slots { length self.new.owners.items ≡ length self.old.owners.items }
        // If no block had the slot, there was no number.
        ensures numbers { (x : Cell) (n : ℕ) → (owner_of self.old x ≡ None → n ≡ 0) → number_or self.new x n ≡ number_or self.old x n }
    {
        let slot = slot_of(cell);
        match self.owners[slot] {
            Some(owner) => owner,
            None => self.claim(slot, cell),
        }
    }

    fn claim(&mut self, slot: usize, cell: Cell) -> Owner
        requires paged { IsPaged self.old }
        requires slots { slots ≤ length self.old.owners.items }
        requires slot { slot ≡ spec_slot_of cell }
        requires vacant { owner_of self.old cell ≡ None }
        ensures paged { IsPaged self.new }
        ensures owner { owner_of self.new cell ≡ Some result }
        ensures owners { (x : Cell) → owner_of self.new x ≡ None → owner_of self.old x ≡ None }
        ensures slots { length self.new.owners.items ≡ length self.old.owners.items }
        ensures numbers { (x : Cell) (n : ℕ) → (owner_of self.old x ≡ None → n ≡ 0) → number_or self.new x n ≡ number_or self.old x n }
    {
        let page = self.numbers.len();
        let owner = Owner {
            table: cell.table,
            block: cell.key / KEYS_TO_A_BLOCK,
            page: page as u32,
        };
        let _ = self.numbers.resize(page + KEYS_TO_A_BLOCK as usize, 0);
        self.owners[slot] = Some(owner);
        owner
    }
}

/// Returns the slot of a cell's block: blocks that follow one another have different ones, and so have those of different tables with small keys.
#[inline(always)]
fn slot_of(cell: Cell) -> usize
    ensures slot { result ≡ spec_slot_of cell }
    ensures within { result < slots }
{
    ((cell.key / KEYS_TO_A_BLOCK) as usize + cell.table.0 as usize * 61) % SLOTS
}
