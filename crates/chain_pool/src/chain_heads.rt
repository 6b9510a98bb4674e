//! The chain of each cell: its first and its last place.

ghost use Rattle.std.specs.Prelude.{◌≡◌, ◌==◌, ◌<◌, ◌≤◌, ◌+◌, ◌^◌, [], vec_len, vec_capacity, OnOk, if◌then◌else◌};
ghost use Rattle.teb_rules.specs.declared.names.Cell.{Cell};
ghost use Rattle.teb_rules.specs.names.Cells.{same_cell};
ghost use Rattle.chain_pool.specs.Heads.{with_next, chain_at as spec_chain_at, chain_head, last_of, without_place, last_without};

use crate::places::{Chain, Head, NO_CHAIN};
use cell_index::CellIndex;
use std::alloc::{AllocError, Global};
use std::marker::Model;
use teb_rules::names::Cell;
use teb_rules::vectors::make_wide_room;

/// Each cell's chain, at the place that an index gives the cell.
#[derive(Drop)]
pub(crate) struct ChainHeads {
    cells: CellIndex,
    chains: Vec<Chain>,
}

impl Model for ChainHeads {
    ghost use Rattle.std.specs.Prelude.{◌≡◌, ◌-◌, min, length, vec_len, vec_capacity};
    ghost use Rattle.std.specs.List.{zip};
    ghost use Rattle.chain_pool.specs.Heads.{CellHeads};

    ghost Value = { CellHeads };

    ghost view = { λ h. record { entries = zip h.cells.cells h.chains.items; spare = min h.cells.spare (vec_capacity h.chains - vec_len h.chains) } };

    ghost invariant = { λ h. length h.chains.items ≡ length h.cells.cells };
}

/// Returns the one number if `first` is true, and else the other.
fn chosen(first: bool, one: u32, other: u32) -> u32
    ensures { result ≡ (if first then one else other) }
{
    if first { one } else { other }
}

/// Adds an empty chain if `at` is the next place.
#[inline(always)]
fn add_next(chains: &mut Vec<Chain>, at: usize)
    requires { vec_len chains.old < vec_capacity chains.old }
    ensures items { chains.new.items ≡ with_next chains.old.items at }
    ensures len { vec_len chains.new ≤ vec_len chains.old + 1 }
    ensures capacity { vec_capacity chains.old ≤ vec_capacity chains.new }
{
    if at == chains.len() {
        chains.push_reserved(NO_CHAIN);
    }
}

impl ChainHeads {
    /// Returns no cells.
    pub(crate) fn new(alloc: Global) -> Self
        ensures { result.entries ≡ [] }
    {
        ChainHeads {
            cells: CellIndex::new(alloc),
            chains: Vec::new(alloc),
        }
    }

    /// Makes room for n more cells.
    ///
    /// # Errors
    /// Out of memory, or there would be more than 2^32 - 1 cells. The chains are unchanged.
    pub(crate) fn reserve(&mut self, n: usize) -> Result<(), AllocError>
        ensures entries { self.new.entries ≡ self.old.entries }
        ensures room { OnOk result (n ≤ self.new.spare) }
        ensures kept { self.old.spare ≤ self.new.spare }
    {
        self.cells.reserve(n)?;
        make_wide_room(&mut self.chains, n)
    }

    /// Returns the chain of a cell.
    #[inline(always)]
    pub(crate) fn chain_at(&self, cell: Cell) -> Chain
        ensures { result ≡ spec_chain_at self.now.entries cell }
    {
        let at = self.cells.place(cell);
        if at < self.chains.len() {
            self.chains[at]
        } else {
            NO_CHAIN
        }
    }

    /// Adds a place to a cell's chain, as the i-th. Returns the head that the chain had.
    #[inline(always)]
    pub(crate) fn lengthen(&mut self, cell: Cell, place: u32, i: usize) -> Head
        requires room { 0 < self.old.spare }
        requires short { (chain_head self.old.entries cell).len + 1 < 2 ^ 32 }
        ensures result { result ≡ chain_head self.old.entries cell }
        ensures heads { (x : Cell)
            → chain_head self.new.entries x ≡ (if same_cell cell x then record { first = (if i == 0 then place else result.first); len = result.len + 1 } else chain_head self.old.entries x) }
        ensures lasts { (x : Cell)
            → last_of self.new.entries x ≡ (if same_cell cell x then (if i == (chain_head self.old.entries cell).len then place else last_of self.old.entries cell) else last_of self.old.entries x) }
        ensures room { self.old.spare ≤ self.new.spare + 1 }
    {
        let at = self.cells.add(cell);
        add_next(&mut self.chains, at);
        let was = self.chains[at];
        let head = Head {
            first: chosen(i == 0, place, was.head.first),
            len: was.head.len + 1,
        };
        let last = chosen(i == was.head.len as usize, place, was.last);
        self.chains[at] = Chain { head, last };
        was.head
    }

    /// Removes a place from a cell's chain. If it was the first, the next place becomes the first; if it was the last, the previous
    /// one becomes the last.
    pub(crate) fn shorten(&mut self, cell: Cell, place: u32, previous: u32, next: u32)
        requires { 0 < (chain_head self.old.entries cell).len }
        ensures heads { (x : Cell) → chain_head self.new.entries x ≡ (if same_cell cell x then without_place (chain_head self.old.entries cell) place next else chain_head self.old.entries x) }
        ensures lasts { (x : Cell) → last_of self.new.entries x ≡ (if same_cell cell x then last_without (last_of self.old.entries cell) place previous else last_of self.old.entries x) }
        ensures room { self.old.spare ≤ self.new.spare }
    {
        let at = self.cells.place(cell);
        let was = self.chains[at];
        let head = Head {
            first: chosen(was.head.first == place, next, was.head.first),
            len: was.head.len - 1,
        };
        let last = chosen(was.last == place, previous, was.last);
        self.chains[at] = Chain { head, last };
    }
}
