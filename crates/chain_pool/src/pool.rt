//! Places in chains and writers' lists, and the steps that insert a version and remove versions.

ghost use Rattle.std.specs.Prelude.{◌≡◌, ◌<◌, ◌≤◌, ◌+◌, ℕ, [], length, insert, vec_len, vec_capacity, OnOk};
ghost use Rattle.teb_rules.specs.declared.names.Cell.{Cell};
ghost use Rattle.teb_rules.specs.declared.names.Txn.{Txn};
ghost use Rattle.version_chain.specs.Lists.{without, set_value};
ghost use Rattle.chain_pool.specs.Places.{InChain, IsOwned};
ghost use Rattle.chain_pool.specs.Heads.{chain_head};
ghost use Rattle.chain_pool.specs.Pools.{IsSound, IsSoundWith, chain_of, HasRoom};

use crate::chain_heads::ChainHeads;
use crate::places::{self, BLANK, EMPTY, Head, Place, Version};
use crate::{walks, writer_heads};
use indexmap::IndexMap;
use std::alloc::{AllocError, Global};
use teb_rules::names::{Cell, Txn};
use teb_rules::vectors::make_wide_room;

/// Places, each in its cell's chain and its writer's list, or free.
#[derive(Drop)]
pub(crate) struct Pool {
    pub(crate) places: Vec<Place>,
    pub(crate) cells: ChainHeads,
    pub(crate) writers: IndexMap<Txn, Head>,
    pub(crate) unused: Head,
}

impl Pool {
    pub(crate) fn new(alloc: Global) -> Self
        ensures sound { IsSound result }
        ensures empty { (x : Cell) → chain_of result x ≡ [] }
    {
        Pool {
            places: Vec::new(alloc),
            cells: ChainHeads::new(alloc),
            writers: IndexMap::new(alloc),
            unused: EMPTY,
        }
    }

    /// Makes room for n more versions.
    ///
    /// # Errors
    /// Out of memory, or there would be more than 2^32 - 1 places.
    pub(crate) fn reserve(&mut self, n: usize) -> Result<(), AllocError>
        requires { IsSound self.old }
        ensures sound { IsSound self.new }
        ensures same { (x : Cell) → chain_of self.new x ≡ chain_of self.old x }
        ensures room { OnOk result (HasRoom self.new n) }
        ensures kept { (m : ℕ) → HasRoom self.old m → HasRoom self.new m }
    {
        if n > u32::MAX as usize - self.places.len() {
            return Err(AllocError);
        }
        make_wide_room(&mut self.places, n)?;
        self.cells.reserve(n)?;
        self.writers.reserve(n)?;
        Ok(())
    }

    /// Makes a free place if there is none.
    fn add_free(&mut self)
        requires sound { IsSound self.old }
        requires room { HasRoom self.old 1 }
        ensures sound { IsSound self.new }
        ensures some { 0 < self.new.unused.len }
        ensures owners { (x : Cell) (u : Txn) (p : ℕ) → InChain self.new.places.items x p → IsOwned self.new.places.items u p → InChain self.old.places.items x p × IsOwned self.old.places.items u p }
        ensures same { (x : Cell) → chain_of self.new x ≡ chain_of self.old x }
        ensures cells { self.new.cells ≡ self.old.cells }
        ensures writers { self.new.writers ≡ self.old.writers }
        ensures capacity { vec_capacity self.old.places ≤ vec_capacity self.new.places }
        ensures len { vec_len self.new.places ≤ vec_len self.old.places + 1 }
    {
        if self.unused.len > 0 {
            return;
        }
        let first = self.places.len() as u32;
        self.places.push_reserved(BLANK);
        self.unused = Head { first, len: 1 };
    }

    /// Inserts a version at a place of its cell's chain. It is put into the first free place.
    pub(crate) fn place(&mut self, i: usize, version: Version)
        requires sound { IsSound self.old }
        requires room { HasRoom self.old 1 }
        requires within { i ≤ (chain_head self.old.cells.entries version.cell).len }
        requires absent { (p : ℕ) → InChain self.old.places.items version.cell p → IsOwned self.old.places.items version.writer p → ⊥ }
        ensures sound { IsSound self.new }
        ensures here { chain_of self.new version.cell ≡ insert (chain_of self.old version.cell) i (version.writer, version.value) }
        ensures elsewhere { (x : Cell) → (version.cell ≡ x → ⊥) → chain_of self.new x ≡ chain_of self.old x }
        ensures room { (n : ℕ) → HasRoom self.old (n + 1) → HasRoom self.new n }
    {
        self.add_free();
        let place = self.unused.first;
        let chain = self.cells.lengthen(version.cell, place, i);
        let own = writer_heads::lengthen(&mut self.writers, version.writer, place);
        let (before, after) = walks::neighbours(&self.places, chain, i, place);
        let next_unused = places::at(&self.places, place).sibling;
        places::link(&mut self.places, place, version, own.first, before, after);
        self.unused = Head {
            first: next_unused,
            len: self.unused.len - 1,
        };
    }

    /// Replaces the value of the version at a place of a cell's chain.
    pub(crate) fn overwrite(&mut self, cell: Cell, i: usize, value: Option<i64>)
        requires sound { IsSound self.old }
        requires within { i < length (chain_of self.old cell) }
        ensures sound { IsSound self.new }
        ensures here { chain_of self.new cell ≡ set_value i value (chain_of self.old cell) }
        ensures elsewhere { (x : Cell) → (cell ≡ x → ⊥) → chain_of self.new x ≡ chain_of self.old x }
        ensures room { (n : ℕ) → HasRoom self.old n → HasRoom self.new n }
    {
        let chain = self.cells.chain_at(cell);
        let place = walks::place_of(&self.places, chain, i);
        places::rewrite(&mut self.places, place, value);
    }

    /// Frees the first place of a list, whose writer has no entry any more. Returns the rest of the list.
    fn take_first(&mut self, t: Txn, own: Head) -> Head
        requires sound { IsSoundWith self.old t own }
        requires some { 0 < own.len }
        ensures sound { IsSoundWith self.new t result }
        ensures fewer { result.len + 1 ≡ own.len }
        ensures kept { (x : Cell) → without t.0 (chain_of self.new x) ≡ without t.0 (chain_of self.old x) }
        ensures writers { self.new.writers ≡ self.old.writers }
        ensures room { (n : ℕ) → HasRoom self.old n → HasRoom self.new n }
    {
        let place = own.first;
        let taken = *places::at(&self.places, place);
        places::unlink(
            &mut self.places,
            place,
            self.unused.first,
            taken.previous,
            taken.next,
        );
        self.cells
            .shorten(taken.cell, place, taken.previous, taken.next);
        self.unused = Head {
            first: place,
            len: self.unused.len + 1,
        };
        Head {
            first: taken.sibling,
            len: own.len - 1,
        }
    }

    /// Frees each place of a list, whose writer has no entry any more.
    fn take_all(&mut self, t: Txn, own: Head)
        requires { IsSoundWith self.old t own }
        ensures sound { (left : Head) × (left.len ≡ 0) × IsSoundWith self.new t left }
        ensures taken { (x : Cell) → chain_of self.new x ≡ without t.0 (chain_of self.old x) }
        ensures writers { self.new.writers ≡ self.old.writers }
        ensures room { (n : ℕ) → HasRoom self.old n → HasRoom self.new n }
    {
        let mut left = own;
        for _version in 0..own.len {
            left = self.take_first(t, left);
        }
    }

    /// Removes each version of a writer, and the writer's entry.
    pub(crate) fn remove_all_of(&mut self, t: Txn)
        requires sound { IsSound self.old }
        ensures sound { IsSound self.new }
        ensures taken { (x : Cell) → chain_of self.new x ≡ without t.0 (chain_of self.old x) }
        ensures room { (n : ℕ) → HasRoom self.old n → HasRoom self.new n }
    {
        if let Some(own) = self.writers.swap_remove(&t) {
            self.take_all(t, own);
        }
    }
}
