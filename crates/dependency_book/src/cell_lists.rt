//! The readers and writers of each cell: both lists have one place under one index.

ghost use Rattle.std.specs.Prelude.{◌≡◌, ◌<◌, ◌≤◌, ◌+◌, ◌++◌, ◌∷◌, [], ℕ, cond, eqb, OnOk};
ghost use Rattle.std.specs.List.{count_by};
ghost use Rattle.teb_rules.specs.declared.names.Cell.{Cell};
ghost use Rattle.teb_rules.specs.declared.names.Txn.{Txn};
ghost use Rattle.teb_rules.specs.names.Cells.{same_cell};
ghost use Rattle.teb_rules.specs.history.OwnEvents.{own_events};
ghost use Rattle.cell_index.specs.Cells.{place_in, with_cell, with_place};
ghost use Rattle.sorted_multimap.specs.LastMatches.{IsLastPlace, without_last, without_lasts};
ghost use Rattle.dependency_book.specs.Dependencies.{reads, puts};
ghost use Rattle.dependency_book.specs.Places.{HasRoom, readers_of, writers_of};

use arena_multimap::NumberedLists;
use cell_index::CellIndex;
use std::alloc::{AllocError, Global};
use std::marker::Model;
use teb_rules::history::{Event, History};
use teb_rules::names::{Cell, Txn};

/// By cell, its readers, each beside the writer that it read from, and its writers, in order of access.
#[derive(Drop)]
pub struct CellLists {
    // Each cell has the lists of its place.
    cells: CellIndex,
    readers: NumberedLists<(Txn, Txn)>,
    writers: NumberedLists<Txn>,
}

impl Model for CellLists {
    ghost use Rattle.dependency_book.specs.Places.{Shown, shown_of, ArePlaced};

    ghost Value = { Shown };

    ghost view = { λ p. shown_of p.cells p.readers p.writers };

    ghost invariant = { λ p. ArePlaced p.cells.cells p.readers.lists p.writers.lists };
}

impl CellLists {
    /// Returns the lists of an empty history, with no room. Takes no memory.
    pub(crate) fn new(alloc: Global) -> Self
        ensures readers { (x : Cell) → readers_of result x ≡ [] }
        ensures writers { (x : Cell) → writers_of result x ≡ [] }
    {
        CellLists {
            cells: CellIndex::new(alloc),
            readers: NumberedLists::new(alloc),
            writers: NumberedLists::new(alloc),
        }
    }

    /// Makes room for n accesses. The lists are unchanged, also on `Err`.
    pub(crate) fn reserve(&mut self, n: usize) -> Result<(), AllocError>
        ensures cells { self.new.cells ≡ self.old.cells }
        ensures readers { self.new.readers ≡ self.old.readers }
        ensures writers { self.new.writers ≡ self.old.writers }
        ensures room { OnOk result (HasRoom self.new.room n) }
        ensures kept { (m : ℕ) → HasRoom self.old.room m → HasRoom self.new.room m }
    {
        let twice = n.checked_mul(2).ok_or(AllocError)?;
        self.cells.reserve(n)?;
        self.readers.reserve(twice)?;
        self.writers.reserve(twice)?;
        Ok(())
    }

    /// Appends to the readers of a cell a pair of the reader and the writer read from. It takes one place of the room.
    pub(crate) fn read(&mut self, cell: Cell, pair: (Txn, Txn))
        requires { HasRoom self.old.room 1 }
        ensures readers { (x : Cell) → readers_of self.new x ≡ cond (same_cell cell x) (readers_of self.old x ++ pair ∷ []) (readers_of self.old x) }
        ensures writers { (x : Cell) → writers_of self.new x ≡ writers_of self.old x }
        ensures room { (n : ℕ) → HasRoom self.old.room (n + 1) → HasRoom self.new.room n }
    {
        let place = place_for(&mut self.cells, &mut self.readers, &mut self.writers, cell);
        self.readers.push(place, pair);
    }

    /// Appends a transaction to the writers of a cell. It takes one place of the room.
    pub(crate) fn put(&mut self, cell: Cell, t: Txn)
        requires { HasRoom self.old.room 1 }
        ensures readers { (x : Cell) → readers_of self.new x ≡ readers_of self.old x }
        ensures writers { (x : Cell) → writers_of self.new x ≡ cond (same_cell cell x) (writers_of self.old x ++ t ∷ []) (writers_of self.old x) }
        ensures room { (n : ℕ) → HasRoom self.old.room (n + 1) → HasRoom self.new.room n }
    {
        let place = place_for(&mut self.cells, &mut self.readers, &mut self.writers, cell);
        self.writers.push(place, t);
    }

    /// Returns the readers of a cell, each beside the writer that it read from.
    pub(crate) fn readers(&self, cell: Cell) -> &[(Txn, Txn)]
        ensures { result.now ≡ readers_of self.now cell }
    {
        self.readers.list(self.cells.place(cell))
    }

    /// Returns the writers of a cell.
    pub(crate) fn writers(&self, cell: Cell) -> &[Txn]
        ensures { result.now ≡ writers_of self.now cell }
    {
        self.writers.list(self.cells.place(cell))
    }

    /// Removes a pair of t for each of its reads of a cell, and t from the writers of each cell that it put, the newest first. The room
    /// stays.
    pub(crate) fn forget_accesses(&mut self, history: &History, t: Txn)
        ensures readers { (x : Cell) → readers_of self.new x ≡ without_lasts (count_by (reads x) (own_events history.now.events t.0)) (λ r. eqb r.0.0 t.0) (readers_of self.old x) }
        ensures writers { (x : Cell) → writers_of self.new x ≡ without_lasts (count_by (puts x) (own_events history.now.events t.0)) (λ u. eqb u.0 t.0) (writers_of self.old x) }
        ensures room { self.new.room ≡ self.old.room }
    {
        for event in history.own_events(t) {
            match event {
                Event::Got { cell, .. } => self.forget_read(cell, t),
                Event::Put { cell, .. } => self.forget_put(cell, t),
                _ => {}
            }
        }
    }

    /// Removes the last pair of t from the readers of a cell. The search goes from the end, past what was read there since.
    fn forget_read(&mut self, cell: Cell, t: Txn)
        ensures readers { (x : Cell) → readers_of self.new x ≡ cond (same_cell cell x) (without_last (λ r. eqb r.0.0 t.0) (readers_of self.old x)) (readers_of self.old x) }
        ensures writers { (x : Cell) → writers_of self.new x ≡ writers_of self.old x }
        ensures room { self.new.room ≡ self.old.room }
    {
        let place = self.cells.place(cell);
        if let Some(i) = read_place(self.readers.list(place), t) {
            self.readers.take(place, i);
        }
    }

    /// Removes t from the writers of a cell, if it is there. The search goes from the end, past what was put there since.
    fn forget_put(&mut self, cell: Cell, t: Txn)
        ensures readers { (x : Cell) → readers_of self.new x ≡ readers_of self.old x }
        ensures writers { (x : Cell) → writers_of self.new x ≡ cond (same_cell cell x) (without_last (λ u. eqb u.0 t.0) (writers_of self.old x)) (writers_of self.old x) }
        ensures room { self.new.room ≡ self.old.room }
    {
        let place = self.cells.place(cell);
        if let Some(i) = put_place(self.writers.list(place), t) {
            self.writers.take(place, i);
        }
    }
}

/// Returns the place of a cell, which gets empty lists if it has none.
#[inline(always)]
fn place_for(
    cells: &mut CellIndex,
    readers: &mut NumberedLists<(Txn, Txn)>,
    writers: &mut NumberedLists<Txn>,
    cell: Cell,
) -> usize
    requires cells { 0 < cells.old.spare }
    requires readers { 0 < readers.old.spare }
    requires writers { 0 < writers.old.spare }
    ensures place { result ≡ place_in cells.old.cells cell }
    ensures cells { cells.new.cells ≡ with_cell cells.old.cells cell }
    ensures cells_room { cells.old.spare ≤ cells.new.spare + 1 }
    ensures readers { readers.new.lists ≡ with_place cells.old.cells cell readers.old.lists }
    ensures readers_room { readers.old.spare ≤ readers.new.spare + 1 }
    ensures writers { writers.new.lists ≡ with_place cells.old.cells cell writers.old.lists }
    ensures writers_room { writers.old.spare ≤ writers.new.spare + 1 }
{
    let len = cells.len();
    let place = cells.add(cell);
    if place == len {
        readers.begin();
        writers.begin();
    }
    place
}

// Returns the last pair of t.
fn read_place(pairs: &[(Txn, Txn)], t: Txn) -> Option<usize>
    ensures { IsLastPlace (λ r. eqb r.0.0 t.0) pairs.now result }
{
    pairs.iter().rposition(|pair| pair.0 == t)
}

// Returns the last place of t.
fn put_place(txns: &[Txn], t: Txn) -> Option<usize>
    ensures { IsLastPlace (λ u. eqb u.0 t.0) txns.now result }
{
    txns.iter().rposition(|u| *u == t)
}
