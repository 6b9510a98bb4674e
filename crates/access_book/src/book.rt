//! The book: what each access, commit and abort adds or removes, and the lists that it lends.

ghost use Rattle.std.specs.Prelude.{◌≡◌, ◌<◌, ◌≤◌, ◌+◌, ◌∷◌, ◌&&◌, ◌||◌, ℕ, length, not, eqb, cond, OnOk};
ghost use Rattle.teb_rules.specs.declared.names.Cell.{Cell};
ghost use Rattle.teb_rules.specs.names.Cells.{same_cell};
ghost use Rattle.access_book.specs.Touched.{Reads, Puts, any_reads, any_puts, puts_among};
ghost use Rattle.teb_rules.specs.history.Ascending.{IsAscendingBy};
ghost use Rattle.teb_rules.specs.history.Live.{number_of};
ghost use Rattle.cell_index.specs.Cells.{place_in, with_cell, with_place};
ghost use Rattle.arena_multimap.specs.NumberedLists.{list_in};
ghost use Rattle.access_book.specs.Books.{is_among, is_accessor, readers_of, writers_of, committed_of, touched_of, AreFiled, AreKept, IsAccess, IsEmpty, IsKept};
ghost use Rattle.access_book.specs.Places.{touch_place, touched_at, reads_at, puts_at, puts_held, AreKnown};

use crate::accesses::{Access, Accesses, Touch};
use arena_multimap::NumberedLists;
use cell_index::CellIndex;
use std::alloc::{AllocError, Global};
use std::marker::Model;
use teb_rules::names::{Cell, Txn};

/// Room is made for at least this many events, so that not every `reserve` goes through all lists.
const AHEAD: usize = 256;

/// By cell, its readers, its writers and its committed writers, each in ascending number; by transaction, what it has accessed. An aborted
/// transaction is no reader and no writer.
pub struct AccessBook {
    // Each cell has the lists of its place.
    cells: CellIndex,
    readers: NumberedLists<Txn>,
    writers: NumberedLists<Txn>,
    committed: NumberedLists<Txn>,
    // Of each transaction that has begun, the oldest first.
    touches: NumberedLists<Touch>,
    // The number of Puts of transactions that may still commit. Room for as many committed writers is kept.
    pending: usize,
    // There is room for this many events.
    spare: usize,
}

/// Hand-written `Drop`, so that callers do not re-prove the drop glue.
impl Drop for AccessBook {
    fn drop(self) {
        let AccessBook {
            cells: _cells,
            readers: _readers,
            writers: _writers,
            committed: _committed,
            touches: _touches,
            pending: _pending,
            spare: _spare,
        } = self;
    }
}

impl Model for AccessBook {
    ghost use Rattle.access_book.specs.Books.{Shown};
    ghost use Rattle.access_book.specs.Places.{shown_of, IsBook};

    ghost Value = { Shown };

    ghost view = { λ b. shown_of b.cells.cells b.readers.lists b.writers.lists b.committed.lists b.touches.lists b.pending b.spare };

    ghost invariant = { λ b. IsBook b.cells b.readers b.writers b.committed b.touches b.pending b.spare };
}

impl AccessBook {
    /// Returns the book of an empty history, with no room. Takes no memory.
    pub fn new(alloc: Global) -> Self
        ensures { IsEmpty result }
    {
        AccessBook {
            cells: CellIndex::new(alloc),
            readers: NumberedLists::new(alloc),
            writers: NumberedLists::new(alloc),
            committed: NumberedLists::new(alloc),
            touches: NumberedLists::new(alloc),
            pending: 0,
            spare: 0,
        }
    }

    /// Makes room for n events.
    ///
    /// # Errors
    /// `AllocError`: out of memory, or a limit of `CellIndex` or `NumberedLists` is reached. The lists are unchanged.
    pub fn reserve(&mut self, n: usize) -> Result<(), AllocError>
        ensures same { IsKept self.old self.new }
        ensures room { OnOk result (n ≤ self.new.spare) }
        ensures kept { self.old.spare ≤ self.new.spare }
    {
        if n <= self.spare {
            return Ok(());
        }
        let room = n.max(AHEAD);
        let twice = room.checked_mul(2).ok_or(AllocError)?;
        let committed = twice.checked_add(self.pending).ok_or(AllocError)?;
        self.cells.reserve(room)?;
        self.readers.reserve(twice)?;
        self.writers.reserve(twice)?;
        self.committed.reserve(committed)?;
        self.touches.reserve(room)?;
        self.spare = room;
        Ok(())
    }

    /// Notes that the next transaction begins. It takes one place of the room.
    pub fn begin(&mut self)
        requires { 0 < self.old.spare }
        ensures readers { AreKept (readers_of self.old) (readers_of self.new) }
        ensures writers { AreKept (writers_of self.old) (writers_of self.new) }
        ensures committed { AreKept (committed_of self.old) (committed_of self.new) }
        ensures touched { (u : ℕ) → touched_of self.new u ≡ touched_of self.old u }
        ensures begun { self.new.begun ≡ self.old.begun + 1 }
        ensures pending { self.new.pending ≡ self.old.pending }
        ensures spare { self.old.spare ≡ self.new.spare + 1 }
    {
        self.touches.begin();
        self.spare -= 1;
    }

    /// Notes that a transaction reads a cell. It takes one place of the room.
    pub fn read(&mut self, t: Txn, cell: Cell)
        requires room { 0 < self.old.spare }
        requires filed { AreFiled self.old }
        requires first { 0 < t.0 }
        requires begun { t.0 ≤ self.old.begun }
        ensures filed { AreFiled self.new }
        ensures readers { (x : Cell) (u : ℕ) → is_accessor (readers_of self.new) x u ≡ (is_accessor (readers_of self.old) x u || (same_cell cell x && eqb t.0 u)) }
        ensures writers { AreKept (writers_of self.old) (writers_of self.new) }
        ensures committed { AreKept (committed_of self.old) (committed_of self.new) }
        ensures touched { (u : ℕ) → touched_of self.new u ≡ cond (eqb t.0 u) (Reads cell ∷ touched_of self.old u) (touched_of self.old u) }
        ensures begun { self.new.begun ≡ self.old.begun }
        ensures pending { self.new.pending ≡ self.old.pending }
        ensures spare { self.old.spare ≡ self.new.spare + 1 }
    {
        let place = place_for(
            &mut self.cells,
            &mut self.readers,
            &mut self.writers,
            &mut self.committed,
            cell,
        );
        self.readers.put_by_number(place, t);
        self.touches.push(t.0 as usize - 1, Touch::Read(place));
        self.spare -= 1;
    }

    /// Notes that a transaction puts a cell. It takes one place of the room.
    pub fn put(&mut self, t: Txn, cell: Cell)
        requires room { 0 < self.old.spare }
        requires filed { AreFiled self.old }
        requires first { 0 < t.0 }
        requires begun { t.0 ≤ self.old.begun }
        ensures filed { AreFiled self.new }
        ensures readers { AreKept (readers_of self.old) (readers_of self.new) }
        ensures writers { (x : Cell) (u : ℕ) → is_accessor (writers_of self.new) x u ≡ (is_accessor (writers_of self.old) x u || (same_cell cell x && eqb t.0 u)) }
        ensures committed { AreKept (committed_of self.old) (committed_of self.new) }
        ensures touched { (u : ℕ) → touched_of self.new u ≡ cond (eqb t.0 u) (Puts cell ∷ touched_of self.old u) (touched_of self.old u) }
        ensures begun { self.new.begun ≡ self.old.begun }
        ensures pending { self.new.pending ≡ self.old.pending + 1 }
        ensures spare { self.old.spare ≡ self.new.spare + 1 }
    {
        let place = place_for(
            &mut self.cells,
            &mut self.readers,
            &mut self.writers,
            &mut self.committed,
            cell,
        );
        self.writers.put_by_number(place, t);
        self.touches.push(t.0 as usize - 1, Touch::Put(place));
        self.pending += 1;
        self.spare -= 1;
    }

    /// Notes a commit: the transaction is a committed writer of each cell that it has put. The room stays.
    pub fn commit(&mut self, t: Txn)
        requires filed { AreFiled self.old }
        requires first { 0 < t.0 }
        requires begun { t.0 ≤ self.old.begun }
        requires puts { puts_among (touched_of self.old t.0) ≤ self.old.pending }
        ensures filed { AreFiled self.new }
        ensures readers { AreKept (readers_of self.old) (readers_of self.new) }
        ensures writers { AreKept (writers_of self.old) (writers_of self.new) }
        ensures committed { (x : Cell) (u : ℕ) → is_accessor (committed_of self.new) x u ≡ (is_accessor (committed_of self.old) x u || (any_puts x (touched_of self.old t.0) && eqb t.0 u)) }
        ensures touched { (u : ℕ) → touched_of self.new u ≡ touched_of self.old u }
        ensures begun { self.new.begun ≡ self.old.begun }
        ensures pending { self.new.pending + puts_among (touched_of self.old t.0) ≡ self.old.pending }
        ensures spare { self.new.spare ≡ self.old.spare }
    {
        let touches = self.touches.list(t.0 as usize - 1);
        self.pending -= put_in(&mut self.committed, touches, t);
    }

    /// Notes an abort: the transaction is no reader and no writer of any cell. The room stays.
    pub fn abort(&mut self, t: Txn)
        requires filed { AreFiled self.old }
        requires first { 0 < t.0 }
        requires begun { t.0 ≤ self.old.begun }
        requires puts { puts_among (touched_of self.old t.0) ≤ self.old.pending }
        ensures filed { AreFiled self.new }
        ensures readers { (x : Cell) (u : ℕ) → is_accessor (readers_of self.new) x u ≡ (is_accessor (readers_of self.old) x u && not (any_reads x (touched_of self.old t.0) && eqb t.0 u)) }
        ensures writers { (x : Cell) (u : ℕ) → is_accessor (writers_of self.new) x u ≡ (is_accessor (writers_of self.old) x u && not (any_puts x (touched_of self.old t.0) && eqb t.0 u)) }
        ensures committed { AreKept (committed_of self.old) (committed_of self.new) }
        ensures touched { (u : ℕ) → touched_of self.new u ≡ touched_of self.old u }
        ensures begun { self.new.begun ≡ self.old.begun }
        ensures pending { self.new.pending + puts_among (touched_of self.old t.0) ≡ self.old.pending }
        ensures spare { self.new.spare ≡ self.old.spare }
    {
        let touches = self.touches.list(t.0 as usize - 1);
        self.pending -= take_out(&mut self.readers, &mut self.writers, touches, t);
    }

    /// Returns the accesses of a transaction, the newest first, each with the transactions that have accessed its cell in the other way. Each
    /// costs one step and no look-up.
    #[inline(always)]
    pub fn accesses(&self, t: Txn) -> Accesses<'_>
        requires { 0 < t.0 }
        ensures book { result.book ≡ self.now }
        ensures left { result.left ≡ touched_of self.now t.0 }
    {
        Accesses {
            book: self,
            left: self.touches.list(t.0 as usize - 1),
        }
    }

    // Returns an access, with the transactions that have accessed its cell in the other way.
    #[inline(always)]
    pub(crate) fn access(&self, touch: Touch) -> Access<'_>
        requires { touch_place touch < length self.now.cells }
        ensures { IsAccess self.now result (touched_at self.now.cells touch) }
    {
        match touch {
            Touch::Read(place) => Access::Read {
                writers: self.writers.list(place),
            },
            Touch::Put(place) => Access::Put {
                readers: self.readers.list(place),
            },
        }
    }

    /// Returns the transactions that have put a cell and are not aborted.
    pub fn writers(&self, cell: Cell) -> &[Txn]
        ensures { result.now ≡ writers_of self.now cell }
    {
        self.writers.list(self.cells.place(cell))
    }

    /// Returns the committed transactions that have put a cell.
    pub fn committed(&self, cell: Cell) -> &[Txn]
        ensures { result.now ≡ committed_of self.now cell }
    {
        self.committed.list(self.cells.place(cell))
    }
}

/// Returns the place of a cell, which gets empty lists if it has none.
#[inline(always)]
fn place_for(
    cells: &mut CellIndex,
    readers: &mut NumberedLists<Txn>,
    writers: &mut NumberedLists<Txn>,
    committed: &mut NumberedLists<Txn>,
    cell: Cell,
) -> usize
    requires cells { 0 < cells.old.spare }
    requires readers { 0 < readers.old.spare }
    requires writers { 0 < writers.old.spare }
    requires committed { 0 < committed.old.spare }
    ensures place { result ≡ place_in cells.old.cells cell }
    ensures cells { cells.new.cells ≡ with_cell cells.old.cells cell }
    ensures cells_room { cells.old.spare ≤ cells.new.spare + 1 }
    ensures readers { readers.new.lists ≡ with_place cells.old.cells cell readers.old.lists }
    ensures readers_room { readers.old.spare ≤ readers.new.spare + 1 }
    ensures writers { writers.new.lists ≡ with_place cells.old.cells cell writers.old.lists }
    ensures writers_room { writers.old.spare ≤ writers.new.spare + 1 }
    ensures committed { committed.new.lists ≡ with_place cells.old.cells cell committed.old.lists }
    ensures committed_room { committed.old.spare ≤ committed.new.spare + 1 }
{
    let len = cells.len();
    let place = cells.add(cell);
    if place == len {
        readers.begin();
        writers.begin();
        committed.begin();
    }
    place
}

/// Adds a transaction to the committed writers of each cell that it has put. Returns the number of its Puts.
fn put_in(committed: &mut NumberedLists<Txn>, touches: &[Touch], t: Txn) -> usize
    requires filed { (i : ℕ) → IsAscendingBy number_of (list_in committed.old.lists i) }
    requires known { AreKnown (length committed.old.lists) touches.now }
    requires room { puts_held touches.now ≤ committed.old.spare }
    ensures puts { result ≡ puts_held touches.now }
    ensures filed { (i : ℕ) → IsAscendingBy number_of (list_in committed.new.lists i) }
    ensures count { length committed.new.lists ≡ length committed.old.lists }
    ensures lists { (i u : ℕ) → is_among u (list_in committed.new.lists i) ≡ (is_among u (list_in committed.old.lists i) || (puts_at i touches.now && eqb t.0 u)) }
    ensures room { committed.old.spare ≤ committed.new.spare + result }
{
    let mut puts = 0;
    for touch in touches {
        if let Touch::Put(place) = *touch {
            committed.put_by_number(place, t);
            puts += 1;
        }
    }
    puts
}

/// Removes a transaction from the readers and the writers of each cell that it has accessed. Returns the number of its Puts.
fn take_out(
    readers: &mut NumberedLists<Txn>,
    writers: &mut NumberedLists<Txn>,
    touches: &[Touch],
    t: Txn,
) -> usize
    requires readers { (i : ℕ) → IsAscendingBy number_of (list_in readers.old.lists i) }
    requires writers { (i : ℕ) → IsAscendingBy number_of (list_in writers.old.lists i) }
    requires readers_known { AreKnown (length readers.old.lists) touches.now }
    requires writers_known { AreKnown (length writers.old.lists) touches.now }
    ensures puts { result ≡ puts_held touches.now }
    ensures readers_filed { (i : ℕ) → IsAscendingBy number_of (list_in readers.new.lists i) }
    ensures readers_count { length readers.new.lists ≡ length readers.old.lists }
    ensures readers { (i u : ℕ) → is_among u (list_in readers.new.lists i) ≡ (is_among u (list_in readers.old.lists i) && not (reads_at i touches.now && eqb t.0 u)) }
    ensures readers_room { readers.new.spare ≡ readers.old.spare }
    ensures writers_filed { (i : ℕ) → IsAscendingBy number_of (list_in writers.new.lists i) }
    ensures writers_count { length writers.new.lists ≡ length writers.old.lists }
    ensures writers { (i u : ℕ) → is_among u (list_in writers.new.lists i) ≡ (is_among u (list_in writers.old.lists i) && not (puts_at i touches.now && eqb t.0 u)) }
    ensures writers_room { writers.new.spare ≡ writers.old.spare }
{
    let mut puts = 0;
    for touch in touches {
        match *touch {
            Touch::Read(place) => readers.take_by_number(place, t.0),
            Touch::Put(place) => {
                writers.take_by_number(place, t.0);
                puts += 1;
            }
        }
    }
    puts
}
