//! The book of holds.

ghost use Rattle.std.specs.Prelude.{◌≡◌, ◌<◌, ◌≤◌, ◌+◌, ◌||◌, ℕ, ℤ, List, Option, [], ◌∷◌, cond, OnOk, IsTrue, IsFalse};
ghost use Rattle.teb_rules.specs.declared.names.Cell.{Cell};
ghost use Rattle.teb_rules.specs.declared.names.Txn.{Txn};
ghost use Rattle.teb_rules.specs.names.Cells.{same_cell};
ghost use Rattle.teb_rules.specs.declared.history.Event.{Event};
ghost use Rattle.teb_rules.specs.declared.history.Event.TheVariants.{Got, Put};
ghost use Rattle.teb_rules.specs.history.Accesses.{wrote, got};
ghost use Rattle.teb_rules.specs.Setup.{Setup};
ghost use Rattle.hold_book.specs.Books.{shown, accessed, released};
ghost use Rattle.hold_book.specs.Holders.{HoldsOf, MayHold};

use crate::Hold;
use crate::entries::{access_in, release_in};
use crate::slots::{Alone, make_slots, only_list};
use sorted_multimap::Multimap;
use std::alloc::{AllocError, Global};
use std::marker::Model;
use teb_rules::history::{Event, History};
use teb_rules::names::{Cell, Txn};

/// A book makes room for at least this many accesses.
const AHEAD: usize = 64;

/// The lock table of a node. Contracts see the holds on each cell, and for how many accesses there is room.
#[derive(Drop)]
pub struct HoldBook {
    // The cells that only one transaction holds, each in its slot. There are no slots before the first `reserve`.
    slots: Vec<Option<Alone>>,
    // By cell: the holds on each other cell, in ascending number.
    others: Multimap<Cell, Hold>,
    // There is room for this many accesses.
    spare: usize,
}

impl Model for HoldBook {
    ghost use Rattle.hold_book.specs.Books.{Held, IsBook};

    ghost Value = { Held };

    ghost view = { λ b. record { slots = b.slots.items; others = b.others; spare = b.spare } };

    ghost invariant = { λ b. IsBook b.slots.items b.others b.spare };
}

impl HoldBook {
    /// Returns a book in which no cell is held. Takes no memory.
    pub fn new(alloc: Global) -> Self
        ensures shown { (x : Cell) → shown result x ≡ [] }
        ensures empty { (S : Setup) (n : ℕ) → HoldsOf result S [] n }
    {
        HoldBook {
            slots: Vec::new(alloc),
            others: Multimap::small(alloc),
            spare: 0,
        }
    }

    /// Makes room for n accesses.
    ///
    /// # Errors
    /// `AllocError`: out of memory. The holds are unchanged.
    #[inline(always)]
    pub fn reserve(&mut self, n: usize) -> Result<(), AllocError>
        ensures shown { (x : Cell) → shown self.new x ≡ shown self.old x }
        ensures room { OnOk result (n ≤ self.new.spare) }
        ensures kept { self.old.spare ≤ self.new.spare }
    {
        if n <= self.spare {
            return Ok(());
        }
        self.make_room(n.max(AHEAD))
    }

    /// Notes that a transaction accesses a cell: it puts it if `wrote` is true, and else reads it. It takes at most one place of the room. It
    /// costs a look into the cell's bucket, and one at its slot if no other transaction holds the cell; otherwise a search by the cell.
    #[inline(always)]
    pub fn access(&mut self, t: Txn, cell: Cell, wrote: bool)
        requires { 0 < self.old.spare }
        ensures here { shown self.new cell ≡ accessed t wrote (shown self.old cell) }
        ensures elsewhere { (x : Cell) → IsFalse (same_cell cell x) → shown self.new x ≡ shown self.old x }
        ensures spare { self.old.spare ≤ self.new.spare + 1 }

        // It then shows the history with the event.
        ensures got { (S : Setup) (P : List Event) (n : ℕ) (w : Txn) (v : Option ℤ) → IsFalse wrote → MayHold S P n t.0 → HoldsOf self.old S P n → HoldsOf self.new S (Got t cell w v ∷ P) n }
        ensures put { (S : Setup) (P : List Event) (n : ℕ) (v : Option ℤ) → IsTrue wrote → MayHold S P n t.0 → HoldsOf self.old S P n → HoldsOf self.new S (Put t cell v ∷ P) n }
    {
        access_in(&mut self.slots, &mut self.others, cell, t, wrote);
        self.spare -= 1;
    }

    /// Releases every cell that a transaction has accessed. The room stays. It costs what each of its accesses costs.
    pub fn release_all(&mut self, history: &History, t: Txn)
        ensures shown { (x : Cell) → shown self.new x ≡ cond (wrote history.now.events t.0 x || got history.now.events t.0 x) (released t.0 (shown self.old x)) (shown self.old x) }
        ensures spare { self.new.spare ≡ self.old.spare }
    {
        for event in history.own_events(t) {
            if let Event::Got { cell, .. } | Event::Put { cell, .. } = event {
                self.release(t, cell);
            }
        }
    }

    /// Returns the holds on a cell, in ascending number of their transactions.
    #[inline(always)]
    pub fn holds(&self, cell: Cell) -> &[Hold]
        ensures { result.now ≡ shown self.now cell }
    {
        let alone = only_list(&self.slots, cell);
        if alone.is_empty() {
            return self.others.list(cell);
        }
        alone
    }

    // Releases a cell. The room stays.
    #[inline(always)]
    fn release(&mut self, t: Txn, cell: Cell)
        ensures here { shown self.new cell ≡ released t.0 (shown self.old cell) }
        ensures elsewhere { (x : Cell) → IsFalse (same_cell cell x) → shown self.new x ≡ shown self.old x }
        ensures spare { self.new.spare ≡ self.old.spare }
    {
        release_in(&mut self.slots, &mut self.others, cell, t);
    }

    // Makes room for n accesses, if there is less.
    #[inline(never)]
    fn make_room(&mut self, n: usize) -> Result<(), AllocError>
        requires { self.old.spare ≤ n }
        ensures shown { (x : Cell) → shown self.new x ≡ shown self.old x }
        ensures room { OnOk result (n ≤ self.new.spare) }
        ensures kept { self.old.spare ≤ self.new.spare }
    {
        make_slots(&mut self.slots)?;
        self.others.reserve(n.checked_mul(2).ok_or(AllocError)?)?;
        self.spare = n;
        Ok(())
    }
}
