//! The book: what each event adds, and the lists that it lends.

ghost use Rattle.std.specs.Prelude.{◌≡◌, ◌+◌, ◌<◌, ◌≤◌, ◌∷◌, [], List, OnOk, OnErr};
ghost use Rattle.teb_rules.specs.declared.history.Event.{Event};
ghost use Rattle.dependency_book.specs.Books.{BookOf, readers_in, writers_in, sources_in};
ghost use Rattle.dependency_book.specs.Dependencies.{IsAgain};
ghost use Rattle.dependency_book.specs.Orderly.{MayFollow};

use crate::registers::Registers;
use crate::source_lists;
use std::alloc::{AllocError, Global};
use std::marker::Model;
use teb_rules::history::{Event, History};
use teb_rules::names::{Cell, Txn};

/// Room is made for at least this many events, so that not every `reserve` goes through all registers.
const AHEAD: usize = 256;

/// The readers and writers of each cell, the sources of each transaction, and the unfinished transactions. An abort removes what its
/// transaction read and put.
#[derive(Drop)]
pub struct Book {
    registers: Registers,
    // There is room for this many events.
    spare: usize,
}

impl Model for Book {
    ghost use Rattle.dependency_book.specs.Books.{Shown, lists_of, IsBook};

    ghost Value = { Shown };

    ghost view = { λ b. record { lists = lists_of b.registers; spare = b.spare } };

    ghost invariant = { λ b. IsBook b.registers b.spare };
}

impl Book {
    /// Returns the book of the empty history, with no room.
    pub fn new(alloc: Global) -> Self
        ensures { BookOf result.lists [] }
    {
        Book {
            registers: Registers::new(alloc),
            spare: 0,
        }
    }

    /// Makes room for n events.
    ///
    /// # Errors
    /// Out of memory. The lists are unchanged.
    pub fn reserve(&mut self, n: usize) -> Result<(), AllocError>
        ensures lists { self.new.lists ≡ self.old.lists }
        ensures ok { OnOk result (n ≤ self.new.spare) }
        ensures err { OnErr result (self.new.spare ≡ self.old.spare) }
    {
        if n <= self.spare {
            return Ok(());
        }
        let room = n.max(AHEAD);
        self.registers.reserve(room)?;
        self.spare = room;
        Ok(())
    }

    /// Notes the newest event of the history. If it is a Put, `again` says whether its transaction has put the cell before. It takes at most
    /// one place of the room.
    ///
    /// A read or a put costs a look-up of its cell; the sources of a transaction are found by its number. An abort costs a look-up for each
    /// access of its transaction, and goes through what was read or put in the same cells since; if its transaction put a cell again, through
    /// all that put it. A commit and an abort cost a binary search among the unfinished transactions, and a move of those after it.
    #[inline(always)]
    pub fn note(&mut self, history: &History, e: Event, again: bool)
        requires { 0 < self.old.spare }
        ensures spare { self.old.spare ≤ self.new.spare + 1 }
        ensures book { (P : List Event) → history.now.events ≡ e ∷ P → IsAgain P e again → BookOf self.old.lists P → MayFollow P e → BookOf self.new.lists (e ∷ P) }
    {
        self.registers.note(history, e, again);
        self.spare -= 1;
    }

    /// Returns the readers of a cell, each beside the writer that it read from, in order of access: a pair for each Got of a transaction
    /// that is not aborted.
    pub fn readers(&self, cell: Cell) -> &[(Txn, Txn)]
        ensures { result.now ≡ readers_in self.now.lists cell }
    {
        self.registers.cells.readers(cell)
    }

    /// Returns the transactions that put a cell and are not aborted, in order of the first Put.
    pub fn writers(&self, cell: Cell) -> &[Txn]
        ensures { result.now ≡ writers_in self.now.lists cell }
    {
        self.registers.cells.writers(cell)
    }

    /// Returns the transactions that one read from, in ascending number, each once, without itself and the starting rows. The list of an aborted
    /// transaction is empty.
    pub fn read_from(&self, t: Txn) -> &[Txn]
        ensures { result.now ≡ sources_in self.now.lists t }
    {
        source_lists::sources_of(&self.registers.sources, t)
    }

    /// Returns the unfinished transactions, in ascending number.
    pub fn unfinished(&self) -> &[Txn]
        ensures { result.now ≡ self.now.lists.unfinished }
    {
        &self.registers.unfinished
    }
}
