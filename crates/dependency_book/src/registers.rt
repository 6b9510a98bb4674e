//! The lists of a book, and what an event of each kind adds or removes.

ghost use Rattle.std.specs.Prelude.{◌≡◌, ◌+◌, ℕ, List, ◌∷◌, [], Option, ℤ, OnOk};
ghost use Rattle.teb_rules.specs.declared.names.Cause.{Cause};
ghost use Rattle.teb_rules.specs.declared.names.Session.{Session};
ghost use Rattle.teb_rules.specs.declared.names.Kind.{Kind};
ghost use Rattle.teb_rules.specs.declared.history.Event.{Event};
ghost use Rattle.teb_rules.specs.declared.history.Event.TheVariants as event;
ghost use Rattle.teb_rules.specs.history.Accesses.{wrote};
ghost use Rattle.dependency_book.specs.Books.{BookOf, lists_of, SourcesAscend, HasRooms};
ghost use Rattle.dependency_book.specs.Dependencies.{IsAgain};
ghost use Rattle.dependency_book.specs.Orderly.{MayFollow};

use crate::cell_lists::CellLists;
use crate::source_lists;
use arena_multimap::NumberedLists;
use std::alloc::{AllocError, Global};
use teb_rules::history::{Event, History};
use teb_rules::names::{Cell, Txn};

/// Readers and writers, the sources of each transaction, and the unfinished transactions.
#[derive(Drop)]
pub struct Registers {
    // The readers of each cell, beside the writer read from, and its writers, in order of access.
    pub(crate) cells: CellLists,
    // The sources of each transaction, in ascending number: a list for each that has begun, the oldest first.
    pub(crate) sources: NumberedLists<Txn>,
    // In ascending number.
    pub(crate) unfinished: Vec<Txn>,
}

impl Registers {
    pub(crate) fn new(alloc: Global) -> Self
        ensures ascending { SourcesAscend result.sources.lists }
        ensures book { BookOf (lists_of result) [] }
    {
        Registers {
            cells: CellLists::new(alloc),
            sources: NumberedLists::new(alloc),
            unfinished: Vec::new(alloc),
        }
    }

    /// Makes room for n events.
    pub(crate) fn reserve(&mut self, n: usize) -> Result<(), AllocError>
        ensures lists { lists_of self.new ≡ lists_of self.old }
        ensures room { OnOk result (HasRooms self.new n) }
        ensures kept { (m : ℕ) → HasRooms self.old m → HasRooms self.new m }
    {
        self.cells.reserve(n)?;
        self.sources.reserve(n)?;
        self.unfinished.reserve(n)?;
        Ok(())
    }

    /// Notes the newest event of the history. If it is a Put, `again` says whether its transaction has put the cell before.
    #[inline(always)]
    pub(crate) fn note(&mut self, history: &History, e: Event, again: bool)
        requires ascending { SourcesAscend self.old.sources.lists }
        requires room { HasRooms self.old 1 }
        ensures ascending { SourcesAscend self.new.sources.lists }
        ensures room { (n : ℕ) → HasRooms self.old (n + 1) → HasRooms self.new n }
        ensures book { (P : List Event) → history.now.events ≡ e ∷ P → IsAgain P e again → BookOf (lists_of self.old) P → MayFollow P e → BookOf (lists_of self.new) (e ∷ P) }
    {
        match e {
            Event::Began { txn, .. } => self.begin(txn),
            Event::Got {
                txn,
                cell,
                from,
                ..
            } => self.read(txn, cell, from),
            Event::Put { txn, cell, .. } => self.put(txn, cell, again),
            Event::Done(txn) => self.commit(txn),
            Event::Gone { txn, .. } => self.abort(history, txn),
            Event::Ready(_) | Event::Told(_) => {}
        }
    }

    /// Notes that a transaction begins.
    fn begin(&mut self, t: Txn)
        requires ascending { SourcesAscend self.old.sources.lists }
        requires room { HasRooms self.old 1 }
        ensures ascending { SourcesAscend self.new.sources.lists }
        ensures room { (n : ℕ) → HasRooms self.old (n + 1) → HasRooms self.new n }
        ensures book { (P : List Event) (s : Session) (k : Kind) (i : ℕ) → BookOf (lists_of self.old) P → MayFollow P (event.Began t s k i) → BookOf (lists_of self.new) (event.Began t s k i ∷ P) }
    {
        self.sources.begin();
        let _ = self.unfinished.push(t);
    }

    /// Notes that a transaction reads a cell.
    fn read(&mut self, t: Txn, cell: Cell, from: Txn)
        requires ascending { SourcesAscend self.old.sources.lists }
        requires room { HasRooms self.old 1 }
        ensures ascending { SourcesAscend self.new.sources.lists }
        ensures room { (n : ℕ) → HasRooms self.old (n + 1) → HasRooms self.new n }
        ensures book { (P : List Event) (v : Option ℤ) → BookOf (lists_of self.old) P → MayFollow P (event.Got t cell from v) → BookOf (lists_of self.new) (event.Got t cell from v ∷ P) }
    {
        self.cells.read(cell, (t, from));
        source_lists::add_source(&mut self.sources, t, from);
    }

    /// Notes a Put. `again` says whether the transaction has put the cell before.
    fn put(&mut self, t: Txn, cell: Cell, again: bool)
        requires ascending { SourcesAscend self.old.sources.lists }
        requires room { HasRooms self.old 1 }
        ensures ascending { SourcesAscend self.new.sources.lists }
        ensures room { (n : ℕ) → HasRooms self.old (n + 1) → HasRooms self.new n }
        ensures book { (P : List Event) (v : Option ℤ) → again ≡ wrote P t.0 cell → BookOf (lists_of self.old) P → MayFollow P (event.Put t cell v)
            → BookOf (lists_of self.new) (event.Put t cell v ∷ P) }
    {
        if again {
            return;
        }
        self.cells.put(cell, t);
    }

    /// Notes a commit.
    fn commit(&mut self, t: Txn)
        requires { SourcesAscend self.old.sources.lists }
        ensures ascending { SourcesAscend self.new.sources.lists }
        ensures room { (n : ℕ) → HasRooms self.old n → HasRooms self.new n }
        ensures book { (P : List Event) → BookOf (lists_of self.old) P → MayFollow P (event.Done t) → BookOf (lists_of self.new) (event.Done t ∷ P) }
    {
        teb_rules::history::remove_txn(&mut self.unfinished, t);
    }

    /// Notes an abort, by the newest event of the history.
    fn abort(&mut self, history: &History, t: Txn)
        requires { SourcesAscend self.old.sources.lists }
        ensures ascending { SourcesAscend self.new.sources.lists }
        ensures room { (n : ℕ) → HasRooms self.old n → HasRooms self.new n }
        ensures book { (P : List Event) (c : Cause) → history.now.events ≡ event.Gone t c ∷ P → BookOf (lists_of self.old) P → MayFollow P (event.Gone t c)
            → BookOf (lists_of self.new) (event.Gone t c ∷ P) }
    {
        self.cells.forget_accesses(history, t);
        source_lists::clear_sources(&mut self.sources, t);
        teb_rules::history::remove_txn(&mut self.unfinished, t);
    }
}
