//! The calls of a store of versions.

ghost use Rattle.std.specs.Prelude.{◌≡◌, ◌<◌, ◌≤◌, ◌+◌, ℕ, ℤ, Option, List, Bool, length, insert, slice_get, eqb, OnOk, IfSome, IsTrue, IsFalse, Some};
ghost use Rattle.std.specs.Option.{option_map};
ghost use Rattle.teb_rules.specs.declared.names.Cell.{Cell};
ghost use Rattle.teb_rules.specs.declared.names.Txn.{Txn};
ghost use Rattle.teb_rules.specs.names.Cells.{same_cell};
ghost use Rattle.version_chain.specs.Lists.{writers_of, is_writer, first_place, last_place, unless_below, own_or_last as spec_own_or_last, set_value, without};

use std::alloc::AllocError;
use teb_rules::names::{Cell, Txn};

/// A version that was found, and its place in the chain of its cell.
#[derive(Clone, Copy)]
pub struct Found {
    pub at: usize,
    pub writer: Txn,
    /// `None` if the row is deleted.
    pub value: Option<i64>,
}

/// Versions by cell. A version is its writer and a value, `None` if the row is deleted. Those of a cell are in version order,
/// the oldest at place 0. Contracts see a list for each cell, and how many versions may be placed without memory.
pub trait Chains: Drop {
    ghost lists: { Self → Cell → List (Txn × Option ℤ) };

    ghost spare: { Self → ℕ };

    /// Makes room for n versions.
    ///
    /// # Errors
    /// Out of memory. The lists are unchanged.
    fn reserve(&mut self, n: usize) -> Result<(), AllocError>
        ensures lists { (x : Cell) → lists self.new x ≡ lists self.old x }
        ensures room { OnOk result (n ≤ spare self.new) }
        ensures kept { spare self.old ≤ spare self.new };

    /// Returns how many versions a cell has.
    fn len_of(&self, cell: Cell) -> usize
        ensures { result ≡ length (lists self.now cell) };

    /// Returns the version at a place.
    fn at(&self, cell: Cell, i: usize) -> (Txn, Option<i64>)
        requires { i < length (lists self.now cell) }
        ensures { slice_get (lists self.now cell) i ≡ Some result };

    /// Returns the place of a writer's version, or `None` if it has none.
    fn find(&self, cell: Cell, t: Txn) -> Option<usize>
        ensures { result ≡ first_place (λ w. eqb w t.0) (writers_of (lists self.now cell)) };

    /// Inserts a version of a writer that has none, at place i. The versions from there on move up by one.
    fn place(&mut self, cell: Cell, i: usize, t: Txn, value: Option<i64>)
        requires room { 0 < spare self.old }
        requires within { i ≤ length (lists self.old cell) }
        requires absent { IsFalse (is_writer (lists self.old cell) t.0) }
        ensures here { lists self.new cell ≡ insert (lists self.old cell) i (t, value) }
        ensures elsewhere { (x : Cell) → IsFalse (same_cell x cell) → lists self.new x ≡ lists self.old x }
        ensures spare { spare self.old ≤ spare self.new + 1 };

    /// Replaces the value of the version at a place.
    fn overwrite(&mut self, cell: Cell, i: usize, value: Option<i64>)
        requires { i < length (lists self.old cell) }
        ensures here { lists self.new cell ≡ set_value i value (lists self.old cell) }
        ensures elsewhere { (x : Cell) → IsFalse (same_cell x cell) → lists self.new x ≡ lists self.old x }
        ensures spare { spare self.new ≡ spare self.old };

    /// Removes every version of a writer. The others keep their order.
    fn remove_all_of(&mut self, t: Txn)
        ensures lists { (x : Cell) → lists self.new x ≡ without t.0 (lists self.old x) }
        ensures spare { spare self.old ≤ spare self.new };

    /// Returns the last place whose writer f accepts, or `None` if f accepts none. The search goes from the last place down.
    fn last_where<F: Fn(Txn) -> bool>(&self, cell: Cell, f: &F) -> Option<usize>
        requires { (u : Txn) → IsTrue (is_writer (lists self.now cell) u.0) → F.pre f.now u }
        ensures place { (p : ℕ → Bool)
            → ((u : Txn) (b : Bool) → IsTrue (is_writer (lists self.now cell) u.0) → F.post f.now u b → b ≡ p u.0)
            → result ≡ last_place p (writers_of (lists self.now cell)) }
        ensures within { IfSome result (λ i. i < length (lists self.now cell)) }
    {
        self.last_where_from(cell, 0, f)
    }

    /// Returns the last place, from `from` on, whose writer f accepts, or `None` if f accepts none. No place below `from` is
    /// looked at.
    fn last_where_from<F: Fn(Txn) -> bool>(&self, cell: Cell, from: usize, f: &F) -> Option<usize>
        requires { (u : Txn) → IsTrue (is_writer (lists self.now cell) u.0) → F.pre f.now u }
        ensures place { (p : ℕ → Bool)
            → ((u : Txn) (b : Bool) → IsTrue (is_writer (lists self.now cell) u.0) → F.post f.now u b → b ≡ p u.0)
            → result ≡ unless_below from (last_place p (writers_of (lists self.now cell))) }
        ensures within { IfSome result (λ i. i < length (lists self.now cell)) };

    /// Returns the version of a writer, or else the last one whose writer f accepts, or `None` if there is neither. If the
    /// writer has one, f is not asked.
    fn own_or_last<F: Fn(Txn) -> bool>(&self, cell: Cell, t: Txn, f: &F) -> Option<Found>
        requires { IsFalse (is_writer (lists self.now cell) t.0) → (u : Txn) → IsTrue (is_writer (lists self.now cell) u.0) → F.pre f.now u }
        ensures place { (p : ℕ → Bool)
            → (IsFalse (is_writer (lists self.now cell) t.0) → (u : Txn) (b : Bool) → IsTrue (is_writer (lists self.now cell) u.0) → F.post f.now u b → b ≡ p u.0)
            → option_map (λ v. v.at) result ≡ spec_own_or_last t.0 p (writers_of (lists self.now cell)) }
        ensures version { IfSome result (λ v. slice_get (lists self.now cell) v.at ≡ Some (v.writer, v.value)) }
    {
        let place = match self.find(cell, t) {
            Some(own) => Some(own),
            None => self.last_where(cell, f),
        };
        match place {
            Some(at) => {
                let (writer, value) = self.at(cell, at);
                Some(Found { at, writer, value })
            }
            None => None,
        }
    }
}
