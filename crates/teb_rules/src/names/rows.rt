//! The rows of tables: a map from cells to values, in ascending order of cells.

ghost use Rattle.std.specs.Prelude.{◌≡◌, ◌==◌, ◌<◌, ◌≤◌, [], List, ℤ, false, length, is_none, IsSome, Some, None, IfOk};
ghost use Rattle.std.specs.Prelude.{IfErr, OnOk, OnErr, slice_get, slice_index_or, insert, unwrap_or, if◌then◌else◌};
ghost use Rattle.teb_rules.specs.names.Cells.{same_cell};
ghost use Rattle.teb_rules.specs.declared.names.Cell.{Cell};
ghost use Rattle.teb_rules.specs.names.Rows.{row_of, insert_row, IsAscending};

use crate::names::Cell;
use std::alloc::{AllocError, Global};
use std::marker::Model;

/// The most starting rows of a store.
pub const MOST_ROWS: usize = 16_384;

/// Rows, each a cell with its value, at most one of a cell. Contracts see the list of them, which ascends by cell:
/// by table, and in one table by key.
#[derive(Drop)]
pub struct Rows {
    rows: Vec<(Cell, i64)>,
}

impl Model for Rows {
    ghost use Rattle.std.specs.Prelude.{List, ℤ};
    ghost use Rattle.teb_rules.specs.declared.names.Cell.{Cell};
    ghost use Rattle.teb_rules.specs.names.Rows.{IsAscending};

    ghost Value = { List (Cell × ℤ) };

    ghost view = { λ s. s.rows.items };

    ghost invariant = { λ s. IsAscending s.rows.items };
}

#[tactic(auto, using(crate::proofs::lemmas::names::Ascending::ascending_after, crate::proofs::lemmas::names::Ascending::row_of_new, crate::proofs::lemmas::names::Ascending::row_of_other))]
impl Rows {
    /// Returns no rows. Takes no memory.
    pub fn new(alloc: Global) -> Rows
        ensures { result ≡ [] }
    {
        Rows {
            rows: Vec::new(alloc),
        }
    }

    /// Returns the rows of a list that ascends by cell.
    pub fn from_sorted(rows: Vec<(Cell, i64)>) -> Rows
        requires { IsAscending rows.items }
        ensures { result ≡ rows.items }
    {
        Rows { rows }
    }

    /// Adds a row, and returns true; returns false if the cell already has a row, which is unchanged. A row after all others
    /// costs the search alone.
    ///
    /// # Errors
    /// `AllocError`: out of memory. The rows are unchanged.
    pub fn insert(&mut self, cell: Cell, value: i64) -> Result<bool, AllocError>
        ensures added { IfOk result (λ new. new ≡ is_none (row_of self.old cell)) }
        ensures rows { IfOk result (λ new. self.new ≡ (if new then insert_row self.old cell value else self.old)) }
        ensures err { OnErr result (self.new ≡ self.old) }

        // The value of each cell then.
        ensures ascending { IsAscending self.new }
        ensures found { OnOk result (row_of self.new cell ≡ Some (unwrap_or (row_of self.old cell) value)) }
        ensures others { (x : Cell) → same_cell cell x ≡ false → row_of self.new x ≡ row_of self.old x }
    {
        match self.place(cell) {
            Ok(_) => Ok(false),
            Err(i) => {
                self.rows.insert(i, (cell, value))?;
                Ok(true)
            }
        }
    }

    /// Returns the value of the cell's row, or `None` if it has no row.
    pub fn get(&self, cell: Cell) -> Option<i64>
        ensures { result ≡ row_of self.now cell }
    {
        match self.place(cell) {
            Ok(i) => Some(self.rows[i].1),
            Err(_) => None,
        }
    }

    /// Returns how many rows there are.
    pub fn len(&self) -> usize
        ensures { result ≡ length self.now }
    {
        self.rows.len()
    }

    pub fn is_empty(&self) -> bool
        ensures { result ≡ (length self.now == 0) }
    {
        self.rows.is_empty()
    }

    /// Returns the row at a place, from 0, in ascending order of cells.
    pub fn at(&self, i: usize) -> (Cell, i64)
        requires { i < length self.now }
        ensures { slice_get self.now i ≡ Some result }
    {
        self.rows[i]
    }

    /// Returns all rows, in ascending order of cells.
    pub fn rows(&self) -> &[(Cell, i64)]
        ensures rows { result.now ≡ self.now }
        ensures ascending { IsAscending result.now }
    {
        &self.rows
    }

    // Returns the place of the cell's row, or the place where it belongs.
    fn place(&self, cell: Cell) -> Result<usize, usize>
        ensures there { IfOk result (λ i. (i < length self.now) × IsSome (row_of self.now cell)
            × ((d : Cell × ℤ) → row_of self.now cell ≡ Some (slice_index_or self.now i d).1)) }
        ensures absent { IfErr result (λ i. (i ≤ length self.now) × (row_of self.now cell ≡ None)
            × ((v : ℤ) → insert self.now i (cell, v) ≡ insert_row self.now cell v)) }
    {
        self.rows.binary_search_by_key(&cell, |row| row.0)
    }
}
