//! Cells that were seen, each once and in ascending order.

ghost use Rattle.std.specs.Prelude.{◌≡◌, ◌<◌, ◌∷◌, [], IfOk, OnOk, length};
ghost use Rattle.serial_order.specs.Seen.{cell_at as spec_cell_at, place_of as spec_place_of, marked_cells, IsSound, AddsAll, AreSeen};

use std::alloc::{AllocError, Global};
use teb_rules::names::{Cell, Table};

/// Cells that were seen. The first keys of each table have a mark each; a cell with another key is in a list, as often as it
/// was seen.
#[derive(Drop)]
pub(crate) struct SeenCells {
    // How many keys of each table have a mark.
    width: u32,
    // The marks of one table after those of another.
    marks: Vec<bool>,
    // From here on no mark is set.
    end: usize,
    others: Vec<Cell>,
}

impl SeenCells {
    /// Returns an empty set of cells. The tables share `marks` marks evenly, and each has at least one.
    pub(crate) fn new(alloc: Global, tables: u8, marks: usize) -> Result<Self, AllocError>
        ensures { IfOk result IsSound }
    {
        let tables = usize::from(tables.max(1));
        let width = (marks / tables).clamp(1, u32::MAX as usize);
        Ok(SeenCells {
            width: width as u32,
            marks: vec![in alloc; false; tables * width]?,
            end: 0,
            others: Vec::new(alloc),
        })
    }

    /// Adds a cell.
    #[inline(always)]
    pub(crate) fn add(&mut self, cell: Cell) -> Result<(), AllocError>
        requires { IsSound self.old }
        ensures { OnOk result (AddsAll self.old self.new (cell ∷ [])) }
    {
        let place = self.place_of(cell);
        if cell.key < self.width && place < self.marks.len() {
            self.marks[place] = true;
            self.end = self.end.max(place + 1);
            Ok(())
        } else {
            self.others.push(cell)?;
            Ok(())
        }
    }

    // Returns the place of a cell's mark, if it has one.
    fn place_of(&self, cell: Cell) -> usize
        ensures { result ≡ spec_place_of self.now.width cell }
    {
        usize::from(cell.table.0) * self.width as usize + cell.key as usize
    }

    // Returns the cell whose mark is at a place.
    fn cell_at(&self, place: usize) -> Cell
        requires sound { IsSound self.now }
        requires within { place < length self.now.marks.items }
        ensures { result ≡ spec_cell_at self.now.width place }
    {
        let width = self.width as usize;
        Cell {
            table: Table((place / width) as u8),
            key: (place % width) as u32,
        }
    }

    // Returns the cells that are marked, in ascending order.
    fn marked(&self, alloc: Global) -> Result<Vec<Cell>, AllocError>
        requires { IsSound self.now }
        ensures { IfOk result (λ v. v.items ≡ marked_cells self.now.width self.now.marks.items 0 self.now.end) }
    {
        let mut cells = Vec::new(alloc);
        for place in 0..self.end {
            if self.marks[place] {
                cells.push(self.cell_at(place))?;
            }
        }
        Ok(cells)
    }

    /// Returns the cells that were added, each once, in ascending order. It goes through the places up to the last mark that is set, and
    /// sorts those that have no mark.
    pub(crate) fn ascending(mut self, alloc: Global) -> Result<Vec<Cell>, AllocError>
        requires { IsSound self }
        ensures { IfOk result (λ v. AreSeen self v.items) }
    {
        let mut cells = self.marked(alloc)?;
        if self.others.is_empty() {
            return Ok(cells);
        }
        self.others.sort_unstable();
        cells.extend_from_slice(&self.others)?;
        cells.sort()?;
        cells.dedup();
        Ok(cells)
    }
}
