//! The final tables.

ghost use Rattle.std.specs.Prelude.{◌≡◌, ◌<◌, ℕ, ◌++◌, reverse, slice_get, Some, IfOk, IfSome, OnOk};
ghost use Rattle.std.specs.Option.{option_map};
ghost use Rattle.teb_rules.specs.names.Rows.{IsAscending};
ghost use Rattle.teb_rules.specs.history.Phases.{begun_count, committed};
ghost use Rattle.version_chain.specs.Lists.{writers_of, last_place};
ghost use Rattle.phase_api.specs.FactsView.{events_of};
ghost use Rattle.serial_order.specs.Tables.{cells_put, rows_before, rows_behind, merged_rows, AreCells};
ghost use Rattle.teb_rules.specs.Epochs.{AreFinalRows};
ghost use Rattle.serial_order.specs.Seen.{IsSound, AddsAll};

use crate::end_state::EndState;
use crate::seen_cells::SeenCells;
use engine_core::Engine;
use phase_api::Facts;
use std::alloc::{AllocError, Global};
use std::cmp::Ordering;
use teb_rules::history::Event;
use teb_rules::names::{Cell, Txn};
use version_chain::{Chains, Found};

/// Returns the rows of the final tables, in ascending order of cells: for each cell the value of its last committed version, or of its
/// starting row. A deleted row is left out.
///
/// It walks over the events and the starting rows. Cells with keys too great for a mark are sorted. A cell that was put also costs the
/// versions after its last committed one, which are of unfinished transactions.
///
/// # Errors
/// Out of memory.
pub fn tables<C: Chains>(alloc: Global, engine: &Engine<C>) -> Result<Vec<(Cell, i64)>, AllocError>
    ensures { IfOk result (λ v. AreFinalRows engine.now.store engine.now.events v.items) }
{
    let setup = engine.setup();
    let facts = Facts {
        history: engine.history(),
        tree: &setup.tree,
        profiles: &setup.profiles,
    };
    let state = EndState {
        facts: &facts,
        chains: engine.chains(),
        rows: &setup.rows,
        tables: setup.names.tables.len(),
    };
    state.rows_left(alloc)
}

impl<'a, C: Chains> EndState<'a, C> {
    ghost use Rattle.serial_order.specs.EndState.{left, store};

    // Returns the rows of the final tables, with any number of tables.
    fn rows_left(&self, alloc: Global) -> Result<Vec<(Cell, i64)>, AllocError>
        ensures { (tables : ℕ) → IfOk result (λ v. AreFinalRows (store self.now tables) (events_of self.now.facts.now) v.items) }
    {
        let cells = self.cells(alloc)?;
        self.rows_of(alloc, &cells)
    }

    // Returns the cells that were put, each once, in ascending order. There are as many marks as events, so they cost no more than
    // the walk over these.
    fn cells(&self, alloc: Global) -> Result<Vec<Cell>, AllocError>
        ensures { IfOk result (λ v. AreCells (left self.now) self.now.rows.now v.items) }
    {
        let mut seen = SeenCells::new(alloc, self.tables, self.facts.history.len())?;
        self.add_puts(&mut seen)?;
        seen.ascending(alloc)
    }

    // Adds the cells that were put.
    fn add_puts(&self, seen: &mut SeenCells) -> Result<(), AllocError>
        requires { IsSound seen.old }
        ensures { OnOk result (AddsAll seen.old seen.new (cells_put (reverse (events_of self.now.facts.now)))) }
    {
        for event in self.facts.history.events() {
            if let Event::Put { cell, .. } = event {
                seen.add(*cell)?;
            }
        }
        Ok(())
    }

    // Returns the starting rows, with what is left in these cells in the place of theirs.
    fn rows_of(&self, alloc: Global, cells: &[Cell]) -> Result<Vec<(Cell, i64)>, AllocError>
        ensures rows { IfOk result (λ v. v.items ≡ merged_rows (left self.now) self.now.rows.now cells.now) }
        ensures ascending { IsAscending self.now.rows.now }
    {
        let mut starting = self.rows.rows();
        let mut rows = Vec::with_capacity(alloc, cells.len().max(starting.len()))?;
        for cell in cells {
            starting = pass_rows(&mut rows, starting, *cell)?;
            if let Some(value) = self.value(*cell) {
                rows.push((*cell, value))?;
            }
        }
        rows.extend_from_slice(starting)?;
        Ok(rows)
    }

    // Returns the value of the last committed version of a cell, or else of its starting row. It costs the later versions, which
    // are of unfinished transactions.
    fn value(&self, cell: Cell) -> Option<i64>
        ensures { result ≡ left self.now cell }
    {
        match self.last_committed(cell) {
            Some(found) => found.value,
            None => self.rows.get(cell),
        }
    }

    // Returns the last version whose writer is committed.
    fn last_committed(&self, cell: Cell) -> Option<Found>
        ensures place { option_map (λ v. v.at) result ≡ last_place (committed (events_of self.now.facts.now)) (writers_of (C.lists self.now.chains.now cell)) }
        ensures version { IfSome result (λ v. slice_get (C.lists self.now.chains.now cell) v.at ≡ Some (v.writer, v.value)) }
    {
        let history = self.facts.history;
        self.chains
            .own_or_last(cell, self.nobody(), &|w: Txn| history.is_committed(w))
    }

    // Returns a transaction that has no version: the one that would begin next, of which the chains tell that without a look-up, or 0.
    fn nobody(&self) -> Txn
        ensures { 0 < result.0 → begun_count (events_of self.now.facts.now) < result.0 }
    {
        Txn(self.facts.history.begun().wrapping_add(1))
    }
}

// Adds the starting rows before a cell, and returns those after it.
#[inline(always)]
fn pass_rows<'r>(
    rows: &mut Vec<(Cell, i64)>,
    starting: &'r [(Cell, i64)],
    cell: Cell,
) -> Result<&'r [(Cell, i64)], AllocError>
    ensures passed { OnOk result (rows.new.items ≡ rows.old.items ++ rows_before cell starting.now) }
    ensures left { IfOk result (λ r. r.now ≡ rows_behind cell starting.now) }
{
    let mut left = starting;
    while let [row, behind @ ..] = left {
        match row.0.cmp(&cell) {
            Ordering::Less => rows.push(*row)?,
            Ordering::Equal => return Ok(behind),
            Ordering::Greater => return Ok(left),
        }
        left = behind;
    }
    Ok(left)
}
