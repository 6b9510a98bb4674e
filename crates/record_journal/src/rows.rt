//! The rows that records leave.

ghost use Rattle.std.specs.Prelude.{◌≡◌, OnOk, IfOk};
ghost use Rattle.std.specs.BTreeMap.{get};
ghost use Rattle.teb_rules.specs.declared.names.Cell.{Cell as TheCell};
ghost use Rattle.teb_rules.specs.names.Rows.{row_of, IsAscending};
ghost use Rattle.teb_rules.specs.Replay.{put_in};
ghost use Rattle.record_journal.specs.Journal.{after_changes, after_records};
ghost use Rattle.record_journal.specs.Views.{record_lists};

use crate::Change;
use std::alloc::{AllocError, Global};
use std::collections::BTreeMap;
use teb_rules::names::Cell;

/// Returns the rows after some records, in ascending order of their cells.
///
/// # Errors
/// `AllocError`: out of memory.
pub fn rows_after(
    alloc: Global,
    start: &[(Cell, i64)],
    records: &[Vec<Change>],
) -> Result<Vec<(Cell, i64)>, AllocError>
    ensures rows { IfOk result (λ rows. (x : TheCell) → row_of rows.items x ≡ after_records (record_lists records.now) (row_of start.now) x) }
    ensures ascending { IfOk result (λ rows. IsAscending rows.items) }
{
    let mut rows = first_rows(alloc, start)?;
    for record in records {
        put_rows(&mut rows, record)?;
    }
    listed(alloc, &rows)
}

// Applies one change: a value for a cell, or no row.
fn put_row(rows: &mut BTreeMap<Cell, i64>, change: Change) -> Result<(), AllocError>
    ensures { OnOk result ((x : TheCell) → get ⟦<Cell as Ord>⟧.cmp rows.new x ≡ put_in change.cell change.value (get ⟦<Cell as Ord>⟧.cmp rows.old) x) }
{
    match change.value {
        Some(value) => {
            rows.insert(change.cell, value)?;
        }
        None => {
            rows.remove(&change.cell);
        }
    }
    Ok(())
}

fn put_rows(rows: &mut BTreeMap<Cell, i64>, changes: &[Change]) -> Result<(), AllocError>
    ensures { OnOk result ((x : TheCell) → get ⟦<Cell as Ord>⟧.cmp rows.new x ≡ after_changes changes.now (get ⟦<Cell as Ord>⟧.cmp rows.old) x) }
{
    for change in changes {
        put_row(rows, *change)?;
    }
    Ok(())
}

// Returns the starting rows. Of two rows of one cell the first counts.
fn first_rows(alloc: Global, start: &[(Cell, i64)]) -> Result<BTreeMap<Cell, i64>, AllocError>
    ensures { IfOk result (λ rows. (x : TheCell) → get ⟦<Cell as Ord>⟧.cmp rows x ≡ row_of start.now x) }
{
    let mut rows = BTreeMap::new(alloc);
    let mut i = start.len();
    while i > 0 {
        i -= 1;
        let (cell, value) = start[i];
        put_row(
            &mut rows,
            Change {
                cell,
                value: Some(value),
            },
        )?;
    }
    Ok(rows)
}

fn listed(alloc: Global, rows: &BTreeMap<Cell, i64>) -> Result<Vec<(Cell, i64)>, AllocError>
    ensures entries { IfOk result (λ list. list.items ≡ rows.now.entries) }
    ensures rows { IfOk result (λ list. (x : TheCell) → row_of list.items x ≡ get ⟦<Cell as Ord>⟧.cmp rows.now x) }
    ensures ascending { IfOk result (λ list. IsAscending list.items) }
{
    let mut list = Vec::new(alloc);
    for (cell, value) in rows {
        list.push((*cell, *value))?;
    }
    Ok(list)
}
