//! The table that records stand for.

ghost use Rattle.std.specs.Prelude.{◌≡◌, IfOk};
ghost use Rattle.teb_rules.specs.declared.names.Cell.{Cell as TheCell};
ghost use Rattle.teb_rules.specs.names.Rows.{row_of, IsAscending};
ghost use Rattle.record_journal.specs.Views.{record_lists};
ghost use Rattle.epoch_journal.specs.Telling.{table_of};

use record_journal::{Change, rows_after};
use std::alloc::{AllocError, Global};
use teb_rules::names::Cell;

/// Returns the rows after some records, of which the first is a checkpoint; the starting rows if there is none. They ascend.
pub(crate) fn table_after(
    alloc: Global,
    start: &[(Cell, i64)],
    records: &[Vec<Change>],
) -> Result<Vec<(Cell, i64)>, AllocError>
    ensures rows { IfOk result (λ rows. (x : TheCell) → row_of rows.items x ≡ table_of (row_of start.now) (record_lists records.now) x) }
    ensures ascending { IfOk result (λ rows. IsAscending rows.items) }
{
    if records.is_empty() {
        return rows_after(alloc, start, records);
    }
    rows_after(alloc, &[], records)
}
