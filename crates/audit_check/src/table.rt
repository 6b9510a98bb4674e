//! A table of values, by row key.

ghost use Rattle.std.specs.Prelude.{◌≡◌, ◌∷◌, List, OnOk, IfOk};
ghost use Rattle.audit_check.specs.Items.{Item};
ghost use Rattle.audit_check.specs.Keeps.{HoldsTable, value_at};
ghost use Rattle.audit_check.specs.Tables.{Values, put_at, starts_in};
ghost use Rattle.audit_check.specs.Views.{views, line_view, row_key_view};

use super::line::{Line, RowKey};
use indexmap::IndexMap;
use std::alloc::{AllocError, Global};

/// The values of rows, by row key. A row key without a row may be in it.
pub struct Table<'a> {
    values: IndexMap<RowKey<'a>, Option<i64>>,
}

/// Hand-written `Drop`, so that callers do not re-prove the drop glue.
impl<'a> Drop for Table<'a> {
    fn drop(self) {
        let Table { values: _values } = self;
    }
}

/// Returns the table of the starting rows.
///
/// # Errors
/// `AllocError`: out of memory.
pub fn starting_table<'a>(alloc: Global, lines: &[Line<'a>]) -> Result<Table<'a>, AllocError>
    ensures { IfOk result (λ t. HoldsTable t.values.entries (starts_in (views lines.now))) }
{
    let mut table = Table {
        values: IndexMap::new(alloc),
    };
    for line in lines {
        put_start(&mut table, line)?;
    }
    Ok(table)
}

fn put_start<'a>(table: &mut Table<'a>, line: &Line<'a>) -> Result<(), AllocError>
    ensures { OnOk result ((past : List Item) → HoldsTable table.old.values.entries (starts_in past) → HoldsTable table.new.values.entries (starts_in (line_view line.now ∷ past))) }
{
    match line {
        Line::Start(row_key, value) => put(table, *row_key, Some(*value)),
        _ => Ok(()),
    }
}

/// Sets the value at a row key. `None` removes the row.
///
/// # Errors
/// `AllocError`: out of memory.
pub fn put<'a>(
    table: &mut Table<'a>,
    row_key: RowKey<'a>,
    value: Option<i64>,
) -> Result<(), AllocError>
    ensures { OnOk result ((T : Values) → HoldsTable table.old.values.entries T → HoldsTable table.new.values.entries (put_at (row_key_view row_key.entry) value T)) }
{
    table.values.insert(row_key, value)?;
    Ok(())
}

/// Returns the value at a row key, or `None` if there is no row.
pub fn value_at(table: &Table, row_key: RowKey) -> Option<i64>
    ensures { result ≡ value_at table.now.values.entries row_key.entry }
{
    match table.values.get(&row_key) {
        Some(value) => *value,
        None => None,
    }
}
