//! Rows.

ghost use Rattle.std.specs.Prelude.{◌≡◌};
ghost use Rattle.c_forms.specs.Rows.{row_form as form};

use teb_rules::names::Cell;

/// A row as C has it.
#[repr(C)]
#[derive(Clone, Copy)]
pub struct RowForm {
    pub table: u8,
    pub key: u32,
    pub value: i64,
}

/// Returns the form of a row.
pub fn row_form(row: (Cell, i64)) -> RowForm
    ensures { result ≡ form row }
{
    let (cell, value) = row;
    RowForm {
        table: cell.table.0,
        key: cell.key,
        value,
    }
}
