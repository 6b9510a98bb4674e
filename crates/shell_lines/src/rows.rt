//! The text of rows.

ghost use Rattle.std.specs.Prelude.{◌≡◌, ◌++◌, IfOk, OnOk, filter};
ghost use Rattle.script_text.specs.Named.{CellNamed, RowsNamed};
ghost use Rattle.script_text.specs.Texts.{row_text, rows_text};
ghost use Rattle.shell_lines.specs.Answers.{at_most, is_of_table, is_selected, row_word, shown_rows};

use crate::RowRange;
use line_words::{Word, put_line};
use std::alloc::{AllocError, Global};
use teb_rules::names::{Cell, NameBook, Table};

/// Appends those of the rows that are asked for, and the end.
///
/// # Errors
/// `AllocError`: out of memory. A part of the text may be appended.
pub fn put_rows(
    alloc: Global,
    out: &mut Vec<u8>,
    names: &NameBook,
    range: RowRange,
    rows: &[(Cell, i64)],
) -> Result<(), AllocError>
    requires { RowsNamed names.now rows.now }
    ensures { OnOk result (out.new.items ≡ out.old.items ++ shown_rows names.now range rows.now) }
{
    let asked = asked_for(alloc, range, rows)?;
    put_each(out, names, first_of(&asked, range.count))?;
    put_line(out, &Word::Text("end"), &[])
}

/// Returns the rows that are asked for, whatever their number.
fn asked_for(
    alloc: Global,
    range: RowRange,
    rows: &[(Cell, i64)],
) -> Result<Vec<(Cell, i64)>, AllocError>
    ensures { IfOk result (λ v. v.items ≡ filter (λ r. is_selected range r.0) rows.now) }
{
    rows.iter()
        .copied()
        .filter(|row| is_selected(range, row.0))
        .collect(alloc)
}

/// True if a row of this cell is asked for.
fn is_selected(range: RowRange, cell: Cell) -> bool
    ensures { result ≡ is_selected range cell }
{
    is_of_table(range.table, cell) && range.from <= cell.key
}

fn is_of_table(table: Option<Table>, cell: Cell) -> bool
    ensures { result ≡ is_of_table table cell }
{
    match table {
        Some(table) => table.0 == cell.table.0,
        None => true,
    }
}

/// Returns the first rows, at most as many as are asked for.
fn first_of(rows: &[(Cell, i64)], count: Option<u32>) -> &[(Cell, i64)]
    ensures { result.now ≡ at_most count rows.now }
{
    match count {
        Some(count) => &rows[..rows.len().min(count as usize)],
        None => rows,
    }
}

fn put_each(out: &mut Vec<u8>, names: &NameBook, rows: &[(Cell, i64)]) -> Result<(), AllocError>
    requires { RowsNamed names.now rows.now }
    ensures { OnOk result (out.new.items ≡ out.old.items ++ rows_text names.now row_word rows.now) }
{
    for row in rows {
        put_row(out, names, *row)?;
    }
    Ok(())
}

fn put_row(out: &mut Vec<u8>, names: &NameBook, row: (Cell, i64)) -> Result<(), AllocError>
    requires { CellNamed names.now row.0 }
    ensures { OnOk result (out.new.items ≡ out.old.items ++ row_text names.now row_word row) }
{
    let (cell, value) = row;
    let table = Word::Text(names.tables.name(cell.table.0));
    let key = Word::Natural(u64::from(cell.key));
    put_line(out, &Word::Text("row"), &[table, key, Word::Value(value)])
}
