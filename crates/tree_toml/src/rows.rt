//! The starting rows of a tree text.

ghost use Rattle.std.specs.Prelude.{◌≡◌, ◌<◌, ◌^◌, [], length, map, IfOk};
ghost use Rattle.toml.specs.View.{view, table_view};
ghost use Rattle.tree_toml.specs.Reading.{Answers};
ghost use Rattle.tree_toml.specs.Rows.{row_table, row_key, row_value, row_entry, row_placed, row_in, rows_in, rows_of};

use crate::fault::{FieldWhy, Key, ListName, TreeTextError, at};
use crate::fields::{integer_at, numbered, place, required, text_at, within};
use crate::lists::{list_at, table_entry};
use std::alloc::{AllocError, Global};
use std::collections::BTreeMap;
use teb_rules::names::{Cell, MOST_ROWS, Names, Rows, Table as TableNumber};
use toml::{Table, Value};

/// Returns the starting rows. They may be in any order: n of them cost n log n.
///
/// # Errors
/// `Field`, the first fault: of the list, then of each row; a cell that has a row is `Repeated`. `OutOfMemory`: out of memory.
pub fn read_rows(alloc: Global, tables: &Names, table: &Table) -> Result<Rows, TreeTextError>
    ensures { Answers (λ rows. rows) result (rows_of tables.now (table_view table.now)) }
{
    let array = list_at(ListName::Rows, "row", Key::Rows, 0, MOST_ROWS, table)?;
    let mut rows = BTreeMap::new(alloc);
    add_rows(&mut rows, tables, array)?;
    Ok(sorted(alloc, &rows)?)
}

fn sorted(alloc: Global, rows: &BTreeMap<Cell, i64>) -> Result<Rows, AllocError>
    ensures { IfOk result (λ r. r ≡ rows.now.entries) }
{
    let mut list = Vec::with_capacity(alloc, rows.len())?;
    for (cell, value) in rows {
        list.push((*cell, *value))?;
    }
    Ok(Rows::from_sorted(list))
}

fn add_rows(
    rows: &mut BTreeMap<Cell, i64>,
    tables: &Names,
    array: &[Value],
) -> Result<(), TreeTextError>
    requires few { length array.now < 2 ^ 32 }
    requires first { rows.old.entries ≡ [] }
    ensures { Answers (λ _. rows.new.entries) result (rows_in tables.now (map view array.now)) }
{
    let mut index = 0u32;
    for value in array {
        add_row(rows, tables, index, value)?;
        index += 1;
    }
    Ok(())
}

fn add_row(
    rows: &mut BTreeMap<Cell, i64>,
    tables: &Names,
    index: u32,
    value: &Value,
) -> Result<(), TreeTextError>
    ensures { Answers (λ _. rows.new.entries) result (row_in tables.now index rows.old.entries (view value.now)) }
{
    let (cell, value) = read_row(tables, index, value)?;
    put_row(rows, index, cell, value)
}

fn put_row(
    rows: &mut BTreeMap<Cell, i64>,
    index: u32,
    cell: Cell,
    value: i64,
) -> Result<(), TreeTextError>
    ensures { Answers (λ _. rows.new.entries) result (row_placed index rows.old.entries (cell, value)) }
{
    match rows.insert(cell, value)? {
        None => Ok(()),
        Some(_) => Err(place(ListName::Rows, index, Key::Value).fault(FieldWhy::Repeated)),
    }
}

fn read_row(tables: &Names, index: u32, value: &Value) -> Result<(Cell, i64), TreeTextError>
    ensures { result ≡ row_entry tables.now index (view value.now) }
{
    let entry = table_entry(ListName::Rows, 1, index, value)?;
    let table = at(
        place(ListName::Rows, index, Key::Table),
        read_table(tables, entry),
    )?;
    let key = at(place(ListName::Rows, index, Key::CellKey), read_key(entry))?;
    let value = at(place(ListName::Rows, index, Key::Value), read_value(entry))?;
    Ok((Cell { table, key }, value))
}

fn read_table(tables: &Names, entry: &Table) -> Result<TableNumber, FieldWhy>
    ensures { result ≡ row_table tables.now (table_view entry.now) }
{
    let name = required(text_at(entry, "table")?)?;
    Ok(TableNumber(numbered(tables, name)?))
}

fn read_key(entry: &Table) -> Result<u32, FieldWhy>
    ensures { result ≡ row_key (table_view entry.now) }
{
    within(0, u32::MAX, required(integer_at(entry, "key")?)?)
}

fn read_value(entry: &Table) -> Result<i64, FieldWhy>
    ensures { result ≡ row_value (table_view entry.now) }
{
    required(integer_at(entry, "value")?)
}
