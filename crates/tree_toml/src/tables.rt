//! The format and the tables of a tree text.

ghost use Rattle.std.specs.Prelude.{◌≡◌, ◌≤◌, ◌<◌, ◌+◌, [], length, map, IfOk, OnOk};
ghost use Rattle.toml.specs.View.{view, table_view};
ghost use Rattle.tree_toml.specs.Reading.{Answers};
ghost use Rattle.tree_toml.specs.Tables.{format_of, table_in, tables_in, tables_of};

use crate::fault::{FieldWhy, Key, ListName, TreeTextError};
use crate::fields::{integer_at, place, required, within};
use crate::lists::{MOST, list_at};
use crate::names::add_name;
use std::alloc::Global;
use teb_rules::names::Names;
use toml::{Table, Value};

/// Returns the format, 1 to 3.
///
/// # Errors
/// `Form` if it is no integer, `Missing` if it is not given, `Range` if it is not 1 to 3.
pub fn read_format(table: &Table) -> Result<u8, FieldWhy>
    ensures { result ≡ format_of (table_view table.now) }
{
    let format = required(integer_at(table, "format")?)?;
    Ok(within(1, 3, format)? as u8)
}

/// Returns the names of the tables.
///
/// # Errors
/// `Field`, the first fault: of the list, then of each name. `OutOfMemory`: out of memory.
pub fn read_tables(alloc: Global, table: &Table) -> Result<Names, TreeTextError>
    ensures tables { Answers (λ names. names) result (tables_of (table_view table.now)) }
    ensures few { IfOk result (λ names. (0 < length names) × (length names ≤ 64)) }
{
    let array = list_at(ListName::Tables, "tables", Key::Tables, 1, MOST, table)?;
    let mut names = Names::new(alloc);
    add_tables(&mut names, array)?;
    Ok(names)
}

fn add_tables(names: &mut Names, array: &[Value]) -> Result<(), TreeTextError>
    requires few { length array.now ≤ 64 }
    requires first { names.old ≡ [] }
    ensures tables { Answers (λ _. names.new) result (tables_in (map view array.now)) }
    ensures count { OnOk result (length names.new ≡ length array.now) }
{
    let mut index = 0u32;
    for value in array {
        add_table(names, index, value)?;
        index += 1;
    }
    Ok(())
}

fn add_table(names: &mut Names, index: u32, value: &Value) -> Result<(), TreeTextError>
    requires { length names.old < 255 }
    ensures name { Answers (λ _. names.new) result (table_in index names.old (view value.now)) }
    ensures count { OnOk result (length names.new ≡ length names.old + 1) }
{
    let place = place(ListName::Tables, index, Key::Whole);
    match value.as_str() {
        None => Err(place.fault(FieldWhy::Form)),
        Some(name) => add_name(names, place, name),
    }
}
