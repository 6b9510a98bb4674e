//! The lists of a tree text, and their entries.

ghost use Rattle.std.specs.Prelude.{◌≡◌, ◌≤◌, ◌<◌, ◌^◌, length, map, IfOk};
ghost use Rattle.toml.specs.Data.{as_table};
ghost use Rattle.toml.specs.View.{view, table_view};
ghost use Rattle.tree_toml.specs.Reading.{Gives, at as spec_at, each, formed};
ghost use Rattle.tree_toml.specs.Fields.{is_entry as spec_is_entry, entry_form, counted_at as spec_counted_at, list_at as spec_list_at, table_entry as spec_table_entry};

use crate::fault::{FieldWhy, Key, ListName, Place, TreeTextError, at};
use crate::fields::{all_known, array_at, place};
use toml::{Table, Value};

/// The most tables, types and nodes of a tree.
pub const MOST: usize = 64;

/// Returns the entries of the list at this key of the top: `least` to `most` of them, each of the list's form. A list that may be
/// empty may be left out.
///
/// # Errors
/// `Field` at the key: `Form` if its value is no array, `Missing` if it is left out and `least` is not 0, `Many` if the array has
/// fewer than `least` or more than `most` entries. Else `Field` with `Form` at the first entry of another form.
pub fn list_at<'a>(
    list: ListName,
    word: &str,
    key: Key,
    least: usize,
    most: usize,
    table: &'a Table,
) -> Result<&'a [Value], TreeTextError>
    requires { most < 2 ^ 32 }
    ensures list { Gives (λ a. map view a.now) result (spec_list_at list word.now key least most (table_view table.now)) }
    ensures count { IfOk result (λ a. (least ≤ length a.now) × (length a.now ≤ most)) }
{
    let array = at(
        place(ListName::Top, 0, key),
        counted_at(word, least, most, table),
    )?;
    check_entries(list, array)?;
    Ok(array)
}

fn counted_at<'a>(
    word: &str,
    least: usize,
    most: usize,
    table: &'a Table,
) -> Result<&'a [Value], FieldWhy>
    ensures list { Gives (λ a. map view a.now) result (spec_counted_at word.now least most (table_view table.now)) }
    ensures count { IfOk result (λ a. (least ≤ length a.now) × (length a.now ≤ most)) }
{
    match array_at(table, word)? {
        None if least == 0 => Ok(&[]),
        None => Err(FieldWhy::Missing),
        Some(array) if least <= array.len() && array.len() <= most => Ok(array),
        Some(_) => Err(FieldWhy::Many),
    }
}

fn check_entries(list: ListName, array: &[Value]) -> Result<(), TreeTextError>
    requires { length array.now < 2 ^ 32 }
    ensures { Gives (λ u. u) result (each (entry_form list) 0 tt (map view array.now)) }
{
    let mut index = 0u32;
    for value in array {
        if !is_entry(list, value) {
            return Err(place(list, index, Key::Whole).fault(FieldWhy::Form));
        }
        index += 1;
    }
    Ok(())
}

fn is_entry(list: ListName, value: &Value) -> bool
    ensures { result ≡ spec_is_entry list (view value.now) }
{
    match list {
        ListName::Tables => value.is_str(),
        _ => value.is_table(),
    }
}

/// Returns an entry that is a table of TOML with known keys only.
///
/// # Errors
/// `Field` at the entry: `Form` if it is no table, `Unknown` if it has another key.
pub fn table_entry(
    list: ListName,
    format: u8,
    index: u32,
    value: &Value,
) -> Result<&Table, TreeTextError>
    ensures { Gives (λ t. table_view t.now) result (spec_table_entry list format index (view value.now)) }
{
    let whole = place(list, index, Key::Whole);
    let table = entry(whole, value)?;
    if !all_known(list, format, table) {
        return Err(whole.fault(FieldWhy::Unknown));
    }
    Ok(table)
}

/// Returns an entry that is a table of TOML.
///
/// # Errors
/// `Field` at the place, with `Form`, if it is none.
pub fn entry(place: Place, value: &Value) -> Result<&Table, TreeTextError>
    ensures { Gives (λ t. table_view t.now) result (spec_at place (formed (as_table (view value.now)))) }
{
    match value.as_table() {
        None => Err(place.fault(FieldWhy::Form)),
        Some(table) => Ok(table),
    }
}
