//! The keys of a table of TOML, and their values in the types that a tree text requires.

ghost use Rattle.std.specs.Prelude.{◌≡◌, ◌≤◌, map, option_map, option_copied, IfOk};
ghost use Rattle.toml.specs.Data.{get_member};
ghost use Rattle.toml.specs.View.{view, table_view};
ghost use Rattle.teb_rules.specs.names.Names.{has};
ghost use Rattle.tree_toml.specs.declared.fault.ListName.TheVariants.{Top, Nodes};
ghost use Rattle.tree_toml.specs.Reading.{Gives, required as spec_required};
ghost use Rattle.tree_toml.specs.Fields.{place as spec_place, as_list as spec_as_list, keys_of, all_known as spec_all_known, text_at as spec_text_at};
ghost use Rattle.tree_toml.specs.Fields.{integer_at as spec_integer_at, array_at as spec_array_at, within as spec_within, numbered as spec_numbered};

use crate::fault::{FieldWhy, Key, ListName, Place};
use teb_rules::names::Names;
use toml::{Table, Value};

/// Returns the place of a key.
pub fn place(list: ListName, index: u32, key: Key) -> Place
    ensures { result ≡ spec_place list index key }
{
    Place { list, index, key }
}

/// Returns the value at a key, or `None` if the key is missing.
pub fn found<'a>(table: &'a Table, key: &str) -> Option<&'a Value>
    ensures { option_map (λ v. view v.now) result ≡ get_member key.now (table_view table.now) }
{
    table.get(key)
}

/// Returns the text at a key, or `None` if the key is missing.
///
/// # Errors
/// `Form` if the value at the key is no text.
pub fn text_at<'a>(table: &'a Table, key: &str) -> Result<Option<&'a str>, FieldWhy>
    ensures { Gives option_copied result (spec_text_at key.now (table_view table.now)) }
{
    match found(table, key) {
        None => Ok(None),
        Some(value) => match value.as_str() {
            None => Err(FieldWhy::Form),
            Some(text) => Ok(Some(text)),
        },
    }
}

/// Returns the integer at a key, or `None` if the key is missing.
///
/// # Errors
/// `Form` if the value at the key is no integer.
pub fn integer_at(table: &Table, key: &str) -> Result<Option<i64>, FieldWhy>
    ensures { result ≡ spec_integer_at key.now (table_view table.now) }
{
    match found(table, key) {
        None => Ok(None),
        Some(value) => match value.as_integer() {
            None => Err(FieldWhy::Form),
            Some(n) => Ok(Some(n)),
        },
    }
}

/// Returns the values of an array, or `None` if the value is no array.
#[tactic(auto, using(crate::proofs::Views::as_list_view))]
pub fn as_list(value: &Value) -> Option<&[Value]>
    ensures { option_map (λ a. map view a.now) result ≡ spec_as_list (view value.now) }
{
    match value.as_array() {
        None => None,
        Some(array) => Some(array.as_slice()),
    }
}

/// Returns the array at a key, or `None` if the key is missing.
///
/// # Errors
/// `Form` if the value at the key is no array.
pub fn array_at<'a>(table: &'a Table, key: &str) -> Result<Option<&'a [Value]>, FieldWhy>
    ensures { Gives (option_map (λ a. map view a.now)) result (spec_array_at key.now (table_view table.now)) }
{
    match found(table, key) {
        None => Ok(None),
        Some(value) => match as_list(value) {
            None => Err(FieldWhy::Form),
            Some(array) => Ok(Some(array)),
        },
    }
}

/// Returns the value that is given.
///
/// # Errors
/// `Missing` if none is given.
pub fn required<T>(given: Option<T>) -> Result<T, FieldWhy>
    ensures { result ≡ spec_required given }
{
    match given {
        None => Err(FieldWhy::Missing),
        Some(x) => Ok(x),
    }
}

/// Returns an integer that is between the two limits.
///
/// # Errors
/// `Range` if it is not.
pub fn within(low: u32, high: u32, value: i64) -> Result<u32, FieldWhy>
    ensures value { result ≡ spec_within low high value }
    ensures bound { IfOk result (λ n. n ≤ high) }
{
    match u32::try_from(value) {
        Ok(n) if low <= n && n <= high => Ok(n),
        _ => Err(FieldWhy::Range),
    }
}

/// Returns the number of a name.
///
/// # Errors
/// `NoSuch` if it is none of the names.
pub fn numbered(names: &Names, name: &str) -> Result<u8, FieldWhy>
    ensures { result ≡ spec_numbered names.now name.now }
{
    match names.number(name) {
        None => Err(FieldWhy::NoSuch),
        Some(n) => Ok(n),
    }
}

/// Returns whether the entries of a list may have this key, or the top may.
#[tactic(auto, unfolding(crate::specs::Fields::keys_of))]
fn is_known(list: ListName, format: u8, key: &str) -> bool
    ensures { result ≡ has (keys_of list format) key.now }
{
    match list {
        ListName::Top => is_top_key(key),
        ListName::Tables => false,
        ListName::Types => key == "name" || key == "steps",
        ListName::Nodes => is_node_key(key) || (format >= 2 && (key == "of" || key == "part")),
        ListName::Rows => key == "table" || key == "key" || key == "value",
    }
}

/// Returns whether all keys of a table are known.
#[tactic(auto, using(crate::proofs::Views::known_keys))]
pub fn all_known(list: ListName, format: u8, table: &Table) -> bool
    ensures { result ≡ spec_all_known list format (table_view table.now) }
{
    for key in table.keys() {
        if !is_known(list, format, key.as_str()) {
            return false;
        }
    }
    true
}

#[tactic(auto, unfolding(crate::specs::Fields::keys_of))]
fn is_top_key(key: &str) -> bool
    ensures { result ≡ has (keys_of Top 0) key.now }
{
    match key {
        "format" | "tables" | "type" | "node" | "row" => true,
        _ => false,
    }
}

#[tactic(auto, unfolding(crate::specs::Fields::keys_of))]
fn is_node_key(key: &str) -> bool
    ensures { result ≡ has (keys_of Nodes 1) key.now }
{
    match key {
        "name" | "control" | "parent" | "types" | "batch" | "commit" => true,
        _ => false,
    }
}
