//! The types of a tree text.

ghost use Rattle.std.specs.Prelude.{◌≡◌, ◌≤◌, ◌<◌, ◌+◌, length, map, IfOk, OnOk};
ghost use Rattle.toml.specs.View.{view, table_view};
ghost use Rattle.tree_toml.specs.Reading.{Answers};
ghost use Rattle.tree_toml.specs.Types.{no_types, type_in, types_in, types_of};
ghost use Rattle.tree_toml.specs.Seen.{types_view};

use crate::fault::{Key, ListName, TreeTextError};
use crate::fields::place;
use crate::lists::{MOST, list_at, table_entry};
use crate::names::add_entry_name;
use crate::steps::read_profile;
use std::alloc::Global;
use store_setup::profile::Profile;
use teb_rules::names::Names;
use toml::{Table, Value};

/// The names of the types, and their profiles.
#[derive(Drop)]
pub struct Types {
    pub names: Names,
    pub profiles: Vec<Profile>,
}

/// Returns the types: their names, and their profiles.
///
/// # Errors
/// `Field`, the first fault: of the list, then of each type. `OutOfMemory`: out of memory.
pub fn read_types(alloc: Global, tables: &Names, table: &Table) -> Result<Types, TreeTextError>
    requires { 0 < length tables.now }
    ensures types { Answers types_view result (types_of tables.now (table_view table.now)) }
    ensures few { IfOk result (λ types. length types.names ≤ 64) }
{
    let array = list_at(ListName::Types, "type", Key::Types, 1, MOST, table)?;
    let mut types = Types {
        names: Names::new(alloc),
        profiles: Vec::new(alloc),
    };
    add_types(alloc, tables, &mut types, array)?;
    Ok(types)
}

fn add_types(
    alloc: Global,
    tables: &Names,
    types: &mut Types,
    array: &[Value],
) -> Result<(), TreeTextError>
    requires tables { 0 < length tables.now }
    requires few { length array.now ≤ 64 }
    requires first { types_view types.old ≡ no_types }
    ensures types { Answers (λ _. types_view types.new) result (types_in tables.now (map view array.now)) }
    ensures few { OnOk result (length types.new.names ≤ 64) }
{
    let mut index = 0u32;
    for value in array {
        add_type(alloc, tables, types, index, value)?;
        index += 1;
    }
    Ok(())
}

#[tactic(auto, unfolding(crate::specs::Types::type_in))]
fn add_type(
    alloc: Global,
    tables: &Names,
    types: &mut Types,
    index: u32,
    value: &Value,
) -> Result<(), TreeTextError>
    requires tables { 0 < length tables.now }
    requires few { length types.old.names < 255 }
    ensures types { Answers (λ _. types_view types.new) result (type_in tables.now index (types_view types.old) (view value.now)) }
    ensures count { OnOk result (length types.new.names ≡ length types.old.names + 1) }
{
    let entry = table_entry(ListName::Types, 1, index, value)?;
    add_entry_name(
        &mut types.names,
        place(ListName::Types, index, Key::Name),
        entry,
    )?;
    let profile = read_profile(
        alloc,
        place(ListName::Types, index, Key::Steps),
        tables,
        entry,
    )?;
    types.profiles.push(profile)?;
    Ok(())
}
