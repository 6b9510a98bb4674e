//! The types of a node.

ghost use Rattle.std.specs.Prelude.{◌≡◌, [], map};
ghost use Rattle.toml.specs.View.{view, table_view};
ghost use Rattle.store_setup.specs.tree.Grown.{kind_numbers};
ghost use Rattle.tree_toml.specs.Reading.{Answers, Gives};
ghost use Rattle.tree_toml.specs.Nodes.{texts_form as spec_texts_form, member_of, member_in, members_from, members_in};

use crate::fault::{FieldWhy, Place, TreeTextError, at};
use crate::fields::{array_at, numbered};
use crate::steps::are_texts;
use std::alloc::Global;
use teb_rules::names::{Kind, Names};
use toml::{Table, Value};

/// Returns the types of a node: none if they are not given.
///
/// # Errors
/// `Field` at the place: `Form` if `types` is no array of texts, `NoSuch` if a text is the name of no type. `OutOfMemory`: out of
/// memory.
pub fn read_members(
    alloc: Global,
    place: Place,
    types: &Names,
    entry: &Table,
) -> Result<Vec<Kind>, TreeTextError>
    ensures { Answers (λ v. kind_numbers v.items) result (members_in place types.now (table_view entry.now)) }
{
    let array = at(place, texts_form(entry))?;
    let mut members = Vec::new(alloc);
    add_members(&mut members, place, types, array)?;
    Ok(members)
}

fn texts_form(entry: &Table) -> Result<&[Value], FieldWhy>
    ensures { Gives (λ a. map view a.now) result (spec_texts_form (table_view entry.now)) }
{
    match array_at(entry, "types")? {
        None => Ok(&[]),
        Some(array) if are_texts(array) => Ok(array),
        Some(_) => Err(FieldWhy::Form),
    }
}

fn add_members(
    members: &mut Vec<Kind>,
    place: Place,
    types: &Names,
    array: &[Value],
) -> Result<(), TreeTextError>
    requires { members.old.items ≡ [] }
    ensures { Answers (λ _. kind_numbers members.new.items) result (members_from place types.now (map view array.now)) }
{
    for value in array {
        add_member(members, place, types, value)?;
    }
    Ok(())
}

#[tactic(auto, using(crate::proofs::Numbers::kinds_pushed))]
fn add_member(
    members: &mut Vec<Kind>,
    place: Place,
    types: &Names,
    value: &Value,
) -> Result<(), TreeTextError>
    ensures { Answers (λ _. kind_numbers members.new.items) result (member_in place types.now 0 (kind_numbers members.old.items) (view value.now)) }
{
    let kind = at(place, member(types, value))?;
    members.push(kind)?;
    Ok(())
}

fn member(types: &Names, value: &Value) -> Result<Kind, FieldWhy>
    ensures { Gives (λ k. k.0) result (member_of types.now (view value.now)) }
{
    match value.as_str() {
        None => Err(FieldWhy::Form),
        Some(name) => Ok(Kind(numbered(types, name)?)),
    }
}
