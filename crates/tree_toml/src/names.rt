//! New names.

ghost use Rattle.std.specs.Prelude.{◌≡◌, ◌+◌, ◌<◌, length, OnOk};
ghost use Rattle.toml.specs.View.{table_view};
ghost use Rattle.tree_toml.specs.Reading.{Answers, Gives, at as spec_at};
ghost use Rattle.tree_toml.specs.Types.{name_in, name_text_of};
ghost use Rattle.tree_toml.specs.Names.{named};

use crate::fault::{FieldWhy, Place, TreeTextError, at};
use crate::fields::{required, text_at};
use teb_rules::names::{Names, is_name};
use toml::Table;

/// Appends a new name.
///
/// # Errors
/// `Field` at the place: `Name` if it is not a valid name, `Repeated` if it was given before. `OutOfMemory`: out of memory. The
/// names are unchanged.
#[tactic(auto, unfolding(crate::specs::Names::named))]
pub fn add_name(names: &mut Names, place: Place, name: &str) -> Result<(), TreeTextError>
    requires { length names.old < 255 }
    ensures name { Answers (λ _. names.new) result (spec_at place (named names.old name.now)) }
    ensures count { OnOk result (length names.new ≡ length names.old + 1) }
{
    if !is_name(name.as_bytes()) {
        return Err(place.fault(FieldWhy::Name));
    }
    if !names.add(name)? {
        return Err(place.fault(FieldWhy::Repeated));
    }
    Ok(())
}

/// Appends the name of an entry.
///
/// # Errors
/// `Field` at the place: `Form` if the name is no text, `Missing` if there is none, or the reason of `add_name`. `OutOfMemory`:
/// out of memory. The names are unchanged.
#[tactic(auto, unfolding(crate::specs::Types::name_in))]
pub fn add_entry_name(names: &mut Names, place: Place, entry: &Table) -> Result<(), TreeTextError>
    requires { length names.old < 255 }
    ensures name { Answers (λ _. names.new) result (name_in place names.old (table_view entry.now)) }
    ensures count { OnOk result (length names.new ≡ length names.old + 1) }
{
    let name = at(place, name_text(entry))?;
    add_name(names, place, name)
}

fn name_text(entry: &Table) -> Result<&str, FieldWhy>
    ensures { Gives (λ s. s.now) result (name_text_of (table_view entry.now)) }
{
    required(text_at(entry, "name")?)
}
