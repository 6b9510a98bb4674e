//! The part of its types' instances that a node takes.

ghost use Rattle.std.specs.Prelude.{◌≡◌};
ghost use Rattle.toml.specs.View.{table_view};
ghost use Rattle.store_setup.specs.tree.Grown.{kind_numbers};
ghost use Rattle.tree_toml.specs.Nodes.{parts_of, part_of, share_of, share_for as spec_share_for};
ghost use Rattle.tree_toml.specs.Reading.{Gives};
ghost use Rattle.tree_toml.specs.Seen.{share_view};

use crate::fault::{FieldWhy, Key, ListName, TreeTextError, at};
use crate::fields::{integer_at, place, required, within};
use crate::node_fields::has_key;
use teb_rules::names::Kind;
use toml::Table;

/// A part, from 0, and the number of parts.
#[derive(Clone, Copy)]
pub struct Share {
    pub part: u8,
    pub parts: u8,
}

const WHOLE: Share = Share { part: 0, parts: 1 };

/// Returns the share of a node. Both of its keys are given, or neither.
///
/// # Errors
/// `Field` at `of`, or else at `part`: `Form` if it is no integer, `Missing` if only the other is given, `Range` if it is outside
/// its limits.
pub fn read_share(index: u32, entry: &Table) -> Result<Share, TreeTextError>
    ensures { Gives share_view result (share_of index (table_view entry.now)) }
{
    if !has_key(entry, "of") && !has_key(entry, "part") {
        return Ok(WHOLE);
    }
    let parts = at(place(ListName::Nodes, index, Key::Of), read_parts(entry))?;
    let part = at(
        place(ListName::Nodes, index, Key::Part),
        read_part(parts, entry),
    )?;
    Ok(Share { part, parts })
}

fn read_parts(entry: &Table) -> Result<u8, FieldWhy>
    ensures { result ≡ parts_of (table_view entry.now) }
{
    let parts = required(integer_at(entry, "of")?)?;
    Ok(within(2, 16, parts)? as u8)
}

fn read_part(parts: u8, entry: &Table) -> Result<u8, FieldWhy>
    ensures { result ≡ part_of parts (table_view entry.now) }
{
    let part = required(integer_at(entry, "part")?)?;
    Ok(within(0, u32::from(parts).saturating_sub(1), part)? as u8)
}

/// Returns the share of a node with these types. A node without types is in no parts.
pub fn share_for(types: &[Kind], share: Share) -> Share
    ensures { share_view result ≡ spec_share_for (kind_numbers types.now) (share_view share) }
{
    match types {
        [] => WHOLE,
        _ => share,
    }
}
