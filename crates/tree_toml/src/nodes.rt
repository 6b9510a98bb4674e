//! The nodes of a tree text. They are read in two passes, so that every name is known when a parent is read.

ghost use Rattle.std.specs.Prelude.{◌≡◌, ◌≤◌, ◌<◌, ◌+◌, [], length, map, OnOk};
ghost use Rattle.toml.specs.View.{view, table_view};
ghost use Rattle.store_setup.specs.tree.Grown.{row_of, rows_of, parent_number};
ghost use Rattle.tree_toml.specs.Reading.{Answers};
ghost use Rattle.tree_toml.specs.Nodes.{node_name, node_names, node_row, leaf_row, node_in, node_rows, nodes_of};
ghost use Rattle.tree_toml.specs.Seen.{nodes_view};

use crate::fault::{Key, ListName, TreeTextError, at};
use crate::fields::place;
use crate::lists::{MOST, entry, list_at, table_entry};
use crate::members::read_members;
use crate::names::add_entry_name;
use crate::node_fields::{own_keys, read_batch, read_commit, read_control, read_parent};
use crate::shares::{read_share, share_for};
use std::alloc::Global;
use store_setup::tree::NodeRow;
use teb_rules::names::{ControlKind, Names, Node};
use toml::{Table, Value};

/// The names and the rows of the nodes.
#[derive(Drop)]
pub struct Nodes {
    pub names: Names,
    pub rows: Vec<NodeRow>,
}

/// Returns the nodes: their names, and their rows.
///
/// # Errors
/// `Field`, the first fault: of the list, then of the keys and the names of all nodes, then of the other values of each node.
/// `OutOfMemory`: out of memory.
pub fn read_nodes(
    alloc: Global,
    format: u8,
    types: &Names,
    table: &Table,
) -> Result<Nodes, TreeTextError>
    ensures { Answers nodes_view result (nodes_of format types.now (table_view table.now)) }
{
    let array = list_at(ListName::Nodes, "node", Key::Nodes, 1, MOST, table)?;
    let names = read_names(alloc, format, array)?;
    let rows = read_rows(alloc, types, &names, array)?;
    Ok(Nodes { names, rows })
}

fn read_names(alloc: Global, format: u8, array: &[Value]) -> Result<Names, TreeTextError>
    requires { length array.now ≤ 64 }
    ensures { Answers (λ names. names) result (node_names format (map view array.now)) }
{
    let mut names = Names::new(alloc);
    add_names(&mut names, format, array)?;
    Ok(names)
}

fn add_names(names: &mut Names, format: u8, array: &[Value]) -> Result<(), TreeTextError>
    requires few { length array.now ≤ 64 }
    requires first { names.old ≡ [] }
    ensures { Answers (λ _. names.new) result (node_names format (map view array.now)) }
{
    let mut index = 0u32;
    for value in array {
        add_name(names, format, index, value)?;
        index += 1;
    }
    Ok(())
}

fn add_name(names: &mut Names, format: u8, index: u32, value: &Value) -> Result<(), TreeTextError>
    requires { length names.old < 255 }
    ensures name { Answers (λ _. names.new) result (node_name format index names.old (view value.now)) }
    ensures count { OnOk result (length names.new ≡ length names.old + 1) }
{
    let entry = table_entry(ListName::Nodes, format, index, value)?;
    add_entry_name(names, place(ListName::Nodes, index, Key::Name), entry)
}

fn read_rows(
    alloc: Global,
    types: &Names,
    nodes: &Names,
    array: &[Value],
) -> Result<Vec<NodeRow>, TreeTextError>
    requires { length array.now ≤ 64 }
    ensures { Answers (λ v. rows_of v.items) result (node_rows types.now nodes.now (map view array.now)) }
{
    let mut rows = Vec::new(alloc);
    add_rows(alloc, &mut rows, types, nodes, array)?;
    Ok(rows)
}

fn add_rows(
    alloc: Global,
    rows: &mut Vec<NodeRow>,
    types: &Names,
    nodes: &Names,
    array: &[Value],
) -> Result<(), TreeTextError>
    requires few { length array.now ≤ 64 }
    requires first { rows.old.items ≡ [] }
    ensures { Answers (λ _. rows_of rows.new.items) result (node_rows types.now nodes.now (map view array.now)) }
{
    let mut index = 0u32;
    for value in array {
        add_row(alloc, rows, types, nodes, index, value)?;
        index += 1;
    }
    Ok(())
}

#[tactic(auto, using(crate::proofs::Numbers::rows_pushed))]
fn add_row(
    alloc: Global,
    rows: &mut Vec<NodeRow>,
    types: &Names,
    nodes: &Names,
    index: u32,
    value: &Value,
) -> Result<(), TreeTextError>
    ensures { Answers (λ _. rows_of rows.new.items) result (node_in types.now nodes.now index (rows_of rows.old.items) (view value.now)) }
{
    let row = read_row(alloc, types, nodes, index, value)?;
    rows.push(row)?;
    Ok(())
}

#[tactic(auto, unfolding(crate::specs::Nodes::node_row))]
fn read_row(
    alloc: Global,
    types: &Names,
    nodes: &Names,
    index: u32,
    value: &Value,
) -> Result<NodeRow, TreeTextError>
    ensures { Answers row_of result (node_row types.now nodes.now index (view value.now)) }
{
    let whole = place(ListName::Nodes, index, Key::Whole);
    let entry = entry(whole, value)?;
    let control = at(
        place(ListName::Nodes, index, Key::Control),
        read_control(entry),
    )?;
    at(whole, own_keys(control, entry))?;
    let parent = at(
        place(ListName::Nodes, index, Key::Parent),
        read_parent(nodes, entry),
    )?;
    read_leaf(alloc, types, index, control, parent, entry)
}

// Reads the rest of a row, after its control and its parent.
#[tactic(auto, unfolding(crate::specs::Nodes::leaf_row))]
fn read_leaf(
    alloc: Global,
    types: &Names,
    index: u32,
    control: ControlKind,
    parent: Option<Node>,
    entry: &Table,
) -> Result<NodeRow, TreeTextError>
    ensures { Answers row_of result (leaf_row types.now index control (parent_number parent) (table_view entry.now)) }
{
    let members = read_members(
        alloc,
        place(ListName::Nodes, index, Key::Members),
        types,
        entry,
    )?;
    let batch = at(place(ListName::Nodes, index, Key::Batch), read_batch(entry))?;
    let ordered = at(
        place(ListName::Nodes, index, Key::Commit),
        read_commit(entry),
    )?;
    let share = share_for(&members, read_share(index, entry)?);
    Ok(NodeRow {
        control,
        parent,
        types: members,
        batch,
        ordered,
        part: share.part,
        of: share.parts,
    })
}
