//! The nodes of a tree.

ghost use Rattle.std.specs.Prelude.{◌≡◌, ◌++◌, ◌<◌, OnOk, length};
ghost use Rattle.std.specs.List.{flat_map};
ghost use Rattle.store_setup.specs.tree.Grown.{parent_number, row_of};
ghost use Rattle.teb_rules.specs.Tree.{below};
ghost use Rattle.tree_writer.specs.Written.{batch_setting, has_batches, node_settings, node_text, order_setting, parameter_settings, parent_setting, part_settings};

use crate::arrays::put_members;
use crate::settings::{put_header, put_name, put_number, put_text};
use line_words::control_word;
use std::alloc::AllocError;
use store_setup::tree::{NodeRow, Tree};
use teb_rules::names::{ControlKind, NameBook, Names, Node};

/// Appends the nodes, each with its settings.
pub(crate) fn put_nodes(out: &mut Vec<u8>, names: &NameBook, tree: &Tree) -> Result<(), AllocError>
    ensures { OnOk result (out.new.items ≡ out.old.items ++ flat_map (node_text names.now tree.now.rows) (below (length tree.now.rows))) }
{
    for n in 0..tree.len() {
        put_node(out, names, tree, Node(n))?;
    }
    Ok(())
}

fn put_node(out: &mut Vec<u8>, names: &NameBook, tree: &Tree, node: Node) -> Result<(), AllocError>
    requires { node.0 < length tree.now.rows }
    ensures { OnOk result (out.new.items ≡ out.old.items ++ node_text names.now tree.now.rows node.0) }
{
    put_header(out, "node")?;
    put_name(out, "name", &names.nodes, node.0)?;
    put_settings(out, names, tree.row(node))
}

fn put_settings(out: &mut Vec<u8>, names: &NameBook, row: &NodeRow) -> Result<(), AllocError>
    ensures { OnOk result (out.new.items ≡ out.old.items ++ node_settings names.now (row_of row.now)) }
{
    put_text(out, "control", control_word(row.control))?;
    put_parent(out, &names.nodes, row.parent)?;
    put_members(out, &names.types, &row.types)?;
    put_parameters(out, row)
}

fn put_parent(out: &mut Vec<u8>, nodes: &Names, parent: Option<Node>) -> Result<(), AllocError>
    ensures { OnOk result (out.new.items ≡ out.old.items ++ parent_setting nodes.now (parent_number parent)) }
{
    match parent {
        Some(parent) => put_name(out, "parent", nodes, parent.0),
        None => Ok(()),
    }
}

/// Appends the size of the batches, the order of the commits and the part of the instances, if the node has them.
fn put_parameters(out: &mut Vec<u8>, row: &NodeRow) -> Result<(), AllocError>
    ensures { OnOk result (out.new.items ≡ out.old.items ++ parameter_settings (row_of row.now)) }
{
    put_batch(out, row)?;
    put_order(out, row.ordered)?;
    put_part(out, row.part, row.of)
}

fn put_batch(out: &mut Vec<u8>, row: &NodeRow) -> Result<(), AllocError>
    ensures { OnOk result (out.new.items ≡ out.old.items ++ batch_setting (row_of row.now)) }
{
    if has_batches(row.control) {
        put_number(out, "batch", u64::from(row.batch))
    } else {
        Ok(())
    }
}

fn put_order(out: &mut Vec<u8>, ordered: bool) -> Result<(), AllocError>
    ensures { OnOk result (out.new.items ≡ out.old.items ++ order_setting ordered) }
{
    if ordered {
        put_text(out, "commit", "ordered")
    } else {
        Ok(())
    }
}

fn put_part(out: &mut Vec<u8>, part: u8, of: u8) -> Result<(), AllocError>
    ensures { OnOk result (out.new.items ≡ out.old.items ++ part_settings part of) }
{
    if of == 1 {
        return Ok(());
    }
    put_number(out, "of", u64::from(of))?;
    put_number(out, "part", u64::from(part))
}

/// True if a node with this control has batches.
fn has_batches(control: ControlKind) -> bool
    ensures { result ≡ has_batches control }
{
    match control {
        ControlKind::Timestamp | ControlKind::Snapshot => true,
        ControlKind::Locks | ControlKind::Pipeline => false,
    }
}
