//! The line of a node.

ghost use Rattle.std.specs.Prelude.{◌≡◌, ◌++◌, ◌<◌, OnOk, length, map};
ghost use Rattle.store_setup.specs.tree.Grown.{kind_numbers, row_of};
ghost use Rattle.script_text.specs.Puts.{spaced};
ghost use Rattle.script_text.specs.Texts.{name_of};
ghost use Rattle.tree_report.specs.Drawing.{batch_words, has_batch, node_line, order_words, parameter_words, part_words, type_words};

use line_words::{Word, control_word, name_at, put_next, put_spaced};
use std::alloc::AllocError;
use store_setup::tree::{NodeRow, Tree};
use teb_rules::names::{ControlKind, Kind, NameBook, Names, Node};

/// Appends the line of a node.
#[tactic(auto, using(line_words::proofs::Joined::two_words))]
pub(crate) fn put_node(
    out: &mut Vec<u8>,
    names: &NameBook,
    tree: &Tree,
    node: Node,
) -> Result<(), AllocError>
    requires { node.0 < length tree.now.rows }
    ensures { OnOk result (out.new.items ≡ out.old.items ++ node_line names.now tree.now.rows node.0) }
{
    let row = tree.row(node);
    out.extend_from_slice(name_at(&names.nodes, node.0).as_bytes())?;
    put_next(out, &Word::Text(control_word(row.control)))?;
    put_parameters(out, row)?;
    put_types(out, &names.types, &row.types)?;
    out.push(b'\n')?;
    Ok(())
}

/// Appends the parameters of a node, each after a space.
#[tactic(auto, using(line_words::proofs::Joined::spaced_append))]
fn put_parameters(out: &mut Vec<u8>, row: &NodeRow) -> Result<(), AllocError>
    ensures { OnOk result (out.new.items ≡ out.old.items ++ spaced (parameter_words (row_of row.now))) }
{
    put_batch(out, row)?;
    put_order(out, row)?;
    put_part(out, row)
}

fn put_batch(out: &mut Vec<u8>, row: &NodeRow) -> Result<(), AllocError>
    ensures { OnOk result (out.new.items ≡ out.old.items ++ spaced (batch_words (row_of row.now))) }
{
    if has_batch(row) {
        put_spaced(
            out,
            &[Word::Text("batch"), Word::Natural(u64::from(row.batch))],
        )
    } else {
        Ok(())
    }
}

fn put_order(out: &mut Vec<u8>, row: &NodeRow) -> Result<(), AllocError>
    ensures { OnOk result (out.new.items ≡ out.old.items ++ spaced (order_words (row_of row.now))) }
{
    if row.ordered {
        put_spaced(out, &[Word::Text("ordered")])
    } else {
        Ok(())
    }
}

fn put_part(out: &mut Vec<u8>, row: &NodeRow) -> Result<(), AllocError>
    ensures { OnOk result (out.new.items ≡ out.old.items ++ spaced (part_words (row_of row.now))) }
{
    if row.of == 1 {
        return Ok(());
    }
    put_spaced(
        out,
        &[
            Word::Text("part"),
            Word::Natural(u64::from(row.part)),
            Word::Text("of"),
            Word::Natural(u64::from(row.of)),
        ],
    )
}

/// True if the size of its batches has an effect.
fn has_batch(row: &NodeRow) -> bool
    ensures { result ≡ has_batch (row_of row.now) }
{
    match row.control {
        ControlKind::Timestamp | ControlKind::Snapshot => row.types.is_empty(),
        ControlKind::Locks | ControlKind::Pipeline => false,
    }
}

/// Appends the names of the types of a node, each after a space.
fn put_types(out: &mut Vec<u8>, names: &Names, types: &[Kind]) -> Result<(), AllocError>
    ensures { OnOk result (out.new.items ≡ out.old.items ++ spaced (type_words names.now (kind_numbers types.now))) }
{
    if types.is_empty() {
        return Ok(());
    }
    put_next(out, &Word::Text("types"))?;
    put_names(out, names, types)
}

fn put_names(out: &mut Vec<u8>, names: &Names, types: &[Kind]) -> Result<(), AllocError>
    ensures { OnOk result (out.new.items ≡ out.old.items ++ spaced (map (name_of names.now) (kind_numbers types.now))) }
{
    for kind in types {
        put_next(out, &Word::Text(name_at(names, kind.0)))?;
    }
    Ok(())
}
