//! The drawing of a tree.

ghost use Rattle.std.specs.Prelude.{◌≡◌, ◌++◌, ◌<◌, IfOk, OnOk, length};
ghost use Rattle.std.specs.List.{All};
ghost use Rattle.store_setup.specs.tree.Grown.{node_numbers, row_of};
ghost use Rattle.teb_rules.specs.Accepted.{is_child_of};
ghost use Rattle.tree_report.specs.Drawing.{IsBranch, branch, children, one_child, drawing, drawn, node_line, stem};

use crate::node_line::put_node;
use std::alloc::{AllocError, Global};
use store_setup::tree::{NodeRow, Tree};
use teb_rules::names::{NameBook, Node};

/// Precedes a node that has a later sibling.
const BRANCH: &str = "├── ";
/// Precedes the last node of a parent.
const CORNER: &str = "└── ";
/// Precedes the lines below a node that has a later sibling.
const LINE: &str = "│   ";
/// Precedes the lines below the last node of a parent.
const SPACE: &str = "    ";

/// The most levels of a tree.
const MOST_LEVELS: u8 = 8;

/// Appends the drawing of a tree: a line for each node, with its name, its control, its parameters and the names of its types.
///
/// # Errors
/// `AllocError`: out of memory. A part of the drawing may be appended.
pub fn put_tree(
    alloc: Global,
    out: &mut Vec<u8>,
    names: &NameBook,
    tree: &Tree,
) -> Result<(), AllocError>
    ensures { OnOk result (out.new.items ≡ out.old.items ++ drawing names.now tree.now.rows) }
{
    // Its contract tells that the tree has a node.
    let _some = tree.len();
    put_node(out, names, tree, Node(0))?;
    put_below(alloc, out, names, tree, Node(0), b"", MOST_LEVELS)
}

/// Appends what is below a node, at most this many levels, each line after a prefix.
fn put_below(
    alloc: Global,
    out: &mut Vec<u8>,
    names: &NameBook,
    tree: &Tree,
    node: Node,
    prefix: &[u8],
    levels: u8,
) -> Result<(), AllocError>
    ensures { OnOk result (out.new.items ≡ out.old.items ++ drawn names.now tree.now.rows levels prefix.now node.0) }
{
    if levels == 0 {
        return Ok(());
    }
    let nodes = children(alloc, tree, node)?;
    for i in 0..nodes.len() {
        let drawn = put_branch(alloc, out, names, tree, &nodes[i..], prefix)?;
        put_below(alloc, out, names, tree, drawn.node, &drawn.stem, levels - 1)?;
    }
    Ok(())
}

/// A node whose line is drawn, and the prefix of the lines below it.
#[derive(Drop)]
struct DrawnNode {
    node: Node,
    stem: Vec<u8>,
}

/// Appends the line of the first of some nodes with the same parent.
fn put_branch(
    alloc: Global,
    out: &mut Vec<u8>,
    names: &NameBook,
    tree: &Tree,
    nodes: &[Node],
    prefix: &[u8],
) -> Result<DrawnNode, AllocError>
    requires some { 0 < length nodes.now }
    requires within { All (λ n. n.0 < length tree.now.rows) nodes.now }
    ensures { IfOk result (λ b. IsBranch names.now tree.now.rows (node_numbers nodes.now) prefix.now out.old.items out.new.items b.node.0 b.stem.items) }
{
    match nodes {
        [node, rest @ ..] => {
            let stem = put_one(alloc, out, names, tree, *node, rest.is_empty(), prefix)?;
            Ok(DrawnNode { node: *node, stem })
        }
        [] => unreachable!(),
    }
}

/// Appends the line of a node after a prefix and its branch. Returns the prefix of the lines below it.
fn put_one(
    alloc: Global,
    out: &mut Vec<u8>,
    names: &NameBook,
    tree: &Tree,
    node: Node,
    is_last: bool,
    prefix: &[u8],
) -> Result<Vec<u8>, AllocError>
    requires { node.0 < length tree.now.rows }
    ensures drawn { OnOk result (out.new.items ≡ out.old.items ++ ((prefix.now ++ branch is_last) ++ node_line names.now tree.now.rows node.0)) }
    ensures stem { IfOk result (λ v. v.items ≡ prefix.now ++ stem is_last) }
{
    out.extend_from_slice(prefix)?;
    out.extend_from_slice(branch(is_last).as_bytes())?;
    put_node(out, names, tree, node)?;
    joined(alloc, prefix, stem(is_last))
}

/// Returns the nodes below a node, in ascending number.
fn children(alloc: Global, tree: &Tree, node: Node) -> Result<Vec<Node>, AllocError>
    ensures nodes { IfOk result (λ v. node_numbers v.items ≡ children tree.now.rows node.0) }
    ensures within { IfOk result (λ v. All (λ n. n.0 < length tree.now.rows) v.items) }
{
    let mut nodes = Vec::new(alloc);
    for n in 0..tree.len() {
        push_child(&mut nodes, tree, node, Node(n))?;
    }
    Ok(nodes)
}

/// Adds a node, if its parent is this one.
fn push_child(
    nodes: &mut Vec<Node>,
    tree: &Tree,
    parent: Node,
    child: Node,
) -> Result<(), AllocError>
    requires { child.0 < length tree.now.rows }
    ensures nodes { OnOk result (node_numbers nodes.new.items ≡ node_numbers nodes.old.items ++ one_child tree.now.rows parent.0 child.0) }
    ensures within { All (λ n. n.0 < length tree.now.rows) nodes.old.items → OnOk result (All (λ n. n.0 < length tree.now.rows) nodes.new.items) }
{
    if is_child(tree.row(child), parent) {
        nodes.push(child)?;
    }
    Ok(())
}

fn is_child(row: &NodeRow, node: Node) -> bool
    ensures { result ≡ is_child_of node.0 (row_of row.now).parent }
{
    match row.parent {
        Some(parent) => parent == node,
        None => false,
    }
}

fn branch(is_last: bool) -> &'static str
    ensures { result.now ≡ branch is_last }
{
    if is_last { CORNER } else { BRANCH }
}

fn stem(is_last: bool) -> &'static str
    ensures { result.now ≡ stem is_last }
{
    if is_last { SPACE } else { LINE }
}

/// Returns the first text followed by the second.
fn joined(alloc: Global, first: &[u8], second: &str) -> Result<Vec<u8>, AllocError>
    ensures { IfOk result (λ v. v.items ≡ first.now ++ second.now) }
{
    let mut both = first.to_vec(alloc)?;
    both.extend_from_slice(second.as_bytes())?;
    Ok(both)
}
