//! The types under a node.

ghost use Rattle.std.specs.Prelude.{◌≡◌, ◌<◌, ◌≤◌, ◌&&◌, [], IfOk, filter, length};
ghost use Rattle.std.specs.List.{list_any};
ghost use Rattle.teb_rules.specs.Setup.{among};
ghost use Rattle.teb_rules.specs.Tree.{below, climb, row, way};
ghost use Rattle.teb_rules.specs.Steps.{stands_under};
ghost use Rattle.store_setup.specs.tree.Grown.{kind_numbers};
ghost use Rattle.store_setup.specs.tree.Sound.{IsAccepted};

use std::alloc::{AllocError, Global};
use store_setup::tree::Tree;
use teb_rules::names::{Kind, Node};

/// Returns the types of the leaves under a node, ascending.
///
/// # Errors
/// `AllocError`: out of memory.
pub fn kinds_under(alloc: Global, node: Node, tree: &Tree) -> Result<Vec<Kind>, AllocError>
    ensures { IfOk result (λ kinds. kind_numbers kinds.items ≡ filter (stands_under tree.now.rows node.0) (below tree.now.types)) }
{
    let mut kinds = Vec::new(alloc);
    let rows = tree.len();
    for k in 0..tree.types() {
        if stands_among(tree, node, Kind(k), rows) {
            kinds.push(Kind(k))?;
        }
    }
    Ok(kinds)
}

// Returns whether one of the first `rows` nodes has a type, and is under the node.
fn stands_among(tree: &Tree, node: Node, kind: Kind, rows: u8) -> bool
    requires accepted { IsAccepted tree.now }
    requires within { rows ≤ length tree.now.rows }
    ensures { result ≡ list_any (λ m. among kind.0 (row tree.now.rows m).types && among node.0 (way tree.now.rows m)) (below rows) }
{
    if rows == 0 {
        return false;
    }
    let last = Node(rows - 1);
    stands_among(tree, node, kind, rows - 1)
        || has_kind(&tree.row(last).types, kind) && is_above(tree, node, last, last.0)
}

fn has_kind(kinds: &[Kind], kind: Kind) -> bool
    ensures { result ≡ among kind.0 (kind_numbers kinds.now) }
{
    kinds.contains(&kind)
}

// Returns whether a node is on the way to another, taking at most `parents` parents.
fn is_above(tree: &Tree, node: Node, lower: Node, parents: u8) -> bool
    requires accepted { IsAccepted tree.now }
    requires within { lower.0 < length tree.now.rows }
    ensures { result ≡ among node.0 (climb tree.now.rows parents lower.0 []) }
{
    if lower == node {
        return true;
    }
    if parents == 0 {
        return false;
    }
    match tree.row(lower).parent {
        Some(parent) => is_above(tree, node, parent, parents - 1),
        None => false,
    }
}
