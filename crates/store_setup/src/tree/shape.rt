//! The shape of a tree: each node has its parent, and either types or children.

ghost use Rattle.std.specs.Prelude.{◌≡◌, ◌<◌, ◌≤◌, length};
ghost use Rattle.std.specs.List.{list_any};
ghost use Rattle.store_setup.specs.tree.Answers.{Finds, shape_name};
ghost use Rattle.store_setup.specs.tree.Grown.{kind_numbers, row_of, rows_of};
ghost use Rattle.store_setup.specs.tree.Rows.{clash, shares};
ghost use Rattle.teb_rules.specs.Accepted.{first_at, has_types, is_child_of, is_misparented, is_misrooted, is_too_deep, is_twice, repeats, shape_fault};
ghost use Rattle.teb_rules.specs.Setup.{among};
ghost use Rattle.teb_rules.specs.Tree.{below};

use crate::tree::way::count_above;
use crate::tree::{NodeRow, ShapeWhy, TreeError};
use teb_rules::names::{Kind, Node};

/// Tests whether each node has the shape of a node of a tree.
///
/// # Errors
/// `Shape` at the first node whose shape is wrong.
pub fn check_shape(rows: &[NodeRow]) -> Result<(), TreeError>
    requires { length rows.now ≤ 64 }
    ensures { Finds result (first_at (shape_fault (rows_of rows.now)) (below (length rows.now))) }
{
    for n in 0..rows.len() as u8 {
        if let Some(why) = shape_at(rows, Node(n)) {
            return Err(TreeError::Shape { node: Node(n), why });
        }
    }
    Ok(())
}

// Returns the first fault of one node.
#[tactic(auto, using(crate::proofs::lemmas::tree::Below::has_children_is))]
fn shape_at(rows: &[NodeRow], n: Node) -> Option<ShapeWhy>
    requires { n.0 < length rows.now }
    ensures { shape_name result ≡ shape_fault (rows_of rows.now) n.0 }
{
    let is_leaf = has_types(rows, n);
    let is_inner = has_child(rows, n);
    if is_misrooted(rows, n) {
        Some(ShapeWhy::Root)
    } else if is_misparented(rows, n) {
        Some(ShapeWhy::Parent)
    } else if is_too_deep(rows, n) {
        Some(ShapeWhy::Depth)
    } else if is_leaf && is_inner {
        Some(ShapeWhy::Mixed)
    } else if !is_leaf && !is_inner {
        Some(ShapeWhy::Empty)
    } else if is_twice(rows, n) {
        Some(ShapeWhy::Twice)
    } else {
        None
    }
}

fn is_misrooted(rows: &[NodeRow], n: Node) -> bool
    requires { n.0 < length rows.now }
    ensures { result ≡ is_misrooted (rows_of rows.now) n.0 }
{
    let parent = rows[usize::from(n.0)].parent;
    if n.0 == 0 {
        parent.is_some()
    } else {
        parent.is_none()
    }
}

fn is_misparented(rows: &[NodeRow], n: Node) -> bool
    requires { n.0 < length rows.now }
    ensures { result ≡ is_misparented (rows_of rows.now) n.0 }
{
    match rows[usize::from(n.0)].parent {
        Some(p) => p >= n,
        None => false,
    }
}

#[tactic(auto, unfolding(teb_rules::specs::Tree::way))]
fn is_too_deep(rows: &[NodeRow], n: Node) -> bool
    ensures { result ≡ is_too_deep (rows_of rows.now) n.0 }
{
    count_above(rows, n, n.0) >= 8
}

fn has_types(rows: &[NodeRow], n: Node) -> bool
    requires { n.0 < length rows.now }
    ensures { result ≡ has_types (rows_of rows.now) n.0 }
{
    !rows[usize::from(n.0)].types.is_empty()
}

// Returns whether one of these rows is a child of n.
fn has_child(rows: &[NodeRow], n: Node) -> bool
    ensures { result ≡ list_any (λ r. is_child_of n.0 r.parent) (rows_of rows.now) }
{
    match rows {
        [row, rest @ ..] => is_child(row, n) || has_child(rest, n),
        [] => false,
    }
}

fn is_child(row: &NodeRow, n: Node) -> bool
    ensures { result ≡ is_child_of n.0 (row_of row.now).parent }
{
    match row.parent {
        Some(p) => p == n,
        None => false,
    }
}

fn is_twice(rows: &[NodeRow], n: Node) -> bool
    requires { n.0 < length rows.now }
    ensures { result ≡ is_twice (rows_of rows.now) n.0 }
{
    let n = usize::from(n.0);
    let row = &rows[n];
    repeats(&row.types) || some_clash(&rows[..n], row)
}

// Returns whether a type is listed twice.
fn repeats(types: &[Kind]) -> bool
    ensures { result ≡ repeats (kind_numbers types.now) }
{
    match types {
        [k, rest @ ..] => holds(rest, *k) || repeats(rest),
        [] => false,
    }
}

/// Returns whether a type is one of a list.
#[tactic(auto, using(crate::proofs::lemmas::tree::Below::among_kinds))]
pub fn holds(types: &[Kind], k: Kind) -> bool
    ensures { result ≡ among k.0 (kind_numbers types.now) }
{
    types.contains(&k)
}

fn some_clash(earlier: &[NodeRow], row: &NodeRow) -> bool
    ensures { result ≡ list_any (λ q. clash q (row_of row.now)) (rows_of earlier.now) }
{
    match earlier {
        [other, rest @ ..] => clash(other, row) || some_clash(rest, row),
        [] => false,
    }
}

// Returns whether a type is in both rows, for the same part or with different numbers of parts.
fn clash(earlier: &NodeRow, row: &NodeRow) -> bool
    ensures { result ≡ clash (row_of earlier.now) (row_of row.now) }
{
    shares(&earlier.types, &row.types) && (earlier.part == row.part || earlier.of != row.of)
}

fn shares(some: &[Kind], types: &[Kind]) -> bool
    ensures { result ≡ shares (kind_numbers some.now) (kind_numbers types.now) }
{
    match types {
        [k, rest @ ..] => holds(some, *k) || shares(some, rest),
        [] => false,
    }
}
