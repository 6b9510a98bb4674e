//! The way from a node up to the root.

ghost use Rattle.std.specs.Prelude.{◌≡◌, ◌<◌, ◌≤◌, ◌+◌, ◌++◌, ◌||◌, ◌&&◌, suc, List, ℕ, length, OnOk};
ghost use Rattle.store_setup.specs.tree.Grown.{node_numbers, parent_number, rows_of};
ghost use Rattle.store_setup.specs.tree.Rows.{any_other, is_kind};
ghost use Rattle.store_setup.specs.tree.Ways.{Climbs};
ghost use Rattle.teb_rules.specs.Tree.{climb, row};

use crate::tree::NodeRow;
use std::alloc::AllocError;
use teb_rules::names::{ControlKind, Node};

// Returns the node above n; `None` at the root, and if no node has this number.
fn parent_of(rows: &[NodeRow], n: Node) -> Option<Node>
    ensures { parent_number result ≡ (row (rows_of rows.now) n.0).parent }
{
    rows.get(usize::from(n.0))?.parent
}

// Returns the control of a node; locks if no node has this number.
fn control_of(rows: &[NodeRow], n: Node) -> ControlKind
    ensures { result ≡ (row (rows_of rows.now) n.0).control }
{
    match rows.get(usize::from(n.0)) {
        Some(row) => row.control,
        None => ControlKind::Locks,
    }
}

fn is_kind(a: ControlKind, b: ControlKind) -> bool
    ensures { result ≡ is_kind a b }
{
    a == b
}

// Returns the node above n, if a further parent may be taken.
#[tactic(auto, unfolding(teb_rules::specs::Tree::climb))]
fn step_up(rows: &[NodeRow], n: Node, most: u8) -> Option<Node>
    ensures { Climbs (rows_of rows.now) most n.0 result }
{
    if most == 0 { None } else { parent_of(rows, n) }
}

/// Returns how many nodes are above n, taking at most `most` parents.
pub fn count_above(rows: &[NodeRow], n: Node, most: u8) -> u8
    ensures few { result ≤ most }
    ensures count { (lower : List ℕ) → length (climb (rows_of rows.now) most n.0 lower) ≡ suc (result + length lower) }
{
    match step_up(rows, n, most) {
        Some(p) => count_above(rows, p, most - 1) + 1,
        None => 0,
    }
}

/// Returns whether a node of this control, other than `below`, is on the way up from `at`, taking at most `most`
/// parents.
pub fn some_above(rows: &[NodeRow], at: Node, most: u8, below: Node, control: ControlKind) -> bool
    ensures { (lower : List ℕ) → any_other (rows_of rows.now) below.0 control (climb (rows_of rows.now) most at.0 lower)
        ≡ (result || any_other (rows_of rows.now) below.0 control lower) }
{
    let higher = match step_up(rows, at, most) {
        Some(p) => some_above(rows, p, most - 1, below, control),
        None => false,
    };
    higher || at != below && is_kind(control, control_of(rows, at))
}

/// Appends the way down to n to the nodes of `way`, taking at most `most` parents.
///
/// # Errors
/// `AllocError`: out of memory. Some nodes of the way may be appended then.
pub fn push_way(rows: &[NodeRow], n: Node, most: u8, way: &mut Vec<Node>) -> Result<(), AllocError>
    ensures { OnOk result ((lower : List ℕ) → node_numbers way.new.items ++ lower ≡ node_numbers way.old.items ++ climb (rows_of rows.now) most n.0 lower) }
{
    if let Some(p) = step_up(rows, n, most) {
        push_way(rows, p, most - 1, way)?;
    }
    way.push(n)?;
    Ok(())
}
