//! The test of a list of nodes: shape, homes of the types, placement, in this order.

ghost use Rattle.std.specs.Prelude.{◌≤◌, length};
ghost use Rattle.store_setup.specs.tree.Answers.{Finds};
ghost use Rattle.store_setup.specs.tree.Grown.{rows_of};
ghost use Rattle.teb_rules.specs.Accepted.{tree_fault};

use crate::tree::homes::check_homes;
use crate::tree::placement::check_placement;
use crate::tree::shape::check_shape;
use crate::tree::{NodeRow, TreeError};

/// Tests whether the rows are those of a tree for `types` types: the shape of each node, then the leaves of each type, then the
/// placement of each node.
///
/// # Errors
/// The first fault, as `Tree::build` says. `OutOfMemory` is never returned.
#[tactic(auto, unfolding(teb_rules::specs::Accepted::tree_fault))]
pub fn check(rows: &[NodeRow], types: u8) -> Result<(), TreeError>
    requires { length rows.now ≤ 64 }
    ensures { Finds result (tree_fault (rows_of rows.now) types) }
{
    check_shape(rows)?;
    check_homes(rows, types)?;
    check_placement(rows)
}
