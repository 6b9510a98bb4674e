//! The tree of rows that were read.

ghost use Rattle.std.specs.Prelude.{◌<◌, ◌≤◌, length};
ghost use Rattle.store_setup.specs.tree.Grown.{rows_of};
ghost use Rattle.tree_toml.specs.Reading.{Answers};
ghost use Rattle.tree_toml.specs.SetupText.{grown};
ghost use Rattle.tree_toml.specs.Kept.{AreRows};

use crate::fault::TreeTextError;
use std::alloc::Global;
use store_setup::tree::{NodeRow, Tree, TreeError};

/// Returns the tree of these rows, for this number of types.
///
/// # Errors
/// `Shape` or `Misplaced`: the first fault of the rows, as `Tree::build` says. `OutOfMemory`: out of memory.
pub fn grow(alloc: Global, rows: Vec<NodeRow>, types: u8) -> Result<Tree, TreeTextError>
    requires rows { AreRows types (rows_of rows.items) }
    requires some { 0 < length rows.items }
    requires few { length rows.items ≤ 64 }
    ensures { Answers (λ t. t) result (grown (rows_of rows.items) types) }
{
    match Tree::build(alloc, rows, types) {
        Ok(tree) => Ok(tree),
        Err(TreeError::Shape { node, why }) => Err(TreeTextError::Shape { node, why }),
        Err(TreeError::Misplaced { node, rule }) => Err(TreeTextError::Misplaced { node, rule }),
        Err(TreeError::OutOfMemory) => Err(TreeTextError::OutOfMemory),
    }
}
