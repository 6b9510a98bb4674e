//! The faults of lists of nodes that make no tree.

ghost use Rattle.std.specs.Prelude.{◌≡◌};

use std::alloc::AllocError;
use teb_rules::names::Node;

/// The three rules of placement.
#[derive(Clone, Copy, Debug, PartialEq, Eq)]
pub enum Rule {
    /// A snapshot node is only at the root.
    P1,
    /// A timestamp node below a locks node is ordered.
    P2,
    /// No timestamp node is below a pipeline node.
    P3,
}

/// Why a list of nodes does not have the shape of a tree.
#[derive(Clone, Copy, Debug, PartialEq, Eq)]
pub enum ShapeWhy {
    /// Node 0 has a parent, or a later node has none.
    Root,
    /// The parent is not an earlier node.
    Parent,
    /// The way from the root has more than eight nodes.
    Depth,
    /// The node has neither types nor children.
    Empty,
    /// The node has types and children.
    Mixed,
    /// A type of the node is listed twice in it, or is in an earlier node with the same part or with another number of parts.
    Twice,
    /// A type is in fewer nodes than its number of parts, or in none.
    Homeless,
}

/// Why no tree was built.
#[derive(Clone, Copy, Debug, PartialEq, Eq, Drop)]
pub enum TreeError {
    /// The shape is wrong at the node. If a type is homeless, that is node 0.
    Shape { node: Node, why: ShapeWhy },
    /// The node is at a place that the rule forbids.
    Misplaced { node: Node, rule: Rule },
    /// Out of memory.
    OutOfMemory,
}

impl From<AllocError> for TreeError {
    ghost use Rattle.store_setup.specs.declared.tree.fault.TreeError.TheVariants.{OutOfMemory};

    ghost from_gives = { λ _ e. e ≡ OutOfMemory };

    fn from(_: AllocError) -> Self {
        TreeError::OutOfMemory
    }
}
