//! A node of the tree.

use teb_rules::names::{ControlKind, Kind, Node};

/// A node of the tree. Its number is its place in the list of nodes.
#[derive(Drop)]
pub struct NodeRow {
    /// How it regulates transactions of different children; at a leaf, of one another.
    pub control: ControlKind,
    /// The node above it; none at the root.
    pub parent: Option<Node>,
    /// The types of its transactions; none if it has children.
    pub types: Vec<Kind>,
    /// How many transactions a batch of one child admits, 1 to 1,024. It has no effect at a leaf.
    pub batch: u16,
    /// Whether its transactions commit in the order of their starts.
    pub ordered: bool,
    /// The part of the instances of its types that it takes, from 0 to below `of`.
    pub part: u8,
    /// The number of leaves among which the instances of its types are divided, 1 to 16.
    pub of: u8,
}
