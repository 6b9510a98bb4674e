//! An accepted tree with the path to each leaf.

ghost use Rattle.std.specs.Prelude.{◌≡◌, ◌↔◌, ◌<◌, ◌≤◌, ℕ, length, cond, Some, None, IfSome, IsTrue};
ghost use Rattle.std.specs.List.{All};
ghost use Rattle.store_setup.specs.tree.Answers.{Answers};
ghost use Rattle.store_setup.specs.tree.Grown.{node_numbers, row_of, rows_of, side_number};
ghost use Rattle.store_setup.specs.tree.Meets.{IsLowest, IsMeet};
ghost use Rattle.store_setup.specs.tree.Sound.{IsAccepted};
ghost use Rattle.teb_rules.specs.Tree.{leaf, on_path, path, row, side_at};

use crate::tree::check::check;
use crate::tree::homes::all_paths;
use crate::tree::path::{Path, last_shared};
use crate::tree::{NodeRow, TreeError};
use std::alloc::Global;
use std::marker::Model;
use teb_rules::names::{Node, Spot};

/// An accepted tree. Contracts see its rows, and for how many types it was built.
#[derive(Drop)]
pub struct Tree {
    rows: Vec<NodeRow>,
    // For each type the paths to its leaves, in order of their parts.
    paths: Vec<Vec<Path>>,
}

impl Model for Tree {
    ghost use Rattle.store_setup.specs.tree.Grown.{Grown};

    ghost Value = { Grown };

    ghost use Rattle.store_setup.specs.tree.Stored.{grown, IsStored};

    ghost view = { grown };

    ghost invariant = { IsStored };
}

impl Tree {
    /// Returns the tree of these rows, for `types` types.
    ///
    /// # Errors
    /// The first fault of the rows: `Shape` at the first node whose shape is wrong; else `Shape` at node 0 if a type does not have
    /// a leaf for each of its parts; else `Misplaced` at the first node that is at a place which a rule forbids. Rows without a
    /// fault make a tree, or `OutOfMemory`.
    pub fn build(alloc: Global, rows: Vec<NodeRow>, types: u8) -> Result<Tree, TreeError>
        requires some { 0 < length rows.items }
        requires few { length rows.items ≤ 64 }
        requires kinds { All (λ r. All (λ k. k.0 < types) r.types.items) rows.items }
        requires batches { All (λ r. (1 ≤ r.batch) × (r.batch ≤ 1024)) rows.items }
        requires parts { All (λ r. (1 ≤ r.of) × (r.of ≤ 16) × (r.part < r.of)) rows.items }
        ensures { Answers result (rows_of rows.items) types }
    {
        check(&rows, types)?;
        let paths = all_paths(alloc, &rows, types)?;
        Ok(Tree { rows, paths })
    }

    /// Returns the row of a node.
    pub fn row(&self, n: Node) -> &NodeRow
        requires { n.0 < length self.now.rows }
        ensures { row_of result.now ≡ row self.now.rows n.0 }
    {
        &self.rows[usize::from(n.0)]
    }

    /// Returns how many nodes there are, 1 to 64. The tree has no fault.
    pub fn len(&self) -> u8
        ensures count { result ≡ length self.now.rows }
        ensures accepted { IsAccepted self.now }
    {
        self.rows.len() as u8
    }

    /// Returns the number of types for which the tree was built.
    pub fn types(&self) -> u8
        ensures { result ≡ self.now.types }
    {
        self.paths.len() as u8
    }

    /// Returns the nodes from the root to the leaf of a type and an instance. It costs a look-up.
    pub fn path(&self, s: Spot) -> &[Node]
        requires { s.kind.0 < self.now.types }
        ensures nodes { node_numbers result.now ≡ path self.now.rows s }
        ensures within { All (λ n. n.0 < length self.now.rows) result.now }
        ensures accepted { IsAccepted self.now }
    {
        self.stored(s).nodes()
    }

    // Returns the path that is stored for a type and an instance.
    #[inline(always)]
    fn stored(&self, s: Spot) -> &Path
        requires { s.kind.0 < self.now.types }
        ensures nodes { node_numbers result.now ≡ path self.now.rows s }
        ensures accepted { IsAccepted self.now }
    {
        let parts = &self.paths[usize::from(s.kind.0)];
        &parts[s.instance as usize % parts.len()]
    }

    /// Returns whether a node is on the path of a type and an instance.
    #[tactic(auto, unfolding(teb_rules::specs::Tree::on_path))]
    #[inline(always)]
    pub fn is_on(&self, n: Node, s: Spot) -> bool
        requires { s.kind.0 < self.now.types }
        ensures { result ≡ on_path self.now.rows n.0 s }
    {
        self.stored(s).has(n)
    }

    /// Returns the child of a node on the path of a type and an instance, or `None` if and only if the node is their leaf.
    #[tactic(auto, unfolding(teb_rules::specs::Tree::on_path, teb_rules::specs::Tree::side_at))]
    pub fn side(&self, n: Node, s: Spot) -> Option<Node>
        requires kind { s.kind.0 < self.now.types }
        requires on { IsTrue (on_path self.now.rows n.0 s) }
        ensures side { (own : ℕ) → side_number result own ≡ side_at self.now.rows n.0 s own }
        ensures none { (result ≡ None) ↔ (n.0 ≡ leaf self.now.rows s) }
        ensures within { IfSome result (λ m. m.0 < length self.now.rows) }
    {
        self.stored(s).next(n)
    }

    /// Returns the number of the side of a node on which a transaction with this spot and the number `own` is: the child's above
    /// its leaf, and `own` at the leaf. `None` if and only if the node is not on its path.
    #[tactic(auto, unfolding(teb_rules::specs::Tree::on_path, teb_rules::specs::Tree::side_at))]
    pub fn side_on(&self, n: Node, s: Spot, own: u32) -> Option<u32>
        requires { s.kind.0 < self.now.types }
        ensures { result ≡ cond (on_path self.now.rows n.0 s) (Some (side_at self.now.rows n.0 s own)) None }
    {
        self.stored(s).side(n, own)
    }

    /// Returns the lowest node on the paths of two spots: the node at which two transactions with these spots meet.
    pub fn meet(&self, a: Spot, b: Spot) -> Node
        requires first { a.kind.0 < self.now.types }
        requires second { b.kind.0 < self.now.types }
        ensures lowest { IsLowest self.now.rows a b result.0 }
        ensures meet { IsMeet self.now.rows a b result.0 }
        ensures within { result.0 < length self.now.rows }
    {
        last_shared(self.path(a), self.path(b), Node(0))
    }
}
