//! Paths from the root to a leaf.

ghost use Rattle.std.specs.Prelude.{◌≡◌, ◌≤◌, ℕ, IfOk};
ghost use Rattle.store_setup.specs.tree.Grown.{node_numbers, side_found, side_number};
ghost use Rattle.store_setup.specs.tree.Meets.{last_shared};
ghost use Rattle.store_setup.specs.tree.Followers.{follower_in, AreFollowers};
ghost use Rattle.teb_rules.specs.Setup.{among};
ghost use Rattle.teb_rules.specs.Tree.{next_of};

use std::alloc::{AllocError, Global};
use std::marker::Model;
use teb_rules::names::Node;

/// What follows a node on a path.
#[derive(Clone, Copy)]
pub(crate) enum Follower {
    /// The node is not on the path.
    Absent,
    /// The node is its last.
    Nobody,
    Child(Node),
}

/// A path: nodes from the root down. Contracts see the list of the nodes.
///
/// Telling whether a node is on it, and what follows it there, costs one look.
#[derive(Drop)]
pub(crate) struct Path {
    nodes: Vec<Node>,
    // By number, for the nodes of the tree.
    followers: Vec<Follower>,
}

impl Model for Path {
    ghost use Rattle.std.specs.Prelude.{List};
    ghost use Rattle.teb_rules.specs.declared.names.Node.{Node};
    ghost use Rattle.store_setup.specs.tree.Followers.{AreFollowers};

    ghost Value = { List Node };

    ghost view = { λ p. p.nodes.items };

    ghost invariant = { λ p. AreFollowers p.followers.items p.nodes.items };
}

impl Path {
    /// Returns the path of these nodes, in a tree of `count` nodes.
    pub(crate) fn new(alloc: Global, nodes: Vec<Node>, count: usize) -> Result<Path, AllocError>
        requires { count ≤ 64 }
        ensures { IfOk result (λ p. p ≡ nodes.items) }
    {
        let followers = followers_on(alloc, &nodes, count as u8)?;
        Ok(Path { nodes, followers })
    }

    /// Returns its nodes, from the root down.
    pub(crate) fn nodes(&self) -> &[Node]
        ensures { result.now ≡ self.now }
    {
        &self.nodes
    }

    /// Returns whether a node is on the path.
    #[inline(always)]
    pub(crate) fn has(&self, n: Node) -> bool
        ensures { result ≡ among n.0 (node_numbers self.now) }
    {
        match self.follower(n) {
            Follower::Absent => false,
            Follower::Nobody | Follower::Child(_) => true,
        }
    }

    /// Returns the node that follows n on the path.
    pub(crate) fn next(&self, n: Node) -> Option<Node>
        ensures { (own : ℕ) → side_number result own ≡ next_of n.0 own (node_numbers self.now) }
    {
        match self.follower(n) {
            Follower::Child(child) => Some(child),
            Follower::Nobody => None,
            Follower::Absent => None,
        }
    }

    /// Returns the number of the side of n for a transaction with the number `own`: that of the next node, or `own` if n is the last. `None`
    /// if n is not on the path.
    #[inline(always)]
    pub(crate) fn side(&self, n: Node, own: u32) -> Option<u32>
        ensures { result ≡ side_found n.0 own (node_numbers self.now) }
    {
        match self.follower(n) {
            Follower::Absent => None,
            Follower::Nobody => Some(own),
            Follower::Child(child) => Some(u32::from(child.0)),
        }
    }

    // Returns what follows a node.
    #[inline(always)]
    fn follower(&self, n: Node) -> Follower
        ensures { result ≡ follower_in n.0 self.now }
    {
        let i = usize::from(n.0);
        if i < self.followers.len() {
            self.followers[i]
        } else {
            follower_on(&self.nodes, n)
        }
    }
}

// Returns what follows each node of a tree of `count` nodes.
fn followers_on(alloc: Global, nodes: &[Node], count: u8) -> Result<Vec<Follower>, AllocError>
    ensures { IfOk result (λ v. AreFollowers v.items nodes.now) }
{
    let mut followers = Vec::with_capacity(alloc, usize::from(count))?;
    for n in 0..count {
        followers.push(follower_on(nodes, Node(n)))?;
    }
    Ok(followers)
}

// Returns what follows a node in a list of nodes.
fn follower_on(nodes: &[Node], n: Node) -> Follower
    ensures { result ≡ follower_in n.0 nodes.now }
{
    match nodes {
        [m, behind @ ..] if *m == n => behind
            .first()
            .map_or(Follower::Nobody, |child| Follower::Child(*child)),
        [_, behind @ ..] => follower_on(behind, n),
        [] => Follower::Absent,
    }
}

/// Returns the last node that both paths share from their beginning on, or `above` if their first nodes differ.
pub(crate) fn last_shared(a: &[Node], b: &[Node], above: Node) -> Node
    ensures { result.0 ≡ last_shared above.0 (node_numbers a.now) (node_numbers b.now) }
{
    let [m, a @ ..] = a else {
        return above;
    };
    let [n, b @ ..] = b else {
        return above;
    };
    if *m == *n {
        last_shared(a, b, *m)
    } else {
        above
    }
}
