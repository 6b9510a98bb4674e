//! Guarantees of a type, whatever the instance.

ghost use Rattle.std.specs.Prelude.{◌≡◌, ◌<◌, ◌&&◌, ℕ, List, length, IfSome, IsTrue};
ghost use Rattle.std.specs.List.{list_all};
ghost use Rattle.store_setup.specs.tree.Grown.{kind_numbers};
ghost use Rattle.store_setup.specs.tree.Ways.{Climbs};
ghost use Rattle.teb_rules.specs.Setup.{among};
ghost use Rattle.teb_rules.specs.Tree.{below, climb, has_batches};
ghost use Rattle.tree_guarantees.specs.Conditions.{Guarantees, ServesReads, has_batches_for, spot, type_has_batches, way_has_batches};

use store_setup::tree::Tree;
use teb_rules::names::{ControlKind, Kind, Node};

/// Returns whether the root and every node on the way to a leaf of a type is a timestamp or a snapshot node. Then each read and each scan of a running
/// transaction of the type is granted at once, whatever its instance, unless it is refused.
pub fn type_reads_never_wait(tree: &Tree, kind: Kind) -> bool
    ensures condition { result ≡ type_has_batches tree.now.rows kind.0 }
    ensures guarantee { IsTrue result → (i : ℕ) → Guarantees tree.now.rows (ServesReads (spot kind.0 i)) }
{
    // A law, from which `guarantee` follows.
    guarantees::reads_go_on();
    keeps_batches_to(tree, kind)
}

// Returns whether the root and each node on the way to a leaf of a type keeps batches.
fn keeps_batches_to(tree: &Tree, kind: Kind) -> bool
    ensures { result ≡ type_has_batches tree.now.rows kind.0 }
{
    // Its contract tells that the tree has a node.
    let _some = tree.len();
    let root = way_keeps_batches(tree, Node(0));
    root && leaves_keep_batches(tree, kind)
}

// Returns whether each node on the way to a leaf of a type keeps batches.
#[tactic(auto, using(crate::proofs::Leaves::all_more, crate::proofs::Leaves::one_missing))]
fn leaves_keep_batches(tree: &Tree, kind: Kind) -> bool
    ensures { result ≡ list_all (has_batches_for tree.now.rows kind.0) (below (length tree.now.rows)) }
{
    for n in 0..tree.len() {
        if !keeps_batches_for(tree, kind, Node(n)) {
            return false;
        }
    }
    true
}

// Returns whether each node on the way to a node keeps batches, if that is a leaf of a type.
fn keeps_batches_for(tree: &Tree, kind: Kind, n: Node) -> bool
    requires { n.0 < length tree.now.rows }
    ensures { result ≡ has_batches_for tree.now.rows kind.0 n.0 }
{
    !holds(&tree.row(n).types, kind) || way_keeps_batches(tree, n)
}

// Returns whether a type is one of a list.
fn holds(types: &[Kind], kind: Kind) -> bool
    ensures { result ≡ among kind.0 (kind_numbers types.now) }
{
    match types {
        [first, rest @ ..] => first.0 == kind.0 || holds(rest, kind),
        [] => false,
    }
}

// Returns whether each node on the way to a node keeps batches.
#[tactic(auto, unfolding(teb_rules::specs::Tree::way))]
fn way_keeps_batches(tree: &Tree, n: Node) -> bool
    requires { n.0 < length tree.now.rows }
    ensures { result ≡ way_has_batches tree.now.rows n.0 }
{
    climb_keeps_batches(tree, n, n.0)
}

// Returns the same for a way on which at most `most` parents are taken.
fn climb_keeps_batches(tree: &Tree, n: Node, most: u8) -> bool
    requires { n.0 < length tree.now.rows }
    ensures { (lower : List ℕ) → list_all (has_batches tree.now.rows) (climb tree.now.rows most n.0 lower) ≡ (result && list_all (has_batches tree.now.rows) lower) }
{
    let higher = match step_up(tree, n, most) {
        Some(parent) => climb_keeps_batches(tree, parent, most - 1),
        None => true,
    };
    higher && keeps_batches(tree, n)
}

// Returns the node above a node, if a further parent may be taken.
#[tactic(auto, unfolding(teb_rules::specs::Tree::climb))]
fn step_up(tree: &Tree, n: Node, most: u8) -> Option<Node>
    requires { n.0 < length tree.now.rows }
    ensures climbs { Climbs tree.now.rows most n.0 result }
    ensures within { IfSome result (λ parent. parent.0 < length tree.now.rows) }
{
    if most == 0 {
        return None;
    }
    // Its contract tells that the tree has no fault: each parent is an earlier node.
    let _accepted = tree.len();
    tree.row(n).parent
}

fn keeps_batches(tree: &Tree, n: Node) -> bool
    requires { n.0 < length tree.now.rows }
    ensures { result ≡ has_batches tree.now.rows n.0 }
{
    match tree.row(n).control {
        ControlKind::Timestamp | ControlKind::Snapshot => true,
        ControlKind::Locks | ControlKind::Pipeline => false,
    }
}
