//! What the shape of a tree guarantees: one question for each guarantee that depends on the shape.
//!
//! | Question | Guarantee, if the answer is true |
//! |---|---|
//! | [`is_strict`] | strict serializability |
//! | [`commits_in_order`] | the serial order is the order of the commits |
//! | [`has_no_cascades`] | an abort takes no other transaction with it |
//! | [`reads_never_wait`] | reads of a type and an instance neither wait nor break |
//! | [`type_reads_never_wait`] | the same of a type, whatever the instance |
//!
//! Each contract has two clauses. `condition` says when the answer is true; for the first four that is the premise of a law of
//! `guarantees`. `guarantee` says that if the answer is true, the conclusion of that law holds of every run of every sound store with
//! this tree (`Guarantees` of `specs/Conditions`).
//!
//! **Not claimed**: anything if an answer is false. `guarantees` has stores that show where each guarantee ends.
#![tactic(auto)]

mod types;

ghost use Rattle.std.specs.Prelude.{◌≡◌, ◌↔◌, ◌<◌, ℕ, List, length, IsTrue};
ghost use Rattle.std.specs.List.{All, list_all};
ghost use Rattle.store_setup.specs.tree.Grown.{node_numbers, row_of};
ghost use Rattle.teb_rules.specs.declared.history.Event.{Event};
ghost use Rattle.teb_rules.specs.history.Phases.{spot_of};
ghost use Rattle.teb_rules.specs.Setup.{Setup, Store};
ghost use Rattle.teb_rules.specs.Tree.{has_batches, row};
ghost use Rattle.guarantees.specs.Cascades.{HasNoCascade};
ghost use Rattle.guarantees.specs.Reading.{ReadsFreely};
ghost use Rattle.guarantees.specs.Shapes.{HidesUncommitted, keeps_time, orders_by_commits};
ghost use Rattle.guarantees.specs.Time.{FollowsCommits, KeepsRealTime};
ghost use Rattle.tree_guarantees.specs.Conditions.{Guarantees, IsCondition, ServesReads};

use store_setup::tree::{NodeRow, Tree};
use teb_rules::names::{ControlKind, Node, Spot};
pub use types::type_reads_never_wait;

/// Returns whether the root is a locks or a pipeline node. Then the serial order is the order of the commits.
pub fn commits_in_order(tree: &Tree) -> bool
    ensures condition { IsCondition orders_by_commits tree.now.rows result }
    ensures guarantee { IsTrue result → Guarantees tree.now.rows (λ X H. FollowsCommits X.setup H) }
{
    // A law, from which `guarantee` follows.
    guarantees::serial_order_is_commit_order();
    match root(tree).control {
        ControlKind::Locks | ControlKind::Pipeline => true,
        ControlKind::Timestamp | ControlKind::Snapshot => false,
    }
}

/// Returns whether the root is a locks or a pipeline node, or a leaf, or admits one transaction a batch. Then the store is strictly serializable: a transaction that committed
/// before another one began is before it in the serial order.
pub fn is_strict(tree: &Tree) -> bool
    ensures condition { IsCondition keeps_time tree.now.rows result }
    ensures guarantee { IsTrue result → Guarantees tree.now.rows (λ X H. KeepsRealTime X.setup H) }
{
    // A law, from which `guarantee` follows.
    guarantees::serial_order_keeps_time();
    let root = root(tree);
    commits_in_order(tree) || !root.types.is_empty() || root.batch <= 1
}

/// Returns whether every node is a locks or a snapshot node. Then an abort takes no other transaction with it.
pub fn has_no_cascades(tree: &Tree) -> bool
    ensures condition { (S : Setup) → S.tree ≡ tree.now.rows → (IsTrue result ↔ HidesUncommitted S) }
    ensures guarantee { IsTrue result → Guarantees tree.now.rows HasNoCascade }
{
    // A law, from which `guarantee` follows.
    guarantees::aborts_stay_alone();
    for n in 0..tree.len() {
        match tree.row(Node(n)).control {
            ControlKind::Locks | ControlKind::Snapshot => {}
            ControlKind::Pipeline | ControlKind::Timestamp => return false,
        }
    }
    true
}

/// Returns whether every node on the path of a type and an instance is a timestamp or a snapshot node. Then each read and each scan of a running transaction of these is granted
/// at once, unless it is refused.
pub fn reads_never_wait(tree: &Tree, spot: Spot) -> bool
    requires { spot.kind.0 < tree.now.types }
    ensures condition { (X : Store) (H : List Event) (t : ℕ) → X.setup.tree ≡ tree.now.rows → spot_of H t ≡ spot → (IsTrue result ↔ ReadsFreely X H t) }
    ensures guarantee { IsTrue result → Guarantees tree.now.rows (ServesReads spot) }
{
    // A law, from which `guarantee` follows.
    guarantees::reads_go_on();
    keep_batches(tree, tree.path(spot))
}

// Returns whether each of the nodes is a timestamp or a snapshot node.
fn keep_batches(tree: &Tree, nodes: &[Node]) -> bool
    requires { All (λ n. n.0 < length tree.now.rows) nodes.now }
    ensures { result ≡ list_all (has_batches tree.now.rows) (node_numbers nodes.now) }
{
    let [n, below @ ..] = nodes else {
        return true;
    };
    match tree.row(*n).control {
        ControlKind::Timestamp | ControlKind::Snapshot => keep_batches(tree, below),
        ControlKind::Locks | ControlKind::Pipeline => false,
    }
}

// Returns the root, which every tree has.
fn root(tree: &Tree) -> &NodeRow
    ensures { row_of result.now ≡ row tree.now.rows 0 }
{
    // Its contract tells that the tree has a node.
    let _nodes = tree.len();
    tree.row(Node(0))
}
