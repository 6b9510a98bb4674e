//! The place of the version that a Put is about to write. If a node on the path orders versions by it, it is looked for before
//! the nodes are asked; otherwise once the Put is granted.

ghost use Rattle.std.specs.Prelude.{◌≡◌, ◌<◌, All, IfSome, length};
ghost use Rattle.std.specs.List.{list_any};
ghost use Rattle.teb_rules.specs.Tree.{row, is_timestamp};
ghost use Rattle.store_setup.specs.tree.Grown.{node_numbers};
ghost use Rattle.version_chain.specs.Lists.{writers_of};
ghost use Rattle.engine_core.specs.Keeping.{IsPlaced};
ghost use Rattle.engine_core.specs.Views.{store_in, events_in};
ghost use Rattle.engine_core.specs.Stopping.{at_of, AreTold};

use crate::asking::Asking;
use candidate_reads::{Place, place_behind, place_of};
use store_setup::tree::Tree;
use teb_rules::names::{Cell, ControlKind, Node};
use version_chain::Chains;

/// Returns the place of t's version of a cell, if a timestamp node is on t's path.
pub fn asked_place<C: Chains>(asking: &Asking<'_, C>, cell: Cell) -> Option<Place>
    ensures placed { IfSome result (λ p. IsPlaced (store_in asking.now.view.now).setup (events_in asking.now.view.now) (C.lists asking.now.view.now.state.now.chains) asking.now.txn.0 cell p) }
    ensures told { AreTold (store_in asking.now.view.now).setup (events_in asking.now.view.now) cell asking.now.txn.0 (at_of result) (writers_of (C.lists asking.now.view.now.state.now.chains cell)) }
{
    let view = asking.view;
    if has_timestamp(view.facts.tree, asking.nodes) {
        Some(place_of(
            &view.state.controls,
            &view.state.chains,
            &view.facts,
            asking.txn,
            cell,
        ))
    } else {
        None
    }
}

/// Returns the number of a place that was asked for.
pub fn at_of(asked: Option<Place>) -> Option<usize>
    ensures { result ≡ at_of asked }
{
    asked.map(|place| place.at)
}

/// Returns the place of t's version of a cell, which was asked for already if a timestamp node is on t's path. If none is, no control has
/// to be asked.
pub fn granted_place<C: Chains>(asking: &Asking<'_, C>, asked: Option<Place>, cell: Cell) -> Place
    requires asked { IfSome asked (λ p. IsPlaced (store_in asking.now.view.now).setup (events_in asking.now.view.now) (C.lists asking.now.view.now.state.now.chains) asking.now.txn.0 cell p) }
    requires told { AreTold (store_in asking.now.view.now).setup (events_in asking.now.view.now) cell asking.now.txn.0 (at_of asked) (writers_of (C.lists asking.now.view.now.state.now.chains cell)) }
    ensures { IsPlaced (store_in asking.now.view.now).setup (events_in asking.now.view.now) (C.lists asking.now.view.now.state.now.chains) asking.now.txn.0 cell result }
{
    let view = asking.view;
    match asked {
        Some(place) => place,
        None => place_behind(&view.state.chains, &view.facts, asking.txn, cell),
    }
}

/// Returns whether a timestamp node is among some nodes.
fn has_timestamp(tree: &Tree, nodes: &[Node]) -> bool
    requires { All (λ n. n.0 < length tree.now.rows) nodes.now }
    ensures { result ≡ list_any (λ n. is_timestamp (row tree.now.rows n).control) (node_numbers nodes.now) }
{
    match nodes {
        [node, rest @ ..] => is_timestamp(tree, *node) || has_timestamp(tree, rest),
        [] => false,
    }
}

fn is_timestamp(tree: &Tree, node: Node) -> bool
    requires { node.0 < length tree.now.rows }
    ensures { result ≡ is_timestamp (row tree.now.rows node.0).control }
{
    matches!(tree.row(node).control, ControlKind::Timestamp)
}
