//! The transaction that asks. It is neither committed nor aborted.

ghost use Rattle.std.specs.Prelude.{◌≡◌, ◌<◌, IsTrue, is_some};
ghost use Rattle.teb_rules.specs.history.Phases.{unfinished, prepared, spot_of, kind_of};
ghost use Rattle.teb_rules.specs.Setup.{profile};
ghost use Rattle.teb_rules.specs.Steps.{least_step, cursor};
ghost use Rattle.teb_rules.specs.Tree.{path};
ghost use Rattle.store_setup.specs.tree.Grown.{node_numbers};
ghost use Rattle.engine_core.specs.Views.{store_in, events_in};

use crate::engine_view::EngineView;
use teb_rules::names::{Node, Spot, Table, Txn};
use version_chain::Chains;

/// An unfinished transaction that asks, and what the decision looks at. It is looked up once a request.
#[derive(Drop)]
pub struct Asking<'a, C: Chains> {
    pub view: &'a EngineView<'a, C>,
    pub txn: Txn,
    pub is_prepared: bool,
    pub spot: Spot,
    /// Its path, from the root to its leaf.
    pub nodes: &'a [Node],
    ghost runs: { IsTrue (unfinished (events_in view.now) txn.0) },
    ghost flag: { is_prepared ≡ prepared (events_in view.now) txn.0 },
    ghost start: { spot ≡ spot_of (events_in view.now) txn.0 },
    ghost way: { node_numbers nodes.now ≡ path (store_in view.now).setup.tree (spot_of (events_in view.now) txn.0) },
}

impl<'a, C: Chains> Asking<'a, C> {
    /// Returns the asking of an unfinished transaction, which may be prepared.
    pub fn of(view: &'a EngineView<'a, C>, txn: Txn, is_prepared: bool) -> Self
        requires unfinished { IsTrue (unfinished (events_in view.now) txn.0) }
        requires prepared { is_prepared ≡ prepared (events_in view.now) txn.0 }
        ensures view { result.view.now ≡ view.now }
        ensures txn { result.txn ≡ txn }
    {
        let Some(spot) = view.facts.spot(txn) else {
            unreachable!()
        };
        Asking {
            view,
            txn,
            is_prepared,
            spot,
            nodes: view.facts.tree.path(spot),
        }
    }

    /// Returns whether the profile has a step on a table, from the transaction's current step on.
    pub fn has_step(&self, table: Table) -> bool
        ensures { result ≡ is_some
            (least_step (profile (store_in self.now.view.now).setup (kind_of (events_in self.now.view.now) self.now.txn.0))
            (cursor (store_in self.now.view.now).setup (events_in self.now.view.now) self.now.txn.0) table.0) }
    {
        let view = self.view;
        let profile = &view.facts.profiles[usize::from(self.spot.kind.0)];
        profile
            .cursor_after(view.state.cursors.cursor(self.txn), table)
            .is_some()
    }
}
