//! The stop of a request: that of the first node from the root that waits or breaks.

ghost use Rattle.std.specs.Prelude.{◌≡◌, ◌<◌, true, false};
ghost use Rattle.teb_rules.specs.Stops.{access_stop, prepare_stop, commit_stop, begin_stop};
ghost use Rattle.version_chain.specs.Lists.{writers_of};
ghost use Rattle.engine_core.specs.Views.{store_in, events_in};
ghost use Rattle.engine_core.specs.Stopping.{AreTold};

use crate::access::Access;
use crate::asking::Asking;
use crate::engine_view::EngineView;
use crate::questions::{BeginQuestion, PrepareQuestion, ReadQuestion, WriteQuestion, first_stop};
use commit_gate::may_commit;
use teb_rules::Stop;
use teb_rules::names::Spot;
use version_chain::Chains;

/// Returns the stop of a read.
#[inline(always)]
pub fn read_stop<C: Chains>(access: &Access<'_, C>) -> Stop
    ensures { result ≡ access_stop (store_in access.now.asking.now.view.now).setup (events_in access.now.asking.now.view.now) access.now.asking.now.txn.0 access.now.cell false }
{
    let asking = access.asking;
    first_stop(
        asking.view,
        asking.nodes,
        ReadQuestion {
            txn: asking.txn,
            cell: access.cell,
        },
    )
}

/// Returns the stop of a write, whose version has, or would have, the place `at`.
pub fn write_stop<C: Chains>(access: &Access<'_, C>, at: Option<usize>) -> Stop
    requires told { AreTold (store_in access.now.asking.now.view.now).setup (events_in access.now.asking.now.view.now) access.now.cell access.now.asking.now.txn.0 at
        (writers_of (C.lists access.now.asking.now.view.now.state.now.chains access.now.cell)) }
    ensures { result ≡ access_stop (store_in access.now.asking.now.view.now).setup (events_in access.now.asking.now.view.now) access.now.asking.now.txn.0 access.now.cell true }
{
    let asking = access.asking;
    first_stop(
        asking.view,
        asking.nodes,
        WriteQuestion {
            txn: asking.txn,
            cell: access.cell,
            at,
        },
    )
}

/// Returns the stop of a Prepare.
pub fn prepare_stop<C: Chains>(asking: &Asking<'_, C>) -> Stop
    ensures { result ≡ prepare_stop (store_in asking.now.view.now).setup (events_in asking.now.view.now) asking.now.txn.0 }
{
    first_stop(
        asking.view,
        asking.nodes,
        PrepareQuestion { txn: asking.txn },
    )
}

/// Returns the stop of a Commit.
pub fn commit_stop<C: Chains>(asking: &Asking<'_, C>) -> Stop
    ensures { result ≡ commit_stop (store_in asking.now.view.now).setup (events_in asking.now.view.now) asking.now.txn.0 }
{
    let view = asking.view;
    may_commit(
        &view.state.controls,
        &view.state.book,
        &view.facts,
        asking.txn,
    )
}

/// Returns the stop of a Begin.
pub fn begin_stop<C: Chains>(view: &EngineView<C>, spot: Spot) -> Stop
    requires kind { spot.kind.0 < (store_in view.now).setup.types }
    ensures { result ≡ begin_stop (store_in view.now).setup (events_in view.now) spot }
{
    first_stop(view, view.facts.tree.path(spot), BeginQuestion { spot })
}
