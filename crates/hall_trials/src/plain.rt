//! A hall over the plain tree: the table `t`, the type `any`, one locks leaf, and no rows.

ghost use Rattle.std.specs.Prelude.{◌≡◌, All, map, IfOk};
ghost use Rattle.teb_rules.specs.history.Phases.{numbers};
ghost use Rattle.session_server.specs.Passes.{IsNew, number_of};

use chain_pool::PooledChains;
use engine_core::Engine;
use session_server::{Hall, Pass};
use std::alloc::Global;
use std::process::Abort;
use std::test::Fail;
use teb_rules::names::{Cell, Kind, SESSIONS, Spot, Table};
use tree_toml::read_tree;

/// The type `any`.
pub(crate) const ANY: Spot = Spot {
    kind: Kind(0),
    instance: 0,
};

/// A cell of the table `t`.
pub(crate) const CELL: Cell = Cell {
    table: Table(0),
    key: 1,
};

/// Returns a hall that was asked nothing yet, and the passes of the sessions 1 to `SESSIONS`, in order.
pub(crate) fn plain_hall<R: Abort>(
    rt: &R,
    alloc: Global,
) -> Result<(Hall<PooledChains>, Vec<Pass<PooledChains>>), Fail>
    ensures passes { IfOk result (λ r. All (IsNew r.0) r.1.items) }
    ensures sessions { IfOk result (λ r. map number_of r.1.items ≡ numbers SESSIONS) }
{
    let setup = read_tree(alloc, b"")?;
    let engine = Engine::new(alloc, setup, PooledChains::new(alloc))?;
    match Hall::make(alloc, engine) {
        Ok(made) => Ok(made),
        Err(_) => panic!(rt; "memory"),
    }
}
