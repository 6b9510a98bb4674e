//! An access that is not refused.

ghost use Rattle.engine_core.specs.Asking.{IsAsking};
ghost use Rattle.engine_core.specs.Views.{store_in, events_in};

use crate::asking::Asking;
use teb_rules::names::Cell;
use version_chain::Chains;

/// A transaction that asks to access a cell, and is not refused.
#[derive(Drop)]
pub struct Access<'a, C: Chains> {
    pub asking: &'a Asking<'a, C>,
    pub cell: Cell,
    ghost asks: { IsAsking (store_in asking.now.view.now).setup (events_in asking.now.view.now) asking.now.txn.0 cell },
}
