//! The state in which a history leaves the cells.

ghost use Rattle.teb_rules.specs.laws.Lawful.{Lawful};
ghost use Rattle.phase_api.specs.FactsView.{setup_of, events_of};
ghost use Rattle.phase_api.specs.Versions.{HoldsVersions};
ghost use Rattle.serial_order.specs.Props.{kept};

use phase_api::Facts;
use teb_rules::names::Rows;
use version_chain::Chains;

/// Facts of a lawful history, the chains that hold its versions, the starting rows, and how many tables there are.
#[derive(Drop)]
pub(crate) struct EndState<'a, C: Chains> {
    pub(crate) facts: &'a Facts<'a>,
    pub(crate) chains: &'a C,
    pub(crate) rows: &'a Rows,
    pub(crate) tables: u8,
    ghost lawful: { Lawful (setup_of facts.now) (events_of facts.now) } by { Prim.hlevel kept },
    ghost held: { HoldsVersions (setup_of facts.now) (events_of facts.now) (C.lists chains.now) } by { Prim.hlevel kept },
}
