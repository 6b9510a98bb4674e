//! The facts of a setup and a history, with the controls of all nodes, which keep the batches.

ghost use Rattle.teb_rules.specs.Accepted.{IsSound};
ghost use Rattle.teb_rules.specs.laws.Lawful.{Lawful};
ghost use Rattle.phase_api.specs.FactsView.{setup_of, events_of};
ghost use Rattle.serial_order.specs.Props.{kept};

use engine_core::AnyControl;
use phase_api::Facts;

/// Facts of a sound setup and a lawful history, and the controls of the nodes.
#[derive(Clone, Copy)]
pub(crate) struct Booked<'a> {
    pub(crate) facts: &'a Facts<'a>,
    pub(crate) controls: &'a [AnyControl],
    ghost sound: { IsSound (setup_of facts.now) },
    ghost lawful: { Lawful (setup_of facts.now) (events_of facts.now) } by { Prim.hlevel kept },
}
