//! Laws of every engine at every moment, of its versions and of the order that `order` returns.

ghost use Rattle.teb_rules.specs.laws.Laws.{OrdersVersions, RanksAgree};
ghost use Rattle.teb_rules.specs.Serializes.{Serializes};
ghost use Rattle.serial_order.specs.Laws.{OfEveryEngine, OfEveryOrder, KeepsConflicts};

/// The versions of each cell are in a strict total order, also with one that is about to be put.
pub fn versions_are_ordered()
    ensures { OfEveryEngine (λ e. OrdersVersions e.store.setup e.events) }
{}

/// The order keeps the conflicts of committed transactions: their versions are in version order; a writer precedes the transactions that read
/// from it; and a reader precedes the writers of later versions. What was read from a writer is its last version.
pub fn order_keeps_conflicts()
    ensures { OfEveryOrder KeepsConflicts }
{}

/// The ranks at the nodes above a node do not go against its order.
pub fn ranks_rise()
    ensures { OfEveryEngine (λ e. RanksAgree e.store.setup e.events) }
{}

/// The order serializes the history.
pub fn order_serializes()
    ensures { OfEveryOrder (λ e order. Serializes e.store e.events order) }
{}
