//! The laws of the rules: what holds of the history of every run of a store.
//!
//! Each function has an empty body, and its contract is one law. A caller may use the law after the call. `OfEveryStore P` (of
//! `specs/laws/Laws`) says that `P` holds of every sound store and the history of every list of requests, of any sessions, in any order.
//! Since every answer depends on the history alone, this covers every interleaving.
//!
//! | Law | In the field |
//! |---|---|
//! | [`every_run_serializes`] | view serializability in the serial order, final writes included; and recoverability |
//! | [`conflicts_are_ordered`] | at the node where two committed transactions meet, each conflict goes up in rank |
//! | [`versions_are_ordered`] | the version order of a row is a strict total order |
//! | [`reads_are_stable`] | what a committed transaction read is the writer's last version |
//! | [`ranks_agree`], [`batches_nest`] | the orders of the nodes on a path do not contradict each other |
//! | [`settled_hold_no_pivot`] | no dangerous structure among the prepared and committed transactions of a snapshot node |
//! | [`waits_are_for_older`] | waits go to older transactions only, so there is no deadlock |
//! | [`cascades_are_few`], [`sessions_hold_one`] | an abort takes at most 31 others with it; a session holds at most one transaction |
//! | [`histories_only_grow`] | outcomes last |
//! | [`lone_transactions_are_served`] | a transaction that runs alone is never stopped |
//! | [`names_are_known`] | a reply or an event names only nodes, tables and types that exist |
//!
//! **Why they hold.** Each event of a run was granted in the history before it (`Lawful` of `specs/laws/Lawful`). So each law goes by
//! induction on the history, with one case for each kind of event. The serial order is right because the conflicts go up in rank at
//! each node, and the ranks at the nodes above agree.
//!
//! **Not claimed**: that a transaction ever commits (it may be aborted again and again); anything of what an aborted transaction
//! read; anything of stores that are not sound.

ghost use Rattle.teb_rules.specs.laws.Laws.{OfEveryRun, OfEveryStore, EveryRunSerializes, OrdersVersions, OrdersConflicts, RanksAgree};
ghost use Rattle.teb_rules.specs.laws.Laws.{BatchesNest, SessionsHoldOne, CascadesAreFew, WaitsForOlder, OnlyGrows, ReadsAreStable, ServesAlone};
ghost use Rattle.teb_rules.specs.laws.Pivots.{HoldsNoPivot};
ghost use Rattle.teb_rules.specs.laws.Within.{StaysWithin};

/// The serial order serializes the history.
pub fn every_run_serializes()
    ensures { EveryRunSerializes }
{}

/// The order of versions is a strict total order, also with a writer that is about to put.
pub fn versions_are_ordered()
    ensures { OfEveryRun OrdersVersions }
{}

/// Conflicts are ordered by the ranks at the node where the two transactions meet.
pub fn conflicts_are_ordered()
    ensures { OfEveryRun OrdersConflicts }
{}

/// What a committed transaction read from another was the other's last version of the cell.
pub fn reads_are_stable()
    ensures { OfEveryRun ReadsAreStable }
{}

/// The ranks at the nodes above do not go against the order of a node.
pub fn ranks_agree()
    ensures { OfEveryRun RanksAgree }
{}

/// The unfinished transactions of a side share a batch. The batch of a transaction lies within one batch of each node above, and the
/// transactions of one batch share one there.
pub fn batches_nest()
    ensures { OfEveryRun BatchesNest }
{}

/// Transactions that are prepared or committed hold no pivot at a snapshot node.
pub fn settled_hold_no_pivot()
    ensures { OfEveryRun HoldsNoPivot }
{}

/// A session holds at most one transaction.
pub fn sessions_hold_one()
    ensures { OfEveryRun SessionsHoldOne }
{}

/// An abort takes fewer than `SESSIONS` others with it.
pub fn cascades_are_few()
    ensures { OfEveryRun CascadesAreFew }
{}

/// An Again names an unfinished transaction of smaller number.
pub fn waits_are_for_older()
    ensures { OfEveryStore WaitsForOlder }
{}

/// A history only grows, and no outcome changes.
pub fn histories_only_grow()
    ensures { OfEveryStore OnlyGrows }
{}

/// A transaction that runs alone is never told to wait, and nothing breaks it, though a request of it may be refused. If no
/// transaction is unfinished, one may begin.
pub fn lone_transactions_are_served()
    ensures { OfEveryStore ServesAlone }
{}

/// Replies and events name nodes of the tree, and tables and types of the store, and no others.
pub fn names_are_known()
    ensures { OfEveryStore StaysWithin }
{}
