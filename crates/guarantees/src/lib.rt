//! What each tree of controls guarantees, in the terms of the field.
//!
//! Each function has an empty body, and its contract is one law. A law holds of every sound store and every list of requests. If it
//! needs a shape of the tree, the shape is its only premise (`specs/Shapes`).
//!
//! | Law | Guarantee | If |
//! |---|---|---|
//! | [`nobody_deadlocks`] | the wait-for graph has no cycle; the lowest-numbered active transaction is never told to wait | |
//! | [`aborts_name_their_cause`] | what an abort names is true, and is what the history keeps | |
//! | [`serial_order_keeps_time`] | strict serializability | the root is a locks or a pipeline node, or a leaf, or has batches of one |
//! | [`serial_order_is_commit_order`] | the serial order is the order of the commits | the root is a locks or a pipeline node |
//! | [`aborts_stay_alone`] | no cascading aborts | every node is a locks or a snapshot node |
//! | [`reads_go_on`] | reads neither wait nor break | every node of the path is a timestamp or a snapshot node |
//!
//! Three more contracts show where a guarantee ends: [`greater_batches_lose_time`], [`early_reads_fall`], [`other_reads_wait`]. Each
//! names a sound store and a list of requests after which the stronger sentence is false (`Breaks` of `specs/Shapes`). The last two
//! also say what happens then (`Shows`). For the first, under a timestamp or a snapshot root with batches of two:
//!
//! ```text
//!   session 1, side A   Begin                                           keeps a batch of side A open
//!   session 2, side B            Begin  Write x  Commit
//!   session 3, side A                                    Begin  Read x  Commit
//!
//!   3 begins after 2 has committed, joins the open batch of 1, and precedes 2 in the serial order: it does not read the write of 2
//! ```
//!
//! **Not claimed**: serializability and recoverability, which hold of every tree and are laws of `teb_rules::laws`; freedom from starvation.
#![tactic(auto)]

ghost use Rattle.teb_rules.specs.laws.Laws.{OfEveryRun, OfEveryStore};
ghost use Rattle.teb_rules.specs.declared.names.ControlKind.TheVariants.{Locks, Pipeline, Timestamp, Snapshot};
ghost use Rattle.guarantees.specs.Shapes.{Breaks, Shows, one_node, two_sides};
ghost use Rattle.guarantees.specs.Runs.{late_joiner, early_reader, writer_underway};
ghost use Rattle.guarantees.specs.Time.{IsStrict, IsCommitOrdered, KeepsRealTime, FollowsCommits};
ghost use Rattle.guarantees.specs.Waiting.{HasNoDeadlock};
ghost use Rattle.guarantees.specs.Reading.{ReadsGoOn, ReadsAreServed, HasWaitingRead};
ghost use Rattle.guarantees.specs.Cascades.{AbortsAlone, HasCascade, HasNoCascade};
ghost use Rattle.guarantees.specs.Causes.{NamesCauses};

/// Strict serializability: if the root is a locks or a pipeline node, or a leaf, or admits one transaction a batch, a transaction that
/// committed before another began precedes it in the serial order.
pub fn serial_order_keeps_time()
    ensures { OfEveryRun IsStrict }
{}

/// If the root is a locks or a pipeline node, the serial order is the order of the commits.
pub fn serial_order_is_commit_order()
    ensures { OfEveryRun IsCommitOrdered }
{}

/// The wait-for graph has no cycle of any length, and the lowest-numbered unfinished transaction never waits.
pub fn nobody_deadlocks()
    ensures { OfEveryStore HasNoDeadlock }
{}

/// Under timestamp and snapshot nodes alone, reads neither wait nor break; and Late and First answer writes alone.
pub fn reads_go_on()
    ensures { OfEveryStore ReadsGoOn }
{}

/// In a tree of locks and snapshot nodes an abort takes no other transaction with it.
pub fn aborts_stay_alone()
    ensures { OfEveryStore AbortsAlone }
{}

/// Every abort names its cause.
pub fn aborts_name_their_cause()
    ensures { OfEveryStore NamesCauses }
{}

/// Under a timestamp or a snapshot root with batches of two, a transaction that begins after another committed may precede it; so the
/// serial order is not that of the commits.
pub fn greater_batches_lose_time()
    ensures timestamps { Breaks (λ X H. KeepsRealTime X.setup H) (two_sides Timestamp) late_joiner }
    ensures snapshots { Breaks (λ X H. KeepsRealTime X.setup H) (two_sides Snapshot) late_joiner }
    ensures commits { Breaks (λ X H. FollowsCommits X.setup H) (two_sides Timestamp) late_joiner }
{}

/// Under a pipeline and under timestamps a version may be read before its writer commits. Then the writer's Abort also aborts the
/// reader, which is still running.
pub fn early_reads_fall()
    ensures pipelines { Breaks HasNoCascade (one_node Pipeline) early_reader }
    ensures timestamps { Breaks HasNoCascade (one_node Timestamp) early_reader }
    ensures pipelines_cascade { Shows HasCascade (one_node Pipeline) early_reader }
    ensures timestamps_cascade { Shows HasCascade (one_node Timestamp) early_reader }
{}

/// Under locks and under a pipeline a read can be told to wait for a running transaction that has written the cell.
pub fn other_reads_wait()
    ensures locks { Breaks ReadsAreServed (one_node Locks) early_reader }
    ensures pipelines { Breaks ReadsAreServed (one_node Pipeline) writer_underway }
    ensures locks_wait { Shows HasWaitingRead (one_node Locks) early_reader }
    ensures pipelines_wait { Shows HasWaitingRead (one_node Pipeline) writer_underway }
{}
