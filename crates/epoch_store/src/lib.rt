//! A store whose commits are kept on a disk, in epochs.
//!
//! An [`EpochStore`] is an engine and an `EpochJournal`. The engine is any [`Recorder`]: it answers as the rules do, and tells the
//! record of a commit before it makes it. `engine_store` makes the engine of `engine_core` one, and opens such a store.
//!
//! ```text
//!   ask ──► the record that the request would commit, and room for the answer ──► Full, OutOfMemory: nothing was asked
//!                │
//!                ▼
//!           the engine's answer ──► no commit: the reply; the disk is not touched
//!                │ Committed
//!                ▼
//!           append: write the record, sync, write its commit mark, sync ──► Committed, and the commit is acknowledged
//!                                                                      └──► a call failed: Unsure, and the store is stopped
//! ```
//!
//! - An *epoch* is the time of one engine. `next_epoch` ends it with a checkpoint of all rows, and goes on with another engine
//!   that starts with these rows.
//! - A commit is *acknowledged* once it is answered (`acknowledged`). It is *unsure* if the disk failed at it: the history has it,
//!   and the disk may keep it or not.
//! - A store is *stopped* if a call of its disk has failed. It answers `Stopped` from then on.
//! - In a *group commit* several commits share the calls of the disk that one takes. `begin_group` turns the store into a
//!   [`GroupCommit`], whose `ask` lets commits wait; its `sync` writes all of them and gives the store back.
//!
//! ```text
//!   begin_group ──► ask: the engine's answer; a commit waits, and the disk is not touched ──► ask ──► ..
//!                                                                                              │
//!                                                                                              ▼
//!        all commits are acknowledged ◄── sync: write all records, sync, write the first commit mark, sync
//! ```
//!
//! - A store may be *split* into its halves: a [`CommitQueue`], the engine with the records of its commits that wait, and the journal.
//!   One thread then answers without a call of the disk, while another one writes.
//!
//! ```text
//!   split ──► CommitQueue::ask: the engine's answer; a commit waits ──► ask ──► .. ──► take: all records that wait
//!     │                                                                                          │
//!     ▼                                                                                          ▼
//!   EpochJournal ─────────────────────────► write_group: write all records, sync, write the first commit mark, sync
//! ```
//!
//! **What is proved.** The reply and the events of `ask` are those of `answer` (clauses `reply`, `events`). A crash at any moment
//! of `ask`, or after it, leaves the rows after the first k commits of the epoch, and k is at least the number of acknowledged
//! commits (`any_moment`, `images`). Every error but `Unsure` leaves the store as it was (`not_asked`). A crash at any moment of
//! `next_epoch` leaves the rows after all commits of the epoch that ends. `GroupCommit::ask` makes no call of the disk, and
//! `GroupCommit::sync` four, however many commits wait; a crash at any moment of them leaves the first commits too, at least those
//! that were acknowledged before. `CommitQueue::ask` lets the record of each commit wait after the others (`waits`), and `take`
//! returns those that waited. Whatever records a journal keeps, `write_group` says that it keeps the group after them (`kept`,
//! `not_kept`, `any_moment`). So neither half needs the history of the other.
//!
//! **Not claimed**: anything of serial orders, or of epochs that are past: that is `engine_store`. No epoch ends by itself, and no
//! group: who answers the commits of a group to its clients before `sync` has returned `Ok` may tell them of commits that a crash loses.
#![tactic(auto)]

mod error;
mod group_commit;
mod queue;
mod recorder;
mod renew;
mod store;
mod write;

pub use error::{AskError, NotBegun, WriteError};
pub use group_commit::GroupCommit;
pub use queue::CommitQueue;
pub use recorder::{PrepareError, Recorder};
pub use store::EpochStore;
pub use write::write_group;
