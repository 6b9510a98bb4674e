//! The store that goes on: an engine whose commits are kept on a disk, over epochs, crashes and reopenings.
//!
//! An [`EngineStore`] answers requests as its engine does, and a commit is on the disk before it is answered. The shell keeps its
//! store in one, and `embedded_file` shows one in a program.
//!
//! | Call | |
//! |---|---|
//! | `EngineStore::open` | begins an epoch with the rows that a disk has, or with those of the setup if it has none |
//! | `ask` | answers a request; a commit makes four calls of the disk, and all other requests none |
//! | `begin_group` | the same store, as an [`EngineGroup`], whose commits wait for the disk together |
//! | `EngineGroup::ask` | answers a request, without a call of the disk; a commit waits |
//! | `EngineGroup::sync` | writes all commits that wait in four calls of the disk, two of them syncs, and gives the store back |
//! | `split`, `join` | the two halves of the store, an [`EngineQueue`] and its journal, for two threads; and the store again |
//! | `EngineQueue::ask` | answers a request, without a call of the disk; a commit waits |
//! | `EngineQueue::take` | all commits that wait |
//! | [`write_commits`] | writes commits that were taken to the journal in four calls of the disk, two of them syncs |
//! | `EngineQueue::next_epoch` | as `next_epoch`, of the two halves |
//! | `is_drained` | whether no transaction is unfinished and each session was told of its abort, as `next_epoch` asks |
//! | `next_epoch` | writes a checkpoint of all rows, and goes on with a new engine over them, under any tree with the same tables |
//! | `renew` | the same store on a renewed disk, which has forgotten its past calls |
//! | `into_disk` | the disk, which may be opened again, also after a failure |
//!
//! - An *epoch* is the time of one engine, from an opening or a `next_epoch` to the next. Its transactions count from 1.
//! - A *life* is the epochs of a disk, one after the other, each up to the last commit that was kept (`specs/Lives.antt`).
//! - The *label* of a disk is the names of its tables. `open` refuses a disk with other tables, and writes nothing.
//! - A commit is *unsure* if the disk failed at it: the disk may keep it or not, and the store is *stopped* ([`AskError`]).
//!
//! **What is proved.** A crash at any moment of a call, or after it, leaves the rows after the first k commits of the epoch,
//! and k is at least the number of commits that were answered (`ask`, clauses `any_moment` and `images`); of a group, the
//! number of those that a `sync` has written (`EngineGroup::sync`, the same clauses). Of the two halves: if a journal keeps the
//! commits of a history, and a group has the commits since then, then `write_commits` says that the journal keeps all of them
//! (`kept`, `not_kept`, `any_moment`; `specs/Halves.antt`). The next opening finds these rows (`open`, clause `found`). The
//! serial orders of the commits that were kept, over all epochs, one after the other, are one serial order of the whole life
//! ([`lives_are_serial`], and the clauses `life`). The contracts say this for every past: a store keeps nothing of the epochs
//! before the present one.
//!
//! **Not claimed**: anything of a disk that loses bytes that were safe. No epoch ends by itself: a commit that the rest of the
//! half may not hold is refused (`Full`), until its owner calls `next_epoch`.
#![tactic(auto)]

mod error;
mod found;
mod group;
mod label;
mod laws;
mod next_epoch;
mod open;
mod open_error;
mod opening;
mod queue;
mod queue_epoch;
mod recorder;
mod renew;
mod store;
mod write;

pub use epoch_store::{AskError, WriteError};
pub use error::NextError;
pub use group::EngineGroup;
pub use label::label_tells_names;
pub use laws::{empty_disks_tell, lives_are_serial};
pub use next_epoch::{NotNext, next_engine};
pub use open_error::{NotOpened, OpenError};
pub use queue::EngineQueue;
pub use store::EngineStore;
pub use write::write_commits;
