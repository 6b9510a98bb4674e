//! A store in epochs on a disk, as a shared store serves it.
//!
//! `shared_store` shares one `EpochServer` and its log among sessions. A [`StoreServer`] is the one of this repository: the half of
//! an `EngineStore` that answers, under one tree text, which it reads again for each epoch. Its log is the other half, an
//! `EpochJournal`.
//!
//! | `EpochServer` asks | A [`StoreServer`] answers |
//! |---|---|
//! | `serve` | as `EngineQueue::ask` does: a commit waits, and the disk is not touched |
//! | `is_ending` | true once 8,192 transactions have begun, or a commit did not fit, or less than an eighth is left of the bytes that the epoch had at its beginning |
//! | `holds` | whether the history has a live transaction of the session |
//! | `obstacle` | whether a transaction is unfinished; else the least session that was not told of an abort |
//! | `take` | all commits that wait |
//! | `write` | as `write_commits` does: four calls of the disk, two of them syncs, however many commits there are, and none if there is none |
//! | `next_epoch` | as `EngineQueue::next_epoch` does, under the same tree |
//!
//! [`open_file`] opens a file and shares it in one call. [`StoreServer::open`] opens any disk under a tree text, which may be another one
//! than before over the same tables. It returns both
//! halves; `StoreServer::into_store` joins them again.
//!
//! **What is proved.** An opened store has the rows of its disk, and nothing has happened in it. On a disk that a crash left
//! these are the rows after the first k commits of the last epoch, and k is at least the number of the commits that were
//! answered (clause `found`: `IsFound` in `specs/Found.antt`). The log keeps what `EpochServer` asks of it: a crash leaves the rows
//! after the first k commits of the epoch, for a k that is at least the number of those that were written (`KeepsCommits` of
//! `engine_store`). An epoch is to end if and only if 8,192 transactions have begun, a commit did not fit, or fewer bytes are left than
//! the server holds in reserve (`is_to_end` in `specs/Ending.antt`). If something keeps an epoch from its end, `obstacle` says what
//! (`IsObstacle` of `shared_store`). [`shared_lives_are_serial`]: the life of a shared store goes on from
//! its past epochs as one serial run.
//!
//! **Not claimed**: that an epoch ends in time. A transaction that stays open keeps the next epoch from beginning.
#![tactic(auto)]

mod error;
mod file_store;
mod laws;
mod obstacles;
mod opening;
mod server;

pub use error::{NotOpened, OpenFileError, OpenStoreError};
pub use file_store::{FileServer, open_file};
pub use laws::shared_lives_are_serial;
pub use server::StoreServer;
