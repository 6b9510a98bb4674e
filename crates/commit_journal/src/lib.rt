//! An engine whose commits are kept on a disk, in one journal.
//!
//! `crash_runner` runs a [`Durable`] on a disk that fails, and reads back what is left with [`recover`]. `engine_store` takes the
//! record of a commit from [`body_of`]. To keep a store over restarts, use `EngineStore` of `engine_store`.
//!
//! ```text
//!   Durable::create   a new journal on the disk, whatever it had
//!   Durable::ask      1  body_of        the record that the request would commit   Full, OutOfMemory: nothing is asked
//!                     2  room           memory for the answer and its record       OutOfMemory: nothing is asked
//!                     3  Engine::ask    the reply; if it is no commit, it is returned
//!                     4  append         write the record and a closed gate byte, sync, open the record's gate byte, sync
//!                                         Ok: Committed is returned; a call failed: DiskFault, and the store is stopped
//!   recover           the rows after the commits that a disk has, and how many these are
//! ```
//!
//! - The *record* of a commit has the transaction's last value of each cell that it put, if its version follows all other
//!   committed versions of the cell (`record_of` in `commit_laws`). So records in the order of commits leave the final table.
//! - A commit is *acknowledged* once it is answered. A store is *stopped* after the disk failed at a commit, which the disk may
//!   keep or not.
//!
//! **What is proved.** The reply and the events of `ask` are those of `answer` (clauses `reply`, `events`). A crash at any moment
//! of `ask`, or after it, leaves the records of the first k commits, and k is at least the number of acknowledged commits
//! (`any_moment`, `images`). On such an image [`recover`] returns the rows after these k commits, and reports no damage (`first`,
//! `no_damage`); they are the rows of a serial execution (`Durable::engine`, clause `serial`).
//!
//! **Not claimed**: that the commits of an earlier journal last: `create` begins an empty one over them. A journal uses the first
//! 1,048,576 bytes of a disk and no others.
#![tactic(auto)]

mod commit;
mod durable;
mod error;
mod recovery;

pub use commit::body_of;
pub use durable::Durable;
pub use error::{BodyError, CreateError, DurableError};
pub use recovery::recover;
