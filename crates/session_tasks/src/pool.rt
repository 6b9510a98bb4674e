//! Sessions along their scripts, by workers that take them from a queue: the command `pool N`.
//!
//! `hall_runner` calls [`run_pool`] with a hall, all its passes, the scripts, and a number of workers.
//!
//! ```text
//!   passes ──divide──► with a script: the queue, in ascending order ──► each worker takes the next when it has finished one
//!                  └─► without: idle                                      │
//!                                                                         ▼
//!   passes, in order ◄── finish: the caller serves what was stopped ◄── hands: what each worker took
//! ```
//!
//! - The sessions that have a script wait in a *queue*, each with its pass. Which worker serves which session is known only when
//!   the run is over.
//! - A worker's *hand* has the tasks that it took, in ascending order of their sessions.
//! - Each worker has a *token* of the queue. It has no bytes; in proofs it knows what its worker took. Put together, the tokens
//!   know what all workers took.
//! - The rule of the queue (`AreHandedOut` in `specs/pool/HandedOut.antt`): what was pushed is a prefix of the list of sessions, namely
//!   what was popped and then what the queue holds. So no session is lost or taken twice.
//! - A worker whose session meets an error stops the others. If none did, the caller takes and serves what is left in the queue.
//!
//! **What is proved.** [`run_pool`] returns the passes of the sessions 1 to 32 in order (clause `sessions`), each served
//! (`served`), and the sessions that each worker took: strictly ascending lists, in which each session with a script is once, and
//! no other ([`Pooled`], `taken`: `AreTaken`). An error is that of a session that met one, or out of memory (`first`, `cause`); by
//! inspection of the code, that of the lowest-numbered one.
//!
//! **Not claimed**: that the run ends, that two workers are at work at the same time, or that work is shared evenly. After an
//! error the other passes are gone, so the hall cannot be closed.

mod divide;
mod filling;
mod order;
mod queue;
mod rest;
mod run;
mod serving;
mod steps;
mod tally;
mod waiting;
mod worker;
mod worker_count;

pub use run::{Pooled, run_pool};
