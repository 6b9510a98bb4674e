//! Sessions along their scripts, by several threads over one engine: the command `threads N`.
//!
//! `hall_runner` calls [`run_threads`] with a hall, all its passes, the scripts, and a number of workers.
//!
//! ```text
//!   passes ──deal──► a hand for each worker ──a thread for each hand──► tasks: through, stopped or failed
//!                                                                           │
//!   passes, in order ◄── finish: the caller serves what was stopped ◄── gather, in the order of the sessions
//! ```
//!
//! - A *worker* is a thread that serves the tasks of its *hand*. The script at place i, from 0, is in hand i mod N.
//! - A hand is a stack, dealt from the last session to the first. So the least session that is still out is on top of its hand.
//! - A worker whose session meets an error raises the stop word, at which the others stop before their next request.
//! - If no thread can be made, the hands are served one after the other.
//!
//! **What is proved.** [`run_threads`] returns the passes of the sessions 1 to 32 in order (clause `sessions`), each served: its
//! entries are a whole walk along its script, or it has no script and asked nothing (`served`). An error is that of a
//! session that met one, or out of memory (`first`, `cause`); by inspection of the code, that of the least one.
//!
//! **Not claimed**: that the run ends, that two workers are at work at the same time, or which interleaving results. After an
//! error the other passes are gone, so the hall cannot be closed.

mod deal;
mod gather;
mod hand;
mod run;
mod worker;

pub use run::run_threads;
