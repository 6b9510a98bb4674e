//! The commands `threads N` and `pool N`: an input is run by several workers over one engine, and the run is printed.
//!
//! `tebaldi` calls [`serve_by_threads`] or [`serve_by_pool`] with an input that was read, and the trials call both.
//!
//! ```text
//!   Input ──scripts_of──► a script for each session ──┐
//!         └─setup──► Engine ──Hall::make──► hall ─────┴─► run_threads, or run_pool ──► passes
//!                                                                                        │
//!         text ◄── start rows, events, order, final rows ◄── engine, entries ◄── Hall::close
//! ```
//!
//! - A [`Served`] is what a run comes to: `Through` has the output and the entries; `Spent` has the pass of a session that has
//!   asked as often as it may.
//! - A *printed run* is the starting rows, the events with the oldest first, the order, the final rows and `end`. `audit` checks
//!   one.
//!
//! **What is proved.** The entries are one legal run. Those of each session with a script are a whole walk along it, and no other
//! session has any. The text is that of the history to which the entries lead, and it passes the audit (`served`: `IsServedBy`,
//! `AreServed`). The history is serialized by its serial order (`serialized`). A spent pass has seen a legal run, and has come
//! some way along its script (`IsSpentOn`). That no session of a lower number met an error holds by inspection of the code.
//!
//! **Not claimed**: that a run ends, in what time, or which history results: two runs of one input may differ.
#![tactic(auto)]

mod closing;
mod printed;
mod served;
mod serving;

pub use served::Served;
pub use serving::{serve_by_pool, serve_by_threads};
