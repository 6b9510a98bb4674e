//! Scripts on one engine, by one thread, and the commands `replay` and `turns` over them.
//!
//! [`replay`] asks the lines in their order; [`turns`] is the driver that gives each session its turn. The functions here run an input
//! by one of the two, and write the report.
//!
//! `tebaldi` calls [`run_replay`] or [`run_turns`] with an input that was read. `shop_load` runs its lines with [`in_turns`], and
//! `phase_runner` and `crash_runner` write their reports with `report_of` and `put_replies`.
//!
//! ```text
//!   Input ──► Engine ──in_order: each line once, in order, then End for each session that holds a transaction──┐
//!                    └─in_turns: one script for each session, until all are done ──────────────────────────────┤
//!                                                                                                              ▼
//!   Output: status 0, text, history ◄── report_of: replies, serial order, final rows ◄── engine, log of the replies
//! ```
//!
//! - A *run* is the replies and the history that lines lead to over a store (`Run` in `specs/Runs.antt`).
//! - A *report* is the reply lines, the serial order of the committed transactions, and the final rows (`IsReport`).
//! - A *log* takes the replies (`answer_log`): in these commands it is their text, written into the memory of the input.
//!
//! **What is proved.** What is shown is the run of the input and its report, with status 0 (clause `shown`:
//! `IsRun IsReplay IsReport`, `IsRun AreTurns IsReport`). `turns` asks at most `12 * sessions * (lines + 1)` requests
//! (`AreTurns`). The history is serialized by its serial order over the store of the setup (`serialized`).
//!
//! **Not claimed**: that memory suffices. After out of memory there is no output.
#![tactic(auto)]

mod driving;
mod interleaving;
mod output;
pub mod replay;
mod report;
mod run;
pub mod turns;

pub use driving::in_turns;
pub use interleaving::in_order;
pub use output::output_of;
pub use report::{put_replies, report_of};
pub use run::{run_replay, run_turns};
