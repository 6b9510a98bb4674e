//! The command `phases`: several scripts, each replayed under its tree, over the tables that the previous one left.
//!
//! `tebaldi` calls [`run_phases`] with the bytes of the input.
//!
//! ```text
//!   bytes ──read_phases──► tree part, script part │ tree part, script part │ ..      between lines `%%`, at most 16 pairs
//!                                │                        │
//!                                ▼                        ▼
//!                          replay, report ──final rows──► replay, report ──final rows──► ..
//! ```
//!
//! - A *pair* is a tree part and the script part after it. A *phase* is the run of a pair, in a new engine.
//! - Each later pair has the tables of the one before it, with the same names in the same order, and no rows. The tree may be
//!   another.
//! - A *fault* is why no phase runs ([`PhaseError`]): all pairs are read and checked before the first request. The first fault in
//!   the order of [`read_phases`] is shown, with status 12, or as `input_reader` shows it.
//!
//! **What is proved.** The text is the first fault, or the reports of all phases, one after the other ([`run_phases`], clause
//! `shown`: `ArePhases`). Each phase is a replay that starts with the final rows of the previous one (`RunFrom`). All phases
//! together are one serial run: the serial orders, one after the other, reproduce every committed read and the last tables
//! (`RunAsOne`; `IsSerial` in `tree_switch`).
//!
//! **Not claimed**: that memory suffices. No history is kept, since there is one for each phase.
#![tactic(auto)]

mod error;
mod parts;
mod phase;
mod reading;
mod refused;
mod run;

pub use error::{PhaseError, PhaseWhy};
pub use reading::read_phases;
pub use run::run_phases;
