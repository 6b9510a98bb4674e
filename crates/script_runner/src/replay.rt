//! The replay of a script: its lines, in order, as one interleaving of sessions.
//!
//! `script_runner` and `phase_runner` run their scripts with [`replay`]. It asks each line once: a line that is answered `Again`
//! is not asked again. Then it asks End for each session that holds a transaction, in ascending number.
//!
//! ```text
//!   lines: 1 begin any   2 begin any   1 write t 1 5   2 read t 1        then: 1 End   2 End
//! ```
//!
//! **What is proved.** The engine's history is the one that these requests lead to from its history before (clause `events`),
//! and the log tells what it told, and then all replies with their sessions (`log`). Both are of the list `replayed`
//! (`specs/replay/Logs.antt`). The store and the names stay. [`holding_sessions`] lists the sessions with a transaction
//! (`specs/replay/Holders.antt`).
//!
//! **Not claimed**: which lines were asked if memory runs out: some of the first.

mod ends;
mod lines;
mod run;

pub use ends::holding_sessions;
pub use run::replay;
