//! The printed run of an engine: its starting rows, its events, its serial order and its final rows, as `audit` takes them.
//!
//! `hall_runner` prints a run by several threads with it, `tebaldi_c` returns it to C, and `script_runner` ends its reports with
//! [`put_ending`].
//!
//! ```text
//!   start t 1 10         the starting rows
//!   began t1 1 any       the events, with the oldest first
//!   got t1 t 1 t0 10
//!   ..
//!   order t1             put_ending: the serial order of the committed transactions,
//!   row t 1 11                       the final rows
//!   end
//! ```
//!
//! **What is proved.** The text of [`printed_run`] is that of the engine's store and history (`text`: `IsPrintedRun`), and `audit`
//! accepts it (`audited`: `IsAudited`), if each node of the store has a name, all names have the form of names, and no two tables have
//! the same one (`IsNamedBy`). So the rules, the serial order and the final rows of the text agree with one another.
//!
//! **Not claimed**: that a text which the audit accepts is of an engine. That memory suffices: after out of memory there is no text.
#![tactic(auto)]

mod ending;
mod printing;

pub use ending::put_ending;
pub use printing::printed_run;
