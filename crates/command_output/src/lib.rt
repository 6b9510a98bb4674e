//! The output of a command: a status, a text, and the history of the run, if there was one.
//!
//! The crates that run a command return an [`Output`], `output_writer` writes it, and `tebaldi` ends with its status.
//!
//! - A *status* is the exit code of the process. [`status`] has the numbers: 0 if the command is done, and one for each way in
//!   which it may not be.
//! - The *history* is the list of events of the run. It is not written: the contracts of the top call speak of it.
//!
//! **What is proved.** Contracts see an output as a `Shown` (`specs/Shown.antt`), and each call returns the one that it says.
//! Its status is never that of a failed read (3), of a failed write (4) or of out of memory (8), which other crates find
//! (`IsShowable`).
//!
//! **Not claimed**: that a status is right for a run. The contract of each command says that.
#![tactic(auto)]

mod output;
pub mod status;

pub use output::Output;
