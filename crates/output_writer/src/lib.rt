//! The end of a command: its text is written, and the process gets its status.
//!
//! `tebaldi` writes the output of a command with [`put_out`] or [`write`], and ends with [`exit_code`]. `tebaldi_shell`, which
//! writes each answer at once, uses [`exit_code`] alone.
//!
//! | Call | Writes | Status that it leaves |
//! |---|---|---|
//! | [`write`] | the text | the given one, or 4 if the text is not written whole |
//! | [`put_out`] | the text of an output; nothing if the command ran out of memory | as [`write`]; 8 if the command ran out of memory |
//! | [`silent`] | nothing | the given one |
//!
//! A [`WrittenOutput`] has this status, and the history of the run, if there was one.
//!
//! **What is proved.** Either the status is the given one and the whole text is written, or the status is 4 and a prefix of the
//! text is written, and not all; the history is the output's in both cases (`IsWritten`). Status 4 is left only if the sink's
//! count of faults rose (`fault`). At status 8 nothing is written, and no history is kept (`put_out`, clause `silent`).
//! [`exit_code`] is a process status of the same number.
//!
//! **Not claimed**: what the operating system does with the bytes and the status.
#![tactic(auto)]

mod exit;
mod writing;
mod written_output;

pub use exit::exit_code;
pub use writing::{put_out, silent, write};
pub use written_output::WrittenOutput;
