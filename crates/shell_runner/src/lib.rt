//! The run of the shell: each line is read, answered and written before the next one is read.
//!
//! `tebaldi_shell` calls [`run`] over its store. A run is generic over the store, the source of the lines and the sink of the
//! answers.
//!
//! ```text
//!   Source ──LineReader──► line ──parse_line──► ShellLine ──the store answers──► text ──write_whole──► Sink
//!                            ▲                                                                          │
//!                            └────────────── the next line is read when the text is written ────────────┘
//! ```
//!
//! - A [`ShellStore`] keeps commits in epochs. The shell asks it for replies, rows, the serial order and the next epoch.
//! - A [`Shell`] is the store between two lines, the number of the epoch, and the format of the tree text.
//! - An *epoch* ends by a line that asks for it. It has to end (`HasToEnd`) if 8,192 transactions have begun in it, or if it has
//!   commits and fewer than 65,536 bytes are left for it: then a Begin of a session without a transaction first begins the next
//!   one, under the same tree. While a transaction is unfinished, or a session was not told of its abort, that session is told
//!   `later` in its place.
//! - A run *ends* at the end of the input or at `.quit`, after each session that holds a transaction is ended; or early, at a
//!   failure. Its [`EndStatus`] says which, and whether a line was bad.
//!
//! **What is proved.** The text is, line by line, what `IsAnswered` says of the line and of the store before it, and then the
//! answers to the ends of the sessions that hold a transaction, in ascending number; a prefix of that text if a write failed
//! ([`run`], clause `ended`: `HasEnded`). If the run is `Done`, no line is left, or the last one was `.quit`, or 2^64 - 2 lines were
//! answered (`IsThrough`), and no session holds a transaction (`closed`); `any_bad` is true if and only if a line was bad
//! (`status_of`). `DiskFault` is returned only if the disk failed at the last step (`stopped`), `TooLong` only if the next line is
//! too long (`too_long`), and no line that is answered is (`short` of `TakesStep`). Whatever a crash leaves between two states has
//! the commits that the text before it acknowledges (`safe` of [`ShellStore`], in each `IsStep`). `ReadFault` and `WriteFault` are
//! returned only if the source's or the sink's count of faults rose (`read_fault`, `write_fault`); with any other status than
//! `ReadFault` the source's count is as it was (`no_read_fault`).
//!
//! **Not claimed**: that an input ends. After `OutOfMemory` the shell may have asked the last line without an answer.
#![tactic(auto)]

mod asking;
mod ended;
mod ends;
mod files;
mod host;
mod requests;
mod running;
mod shell;
mod step;
mod store;
mod writing;

pub use ended::{EndStatus, Ended, RunError};
pub use host::{FileError, Host};
pub use running::run;
pub use shell::Shell;
pub use store::{EpochError, ShellStore};
