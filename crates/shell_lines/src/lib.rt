//! The lines of the shell: what each asks, and the texts that answer it.
//!
//! `shell_runner` parses a line with [`parse_line`], and appends the answer with the functions `put_..`.
//!
//! ```text
//!   line ──parse_line──► ShellLine
//!            the first word begins with a dot    a command of the shell: docs/FORMATS.md lists them
//!            any other line                      a line of a script, as in `replay`
//!            a line that is neither              a bad line, with the reason
//! ```
//!
//! - A [`ShellLine`] is what a line asks: a request of a session, a command, nothing (a blank line or a comment), or a bad line.
//! - A [`StoreReply`] is what a session is answered: the reply of the rules, `later` (the epoch ends; nothing was asked), `full`
//!   (the file has no room; nothing was asked), or `unsure` (the disk failed at the commit, which it may keep or not).
//! - A [`RowRange`] says which rows are asked for: a table, a least key and a most count, as far as they are given.
//! - A [`Checkpoint`] says whether the next epoch has begun, or what hinders it.
//!
//! **What is proved.** [`parse_line`] returns what `shell_line` says of the line (`specs/Lines.antt`). Each `put_..` appends the
//! text that its definition says, or returns out of memory.
//!
//! **Not claimed**: that an answer is true of a store; `shell_runner` proves that. After out of memory some of a text may be
//! appended.
#![tactic(auto)]

mod answers;
mod commands;
mod line;
mod parse;
mod reply;
mod rows;
mod sessions;
mod waits;

pub use answers::{
    put_bad, put_checkpoint, put_epoch, put_help, put_order, put_tables, put_types, put_unable,
};
pub use line::{Checkpoint, RowRange, ShellLine, Unable};
pub use parse::{parse_line, second_word};
pub use reply::{StoreReply, put_reply};
pub use rows::put_rows;
pub use sessions::{put_prompt, put_sessions};
pub use waits::{Wait, Waits};
