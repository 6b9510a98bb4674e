//! The text of scripts, replies, events and reports: the grammar that is read, and the lines that are written.
//!
//! ```text
//!   3 write account 1 -30      a line of a script: session, verb, words of the verb
//!   3 done                     the reply, for session 3
//!   put t7 account 1 -30       the event
//!   order t5 t7                a report: the serial order,
//!   row account 1 -30          the final rows,
//!   end                        and the end
//! ```
//!
//! | Reads | Returns |
//! |---|---|
//! | [`split_input`] | the parts of an input before and after its line `%%` |
//! | [`parse_script`] | the lines that ask something, or the first bad line and why ([`ScriptError`]) |
//! | [`scripts_of`] | the script of each session that has a line |
//! | [`has_more_lines`], [`number`] | whether a script is too long; a number in decimal |
//!
//! | Writes | Appends |
//! |---|---|
//! | [`put_reply`], [`put_short_reply`] | the line of a reply |
//! | [`put_event`] | the line of an event |
//! | [`put_starts`], [`put_report`], [`put_recovered`] | starting rows; the report of a run; what was recovered |
//!
//! - A *line* is what is between two line feeds, without one carriage return at its end. A last line that is empty does not
//!   count.
//! - A line asks nothing if it is blank or begins with `#`.
//! - Names become their numbers in the tree. A name that the tree does not have becomes 255, which the store refuses.
//!
//! **What is proved.** [`parse_script`] returns what `script_of` (`specs/Grammar.antt`) says of the text: all lines, or the
//! first bad line with the first of its faults. Each `put_..` appends the text of its definition (`specs/Texts.antt`).
//!
//! **Not claimed**: what is appended once memory runs out, unless the contract says that nothing is.
#![tactic(auto)]

mod error;
mod input;
mod line_count;
mod script;
mod scripts;
mod text;

pub use error::{LineWhy, ScriptError};
pub use input::{MOST_BYTES, MOST_LINES, split_input};
pub use line_count::has_more_lines;
pub use script::{number, parse_script};
pub use scripts::{Scripts, scripts_of};
use teb_rules::names::{Reply, Request, Session};
pub use text::{put_event, put_recovered, put_reply, put_report, put_short_reply, put_starts};

/// A line that asks something.
#[derive(Clone, Copy, Debug, PartialEq, Eq)]
pub struct Line {
    /// Its number among all lines of the script, from 1.
    pub number: u32,
    pub session: Session,
    pub request: Request,
}

/// A reply, with the session that it is for.
#[derive(Clone, Copy, Debug, PartialEq, Eq)]
pub struct Answered {
    pub session: Session,
    pub reply: Reply,
}
