//! Where the replies of a run go: their text, a list of them, or their number.
//!
//! `script_runner::replay` and `script_runner::turns` ask an engine, and give each reply to a [`Log`]. They are generic in the log, so a run
//! keeps no more than its caller needs.
//!
//! | Log | Keeps | An answer needs room for |
//! |---|---|---|
//! | [`ReplyText`] | the text, a line for each answer | nothing: a line that finds no memory waits for the next `ready` |
//! | [`AnswerList`] | the answers | one answer |
//! | [`AnswerCount`] | their number | nothing, below 2^64 |
//!
//! - An *answer* is a reply and the session that it is for (`Answered` of `script_text`).
//! - A log *tells* a list of answers. Each log says what this means for it (`tells`).
//! - `ready` makes room for one answer, and `add` uses it up. A run calls `ready` before it asks the engine, so no reply is
//!   lost if memory runs out.
//!
//! **What is proved.** `ready` leaves what the log tells, also if it fails (clause `told`). `add` and `add_short` append one
//! answer. `ReplyText::into_text` returns the lines of all answers, if all that they name has a name (`HasLines` in
//! `specs/Telling.antt`).
//!
//! **Not claimed**: that an answer has a line if it names a node or a table that has no name; it has none (`line_of`).
#![tactic(auto)]

mod answer_count;
mod answer_list;
mod log;
mod named;
mod reply_text;

pub use answer_count::AnswerCount;
pub use answer_list::AnswerList;
pub use log::Log;
pub use reply_text::ReplyText;
