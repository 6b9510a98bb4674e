//! Requests, replies, events and rows as C has them: structs of numbers and flags.
//!
//! `tebaldi_c` reads a request from the memory of its caller, and writes replies, events and rows there.
//!
//! | Form | Made from | Read as | First field |
//! |---|---|---|---|
//! | [`RequestForm`] | | [`request_in`] | `verb`, 1 to 10 |
//! | [`ReplyForm`] | [`reply_form`], [`put_short_form`] | [`reply_in`] | `kind`, 1 to 9 |
//! | [`CauseForm`] | [`cause_form`] | with its reply | `why`, 1 to 7; 0 says that there is none |
//! | [`EventForm`] | [`event_form`] | | `happened`, 1 to 7 |
//! | [`RowForm`] | [`row_form`] | | `table` |
//!
//! - The *form* of a value is its struct for C (`#[repr(C)]`). The first field says which variant it is, by its place among the
//!   variants from 1. A field that the variant does not have is 0.
//! - A [`ValueList`] is at most sixteen values, each of a row or of none: those of a scan, or the one of a read.
//! - The *line* of a reply is its text for a session, as `replay` prints it ([`line_of`]).
//!
//! **What is proved.** A form loses nothing: a reply is read back from its form ([`laws::replies_are_read_back`]), and two
//! events with the same form are the same ([`laws::events_differ`]). The forms are defined in `specs/`, a file for each kind.
//!
//! **Not claimed**: the places of the fields in memory, and that C's header has the same structs.
#![tactic(auto)]

mod causes;
mod events;
pub mod laws;
mod lines;
mod replies;
mod requests;
mod rows;
mod short;
mod values;

pub use causes::{CauseForm, cause_form};
pub use events::{EventForm, event_form};
pub use lines::line_of;
pub use replies::{ReplyForm, reply_form, reply_in};
pub use requests::{RequestForm, request_in};
pub use rows::{RowForm, row_form};
pub use short::put_short_form;
pub use values::ValueList;
