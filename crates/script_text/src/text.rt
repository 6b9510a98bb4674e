//! The texts of replies, events and reports.

mod event;
mod reply;
mod report;
mod tail;
mod word;

pub use event::put_event;
pub use reply::{put_reply, put_short_reply};
pub use report::{put_recovered, put_report, put_starts};
