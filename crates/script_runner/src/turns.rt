//! The driver of `turns`: one thread asks several sessions in turn, each along its script, until all scripts are done.
//!
//! ```text
//!   round:  s1  s2  s3  ..        the first session that may ask has the turn
//!                                   its line, or End after its last line ──► engine ──► reply ──► log
//!           s2  s3  ..  s1        it goes to the end of the round
//! ```
//!
//! - The *round* is the sessions in the order in which they are looked at.
//! - A session is *sent back* if the store aborts its transaction: it goes on from the line that began the transaction.
//! - A session is *due* once it was sent back three times without getting through. Then no session begins a transaction but the
//!   lowest-numbered due one, and that one only once no transaction is unfinished.
//!
//! The rule is `Turns` of `teb_rules` (`specs/Driver.antt`); this module is a loop that keeps it.
//!
//! **What is proved.** The requests of [`turns`] are those of the rule until every session is done, each reply is that of the
//! rules, and the log tells all replies (clause `ok`: `AreAnswers` in `specs/turns/Logged.antt`). They are at most
//! `12 * sessions * (lines + 1)`, and [`Steps`] counts them. After out of memory the requests made so far follow the rule
//! (`err`). `driver_laws` proves that the driver stops, and that then every script is worked through.
//!
//! **Not claimed**: that transactions commit. A script is also worked through by refusals, or by aborts that it asks for.

mod cursor;
mod drive;
mod effect;
mod offer;
mod quiet;
mod ring;
mod steps;

pub use drive::turns;
pub use steps::Steps;
