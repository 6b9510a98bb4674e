//! How transactions finished, for sessions that wait without taking the turn.
//!
//! `session_server` publishes and polls. The board is the notes of a `turn_lock`:
//!
//! ```text
//!   note t - 1    0 while transaction t is unfinished, then 1 once it is committed, or 2 once it is aborted
//!
//!   at the turn:   publish(t, outcome)    stores the word, before the turn moves on
//!   any session:   poll(t)                loads the word once ──► Unfinished, or Finished and how
//! ```
//!
//! **What is proved.** [`poll`] returns what its seat knows of the transaction (clause `answer`: `known_of` in
//! `specs/Finishes.antt`). A finish that the seat knew is returned at each later poll (`known`). Unfinished is returned only if
//! this very look found the word 0 (`unfinished`). After [`publish`] the seat knows the finish.
//!
//! **Why.** A note is written once (`turn_lock`), so a word above 0 never changes.
//!
//! **Not claimed**: that a poll returns a finish soon after it happened, or ever.
#![tactic(auto)]

mod answer;
mod board;

pub use answer::Poll;
pub use board::{poll, publish};
