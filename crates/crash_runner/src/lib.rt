//! The command `crash K`: a script is replayed on a disk that fails, and what is left is recovered.
//!
//! `tebaldi` calls [`run_crash`] with an input that was read. The lines are asked as by `replay`, of a `Durable` on a disk in
//! memory that fails at its call K and at all later ones. Then the disk crashes, and its rows are read back.
//!
//! ```text
//!   calls of the disk   1 2 │ 3 4 5 6 │ 7 8 9 10 │ ..     the journal is created │ commit 1 │ commit 2 │ ..
//! ```
//!
//! | K, in a run with c commits | Replies | Commits that are found |
//! |---|---|---|
//! | 0, or above 4 c + 2 | all | c |
//! | 1 or 2 | none, and `stopped` | 0 |
//! | any other | those before commit number (K - 3) div 4 + 1, and `stopped` | (K - 3) div 4 |
//!
//! - The run is *stopped* if a call of the disk fails: the commit under way is not answered, and nothing more is asked.
//! - What is *recovered* are the rows over the starting rows after the commits that are found: `recovered N`, the rows, and `end`.
//!
//! **What is proved.** What is shown is exactly this, by the three cases of the table (`run_crash`, clause `shown`: `IsCrash`, and
//! `Course` in `specs/Crashes.antt`). The recovered rows are those of the final table in which only the first commits count
//! (`AreRowsAfter`). The status is 0, and no history is kept.
//!
//! **Not claimed**: that this is all a crash may leave. The command shows one image, that in which every write since the last good
//! sync is lost. The contracts of `commit_journal` speak of every image, and of every moment.
#![tactic(auto)]

mod asking;
mod crash;
mod ends;
mod error;
mod kept;
mod lines;
mod on_disk;
mod start;
mod text;

pub use crash::run_crash;
