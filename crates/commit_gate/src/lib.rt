//! Where a Commit stops: the first node on the path, from the root, that breaks or waits.
//!
//! Each node says three things to a Commit, in this order:
//!
//! 1. its validation, which may break (only snapshot nodes do);
//! 2. its *gate*: transactions that must finish first (a pipeline, an ordered timestamp node);
//! 3. a wait for an active transaction that the committing one read from and that it meets there (commit dependency).
//!
//! Of 2 and 3 it names the lowest-numbered transaction. The third makes histories recoverable: no transaction commits before one that
//! it read from.
//!
//! **What is proved.** [`may_commit`] is `commit_stop` of `Stops` in `teb_rules`, for a sound setup, a lawful history, controls that
//! stand for it, and a book of dependencies of it (`BookOf`).
//!
//! **What it costs.** The transactions that the committing one read from are looked up once; each node then goes through that list.
//!
//! **Not claimed**: that a wait is for an older transaction. The engine turns a wait for a newer one into an abort.
#![tactic(auto)]

mod gate;
mod sources;

pub use gate::may_commit;
