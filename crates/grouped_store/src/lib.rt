//! A store whose commits are written one by one, or in groups.
//!
//! | Call | What it does |
//! |---|---|
//! | `of` | takes an `EngineStore` |
//! | `ask` | answers a request, with its commit on the disk, if no commit waits |
//! | `ask_ahead` | answers a request, and makes no call of the disk: a commit waits |
//! | `write` | writes all commits that wait, in the calls of the disk that one commit takes |
//! | `begin_epoch` | begins the next epoch, if no commit waits |
//! | `renew` | forgets the past calls of the disk |
//!
//! It is the two halves of a store, which `engine_store` describes, held together. So commits can be asked while those before them are on
//! their way to a device: a program whose disk in memory only notes the calls (`MemDisk`) carries them out later, beside other asks.
//!
//! **What is proved.** A crash leaves the rows after the first k commits of the epoch, and k is at least the number of commits that were
//! written (`ask`, `write`, `begin_epoch`: clauses `any_moment` and `images`). A commit that is asked ahead changes nothing of what a
//! crash may leave (`ask_ahead`: `untouched`, `still`).
//!
//! **Not claimed**: that a commit which is asked ahead is ever written. If `write` fails, the store is stopped, and what waited is lost
//! or not.
#![tactic(auto)]

mod store;

pub use store::GroupedStore;
