//! Stores on a disk, as a hall of sessions serves them.
//!
//! `session_server` shares any `Server` of `hall_server` among threads. This crate makes two stores servers:
//!
//! | Server | Store | A commit is on the disk before it is answered, and |
//! |---|---|---|
//! | [`DurableServer`] | `Durable` of `commit_journal` | its journal is read by `recover` |
//! | [`EngineStoreServer`] | `EngineStore` of `engine_store` | the disk can be opened again and goes on |
//!
//! A hall over one of them ends with its epoch, so it begins at most 8,192 transactions. A store that goes on from epoch to epoch under
//! threads is in `shared_store`.
//!
//! **What is proved.** The clauses of `Server`: each reply and each history is that of the rules, and only a commit may be unsure. What
//! a crash leaves is said by the invariants of the two stores, which hold at each turn.
//!
//! **Not claimed**: anything of the order in which sessions get their turn.
#![tactic(auto)]

mod durable;
mod engine_store_server;

pub use durable::DurableServer;
pub use engine_store_server::EngineStoreServer;
