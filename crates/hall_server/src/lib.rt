//! What a hall of sessions serves: the trait [`Server`].
//!
//! `session_server` shares one `Server` among threads. Its own is an engine (`EngineServer`). The failures are for a store that
//! keeps the commits of an engine on a device.
//!
//! | `serve` returns | The history | |
//! |---|---|---|
//! | `Ok(reply)` | has the request | the reply is the one of the rules |
//! | `Err(Unasked(error))` | is as it was | an [`UnaskedError`]: an earlier failure of a device, no room for the commit, or out of memory |
//! | `Err(Unsure(reply))` | has the request | the device failed at it, so what was committed may be kept or not |
//!
//! **What is proved.** The clauses of [`Server`] are what a hall builds on: each reply and each history is that of `answer`,
//! the rules of `teb_rules` (clauses `reply` and `events`); the store and the names stay; and only some replies may be unsure
//! (`unsure`). `specs/Told.antt` says which reply the history has after a failure.
//!
//! **Not claimed**: that a server ever answers `Ok`.
#![tactic(auto)]

mod error;
mod server;

pub use error::{ServerError, UnaskedError};
pub use server::Server;
