//! One server for sessions in several threads: an engine, or a store that keeps the commits of an engine.
//!
//! A [`HallOf`] is one [`Server`] that 32 sessions share, each through its [`PassOf`]. A [`Hall`] is the hall over an engine.
//! `session_tasks` serves scripts in a hall, and `embedded_hall` shows one in a program.
//!
//! ```text
//!   ask    the door ──► the turn: the engine answers; the entry is added; finishes are published in notes ──► reply
//!          threads      one session at a time
//!          sleep here
//!   poll   one look at the note of a transaction, outside door and turn ──► Unfinished, or Finished and how
//! ```
//!
//! | Call | |
//! |---|---|
//! | `Hall::make` | a hall over an engine that was asked nothing yet, and the passes of the sessions 1 to 32 |
//! | `Hall::ask` | answers one request of the session of a pass; it waits for the turn |
//! | `Hall::poll` | whether a transaction has finished, as far as it is published, and how; it never waits |
//! | `Hall::close` | takes all passes back, and returns the engine and its [`Entries`] |
//! | `HallOf::begin`, `serve`, `end` | as `make`, `ask` and `close`, for any server, which may also fail |
//!
//! - An *entry* is a session, its request and the reply. The list of entries is in the order of the turns. It is *legal* if each
//!   reply is the one that the rules give after the entries before it.
//! - What a pass has *seen* is a prefix of that list, with all its own entries.
//! - A *finish* is a commit or an abort. Each transaction has a *note*, a word that is published at the turn (`finish_board`).
//! - The *door* is where threads sleep that wait, so that they do not take the processor. No theorem needs it.
//! - A pass is *spent* once it has asked [`MOST_ASKS`] times, 2^40.
//!
//! **What is proved.** What the pass has seen grows, is legal, and ends with the entry of the call (`Hall::ask`, clause `ok`:
//! `Turned`, `Asked`). Out of memory leaves no entry (`memory`). A request of which a server is unsure has its entry
//! (`HallOf::serve`, clause `unsure`). In the end the list is legal, the engine's history is the one to which it leads, and each
//! pass's entries are in it once and in their order (`Hall::close`, clauses `legal`, `history`, `passes`). So the laws of the
//! rules hold under threads. A poll answers Unfinished only if its own look found the word 0 (`unfinished`).
//!
//! **Not claimed**: that a session ever gets the turn, in what time, or that waiting is fair; in which order sessions get turns;
//! that a thread which sleeps is woken.
#![tactic(auto)]

mod close;
mod door;
mod engine;
mod engine_hall;
mod entries;
mod error;
mod hall;
mod hosted;
mod make;
mod outfit;
mod pass;
mod place;
mod poll;
mod published;
mod serve;
mod taking;

pub use engine::EngineServer;
pub use entries::Entries;
pub use error::{AskError, ServeError};
pub use finish_board::Poll;
pub use hall::{Hall, HallOf};
pub use hall_server::Server;
pub use hosted::Hosted;
pub use outfit::Outfit;
pub use pass::{MOST_ASKS, Pass, PassOf};
