//! The engine: it answers each request as the rules do, and keeps the history.
//!
//! ```text
//!   ready                    room for the events of one answer, or out of memory
//!   ask  session, request
//!     decide                 what the session holds; refusals; each node of the path, from the root ──► a Decision
//!     carry_out              the events of the decision: a grant, or an abort with its cascade
//!       append_event         the history; every control; version chains; dependency book; cursors
//!   ◄──  reply
//! ```
//!
//! - `ready` makes room before the request is known, so [`Engine::ask`] takes no memory and has no error: a request is answered whole
//!   or not at all.
//! - A request stops at the first node that waits or breaks. A wait for a newer transaction becomes an abort (`Newer`), so waits lead
//!   to older transactions only, and there is no deadlock.
//! - [`AnyControl`] is the control of a node, of whichever kind. The engine asks all kinds the same questions (`Control` of
//!   `phase_api`).
//! - `Engine::ask_short` answers a request that is no scan in 24 bytes (`short_reply`).
//!
//! **What is proved.** Contracts see an engine as its store, names, events, and whether there is room (`EngineModel`). The reply and
//! the next events are `answer` of `teb_rules` (`Engine::ask`, clauses `reply` and `events`). The invariant keeps that some list of
//! requests leads to the events (`IsOfEngine`; `Engine::history`, clause `reached`). So every law of `teb_rules::laws` and `guarantees`
//! holds of every engine at every moment. An `Err` of `ready` changes nothing (clause `err`).
//!
//! **What it costs.** A request costs what it touches: the nodes of one path are asked, and each looks up what it keeps. Each event of
//! the answer is then noted in the control of every node of the tree, on the path or not (`docs/PERFORMANCE.md`).
//!
//! **Not claimed**: any speed; that an abort will not be repeated if the session begins again. One thread at a time asks an engine;
//! `session_server` shares one among threads.
#![tactic(auto)]

mod access;
mod accesses;
mod additions;
mod any_control;
mod append_event;
mod asking;
mod carry_out;
mod decide;
mod decision;
mod engine;
mod engine_state;
mod engine_view;
mod falls;
mod holding;
mod keeping;
mod latest_txns;
mod notes;
mod put_places;
mod questions;
mod read_cells;
mod respond;
mod room;
mod scans;
mod stops;

pub use any_control::AnyControl;
pub use engine::Engine;
