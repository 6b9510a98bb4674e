//! What the engine asks of the control of a node: the trait [`Control`], and the facts that a control is told.
//!
//! The engine asks each node of a transaction's path the same questions, from the root down. The first node that waits or breaks
//! stops the request.
//!
//! | Call | Question | Definition of `teb_rules` |
//! |---|---|---|
//! | [`Control::start`] | may a transaction begin here? | `on_begin` |
//! | [`Control::before_read`], [`Control::before_write`] | may it access this cell? | `on_access` |
//! | [`Control::validate`] | may it prepare or commit? | `validate` |
//! | [`Control::gate`] | which transactions does its Commit wait for? | `gate` |
//! | [`Control::sees`] | does this reader see that writer's version? | `sees_by` |
//! | [`Control::orders`] | which of two versions is first? | `orders` |
//! | [`Control::note`] | (is told the newest event) | |
//!
//! - [`Facts`] are what a control may look at: the history, the tree and the profiles.
//! - A control *stands for* a setup and a history (`stands`). `note` keeps it so, event by event. Under it, each answer is that of
//!   the definition, at this node and in this history.
//! - `HoldsVersions` (`specs/Versions`) says that version chains have the versions of a history.
//!
//! A control regulates only transactions that meet at its node. It keeps what it likes; `reserve` makes room for events, so that
//! `note` takes no memory. `docs/ADDING_A_CONTROL.md` says how to write one.
//!
//! **Not claimed**: that the questions suffice for a correct store. That is a law of the rules (`teb_rules::laws`), not of the trait.
#![tactic(auto)]

mod control;
mod facts;

pub use control::Control;
pub use facts::Facts;
pub use teb_rules::{Broken, Stop, Verdict};
