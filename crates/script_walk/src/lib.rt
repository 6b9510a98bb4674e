//! How a session follows its script: what it asks next, and where a reply leads it.
//!
//! `script_runner::turns` and `session_tasks` keep a [`Walker`] for each session.
//!
//! | The reply | The session ([`Advance`]) |
//! |---|---|
//! | `Again` | asks the same line again (`Stay`) |
//! | `Begun` | holds a transaction, and goes to the next line (`Enter`) |
//! | `Committed`, or `Aborted` since the session asked for it | holds none, and goes to the next line (`Leave`) |
//! | `Aborted` for another cause | holds none, and goes back to the line that began the transaction (`Return`) |
//! | any other | goes to the next line (`Go`) |
//!
//! After its last line a session asks End if it holds a transaction. Then it is done.
//!
//! **What is proved.** A walker's place is the state of the rule (`state_of` in `specs/ScriptStates.antt`): [`Walker::next`] is
//! what the rule asks there, and [`Walker::take`] moves it as the rule does (`asks`, `after_answer` in `Scripts` of
//! `teb_rules`).
//!
//! **Not claimed**: that a script comes to its end. A session that is answered `Again` for ever stays at its line.
#![tactic(auto)]

mod advance;
mod walker;

pub use advance::{Advance, advance_after, advance_after_short};
pub use walker::Walker;
