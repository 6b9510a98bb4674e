//! A store in phases: a drained engine is followed by one under another tree, which starts with the tables that the first one left.
//!
//! An engine is *drained* if no transaction is active and each session was told of its abort. The next phase may follow if the engine
//! is drained, the new setup has the same tables in the same order, and it has no rows. Otherwise [`SwitchError`] has the first of
//! these conditions that fails, and nothing changes.
//!
//! ```text
//!   phase 1, tree A     t1 t2 t3 ..    final tables ──► starting rows    phase 2, tree B     t1 t2 ..
//! ```
//!
//! Transactions are numbered from 1 again in each phase.
//!
//! **What is proved.** `IsCourse` of `specs/Courses`: each phase started with the final tables of the one before. `IsSerial` of
//! `specs/Serial`: the serial orders of the phases, one after the other, are one serial run from the first starting rows, in which
//! every committed transaction reads what it read, and the present final tables are the result ([`Phases::engine`], clauses `course`
//! and `serial`).
//!
//! [`check`] is the test alone. [`start`] makes an engine from the tables of another; `engine_store` uses it to begin an epoch.
//!
//! **What it costs.** [`check`] looks at each transaction; [`is_drained`] costs one look. [`start`] computes the final tables
//! (`serial_order`).
//!
//! **Not claimed**: that a store is ever drained: its sessions must end their transactions.
#![tactic(auto)]

mod error;
mod names;
mod next_phase;
mod phases;
mod refusal;

pub use error::SwitchError;
pub use names::same_names;
pub use next_phase::{start, with_rows};
pub use phases::Phases;
pub use refusal::{check, is_drained};
