//! The profile of a transaction type: its steps, and the tables that each step may touch.
//!
//! A transaction of the type goes through the steps in order. It may skip steps, and never goes back. Its *cursor* is the step at
//! which it is. An access moves the cursor to the first step, from there on, that has the table:
//!
//! ```text
//!   steps      0: accounts   1: accounts, log   2: totals
//!
//!   access     (begin)   accounts   log   accounts   totals   log
//!   cursor     0         0          1     1          2        NotInProfile, and the cursor stays
//! ```
//!
//! A [`Profile`] has 1 to 16 steps. Each has at least one table, and none twice. [`Profile::new`] returns the first fault of any
//! other list ([`StepsError`]; `steps_fault` of `specs/profile/Faults`). [`Profile::cursor_after`] moves the cursor, as `least_step` of
//! `teb_rules` says. Pipelines take their static order of tables from the profiles (`static_steps`).
//!
//! **Not claimed**: that a table of a step exists. `store_setup` says which profiles fit a store.

mod faults;
mod profile;

pub use faults::StepsError;
pub use profile::Profile;
