//! The versions of each row: the trait [`Chains`], and the plain implementation of it.
//!
//! A *version* is its writer and a value, `None` if the writer deleted the row. The versions of a cell are its *chain*, in version
//! order, the oldest at place 0. The starting row is not in the chain.
//!
//! ```text
//!   cell x     place 0      1            2
//!              t3: 10       t7: none     t5: 12        a reader reads the last one whose writer it sees
//! ```
//!
//! Versions are not ordered by the numbers of their writers. At most nodes they are in the order of the puts. A timestamp node orders
//! them by the starts of batches, so a put may insert a version in the middle.
//!
//! - [`Chains`] contracts see a list for each cell (`lists`). `place` inserts, `overwrite` replaces a value, and `remove_all_of`
//!   removes what an aborted transaction put.
//! - [`PlainChains`] keeps all versions in one sorted vector. It is plain to read and slow with many versions. `chain_pool` has the
//!   implementation that the programs use, with the same contract.
//!
//! **Not claimed**: that the order of a chain is the version order of a history. The engine keeps it so (`HoldsVersions` of
//! `phase_api`); a [`Chains`] inserts a version at the place that it is told.
#![tactic(auto)]

mod chains;
mod plain;
mod sorted;

pub use chains::{Chains, Found};
pub use plain::PlainChains;
