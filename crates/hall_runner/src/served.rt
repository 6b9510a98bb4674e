//! The result of a run by several threads.

use chain_pool::PooledChains;
use command_output::Output;
use session_server::{Entries, Pass};

/// The result of a run by several threads.
#[derive(Drop)]
pub enum Served {
    /// All scripts are done: the output, and the entries in the order in which they were answered.
    Through { output: Output, entries: Entries },
    /// The session of this pass has asked as often as it may.
    Spent(Pass<PooledChains>),
}
