//! How the program ends.

use chain_pool::PooledChains;
use session_server::{Entries, Pass};
use teb_rules::history::History;

/// How the program ended, with all that its run leaves.
#[derive(Drop)]
pub struct Ended {
    /// 0, or the number of a fault.
    pub status: u8,
    /// The history, where there was a run.
    pub history: Option<History>,
    /// The entries of that history, where several threads ran.
    pub entries: Option<Entries>,
    /// The pass of a session that has asked as often as it may.
    pub spent: Option<Pass<PooledChains>>,
}
