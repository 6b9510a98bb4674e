//! Why a run failed.

use session_server::{EngineServer, Pass, Server};
use version_chain::Chains;

/// Why sessions were not served to their end.
#[derive(Drop)]
pub enum RunError<C: Chains>
where
    EngineServer<C>: Server,
{
    /// This pass has asked `MOST_ASKS` times.
    PassSpent(Pass<C>),
    OutOfMemory,
}
