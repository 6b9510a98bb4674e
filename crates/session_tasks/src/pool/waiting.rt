//! A session in the queue.

use session_server::{EngineServer, Pass, Server};
use teb_rules::names::Session;
use version_chain::Chains;

/// A session that waits in the queue, with its pass.
#[derive(Drop)]
pub struct Waiting<C: Chains>
where
    EngineServer<C>: Server,
{
    pub session: Session,
    pub pass: Pass<C>,
}
