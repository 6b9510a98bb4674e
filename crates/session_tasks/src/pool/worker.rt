//! A worker of a pool.

use crate::Task;
use crate::pool::queue::Token;
use session_server::{EngineServer, Server};
use version_chain::Chains;

/// A worker: its token of the queue, and the sessions that it took, in order.
#[derive(Drop)]
pub struct Worker<C: Chains>
where
    EngineServer<C>: Server,
{
    pub token: Token<C>,
    pub hand: Vec<Task<C>>,
}
