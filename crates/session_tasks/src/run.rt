//! What a run works on.

use script_text::Scripts;
use session_server::{EngineServer, Hall, Server};
use version_chain::Chains;

/// What a run works on: the hall, the scripts of its sessions, and the hook that is called around each request.
#[derive(Drop)]
pub struct Run<'a, C: Chains, G>
where
    EngineServer<C>: Server,
{
    pub hall: &'a Hall<C>,
    pub scripts: &'a Scripts,
    pub gate: &'a G,
}
