//! A session on its way along its script.

use script_walk::Walker;
use session_server::{AskError, EngineServer, Pass, Server};
use version_chain::Chains;

/// How far a session has come.
#[derive(Clone, Copy, Debug, PartialEq, Eq)]
pub enum Progress {
    /// It was not begun, or was stopped before its end.
    Open,
    /// Its script is done, or it has none.
    Through,
    Failed(AskError),
}

/// A session: its pass, the place of its script among all, and its walker.
#[derive(Drop)]
pub struct Task<C: Chains>
where
    EngineServer<C>: Server,
{
    pub place: Option<usize>,
    pub pass: Pass<C>,
    pub walker: Walker,
    pub progress: Progress,
}
