//! A run before its first request.

ghost use Rattle.std.specs.Prelude.{◌≡◌, All, map};
ghost use Rattle.std.proofs.Props.{props};
ghost use Rattle.teb_rules.specs.declared.names.TheConstants.{SESSIONS};
ghost use Rattle.teb_rules.specs.history.Phases.{numbers};
ghost use Rattle.session_server.specs.Passes.{IsNew, number_of};

use crate::run::Run;
use session_server::{EngineServer, Pass, Server};
use version_chain::Chains;

/// A run before its first request, with the new passes of all sessions, in order.
#[derive(Drop)]
pub struct Start<'a, C: Chains, G>
where
    EngineServer<C>: Server,
{
    pub run: &'a Run<'a, C, G>,
    pub passes: Vec<Pass<C>>,
    pub ghost sessions: { map number_of passes.items ≡ numbers SESSIONS } by { Prim.hlevel props },
    pub ghost new: { All (IsNew run.now.hall.now) passes.items } by { Prim.hlevel props },
}
