//! The hall over an engine.

ghost use Rattle.std.specs.Prelude.{◌≡◌, ◌≤◌, ◌↔◌, [], All, map, Ok, Err, IfOk, IfErr};
ghost use Rattle.teb_rules.specs.declared.names.TheConstants.{SESSIONS};
ghost use Rattle.teb_rules.specs.history.Phases.{numbers};
ghost use Rattle.teb_rules.specs.Run.{IsLegal, history_of};
ghost use Rattle.turn_lock.specs.Counts.{HasAll};
ghost use Rattle.session_server.specs.Passes.{base_of, number_of, IsNew, IsPassOf, IsWithin, Turned, Asked, Unasked};
ghost use Rattle.session_server.specs.Waits.{WaitsAmong};
ghost use Rattle.session_server.specs.declared.error.AskError.TheVariants.{PassSpent, OutOfMemory};

use crate::engine::EngineServer;
use crate::entries::Entries;
use crate::error::{AskError, ServeError};
use crate::hall::Hall;
use crate::pass::{MOST_ASKS, Pass};
use engine_core::Engine;
use std::alloc::Global;
use std::sync::Wait;
use teb_rules::names::{MOST_TXNS, Reply, Request};
use version_chain::Chains;

impl<C: Chains> Hall<C> {
    /// Returns a hall over an engine that was asked nothing yet, and the passes of the sessions 1 to `SESSIONS`, in order.
    ///
    /// # Errors
    /// Out of memory. The engine is returned.
    pub fn make(alloc: Global, engine: Engine<C>) -> Result<(Hall<C>, Vec<Pass<C>>), Engine<C>>
        requires { engine.events ≡ [] }
        ensures base { IfOk result (λ r. base_of r.0 ≡ record { store = engine.store; names = engine.names }) }
        ensures passes { IfOk result (λ r. All (IsNew r.0) r.1.items) }
        ensures sessions { IfOk result (λ r. map number_of r.1.items ≡ numbers SESSIONS) }
        ensures back { IfErr result (λ e. e ≡ engine) }
    {
        match Hall::begin(alloc, EngineServer { engine }) {
            Ok(begun) => Ok(begun),
            Err(server) => Err(server.engine),
        }
    }

    /// Asks the engine at this session's turn. It waits for the turn.
    ///
    /// What the pass has seen grows, and ends with the entry of this call. Before the turn moves on, each finish of the answer is
    /// published. The transaction that an Again names may be polled.
    ///
    /// # Errors
    /// `PassSpent` if the pass has asked `MOST_ASKS` times. `OutOfMemory` leaves no entry.
    pub fn ask<R: Wait>(
        &self,
        rt: &R,
        pass: &mut Pass<C>,
        request: Request,
    ) -> Result<Reply, AskError>
        requires pass { IsPassOf self.now pass.old }
        ensures pass { IsPassOf self.now pass.new × (pass.new.session ≡ pass.old.session) }
        ensures ok { IfOk result (λ r. Turned (base_of self.now).store pass.old pass.new × Asked pass.old pass.new request r) }
        ensures waits { IfOk result (WaitsAmong MOST_TXNS) }
        ensures memory { result ≡ Err OutOfMemory → Turned (base_of self.now).store pass.old pass.new × Unasked pass.old pass.new }
        ensures spent { result ≡ Err PassSpent → pass.new ≡ pass.old }
        ensures when { (result ≡ Err PassSpent) ↔ (pass.old.asks ≡ MOST_ASKS) }
    {
        match self.serve(rt, pass, request) {
            Ok(reply) => Ok(reply),
            Err(ServeError::PassSpent) => Err(AskError::PassSpent),
            Err(ServeError::Unasked(_)) => Err(AskError::OutOfMemory),
            // An engine is never unsure.
            Err(ServeError::Unsure(_)) => unreachable!(),
        }
    }
    /// Returns the engine, and its entries. The passes must be those of all sessions.
    ///
    /// The list begins with what each pass has seen, and has no further entries of its session.
    pub fn close(self, passes: Vec<Pass<C>>) -> (Engine<C>, Entries)
        requires passes { All (IsPassOf self) passes.items }
        requires all { HasAll SESSIONS (map number_of passes.items) }
        ensures base { (record { store = result.0.store; names = result.0.names }) ≡ base_of self }
        ensures legal { IsLegal result.0.store result.1 }
        ensures history { result.0.events ≡ history_of result.0.store result.1 }
        ensures sessions { All (λ e. (1 ≤ e.session.0) × (e.session.0 ≤ SESSIONS)) result.1 }
        ensures passes { All (IsWithin result.1) passes.items }
    {
        let (server, entries) = self.end(passes);
        (server.engine, entries)
    }
}
