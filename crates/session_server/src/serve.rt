//! A request of a session at any server.

ghost use Rattle.std.specs.Prelude.{◌≡◌, ◌↔◌, Err, IfOk, IsErrOf};
ghost use Rattle.teb_rules.specs.declared.names.Reply.{Reply as TheReply};
ghost use Rattle.hall_server.specs.declared.error.UnaskedError.{UnaskedError as TheUnaskedError};
ghost use Rattle.session_server.specs.Passes.{base_of, IsPassOf, Turned, Asked, Unasked};
ghost use Rattle.session_server.specs.Waits.{WaitsAmong};
ghost use Rattle.session_server.specs.declared.error.ServeError.TheVariants as errors;

use crate::error::ServeError;
use crate::hall::HallOf;
use crate::pass::{MOST_ASKS, PassOf};
use crate::taking::take_turn;
use hall_server::{Server, ServerError};
use std::sync::Wait;
use teb_rules::names::{MOST_TXNS, Reply, Request};

impl<S: Server> HallOf<S> {
    /// Asks the server at this session's turn. It waits for the turn.
    ///
    /// What the pass has seen grows, and ends with the entry of this call. Before the turn moves on, each finish of the answer is
    /// published. The transaction that an Again names may be polled.
    ///
    /// # Errors
    /// `PassSpent` if the pass has asked `MOST_ASKS` times. `Unasked` leaves no entry. `Unsure` leaves an entry with the reply,
    /// which may be lost.
    pub fn serve<R: Wait>(
        &self,
        rt: &R,
        pass: &mut PassOf<S>,
        request: Request,
    ) -> Result<Reply, ServeError>
        requires pass { IsPassOf self.now pass.old }
        ensures pass { IsPassOf self.now pass.new × (pass.new.session ≡ pass.old.session) }
        ensures ok { IfOk result (λ r. Turned (base_of self.now).store pass.old pass.new × Asked pass.old pass.new request r) }
        ensures waits { IfOk result (WaitsAmong MOST_TXNS) }
        ensures unsure { (r : TheReply) → IsErrOf result (errors.Unsure r) → Turned (base_of self.now).store pass.old pass.new × Asked pass.old pass.new request r }
        ensures doubted { (r : TheReply) → IsErrOf result (errors.Unsure r) → S.unsure r }
        ensures unasked { (f : TheUnaskedError) → IsErrOf result (errors.Unasked f) → Turned (base_of self.now).store pass.old pass.new × Unasked pass.old pass.new }
        ensures spent { IsErrOf result errors.PassSpent → pass.new ≡ pass.old }
        ensures when { (result ≡ Err errors.PassSpent) ↔ (pass.old.asks ≡ MOST_ASKS) }
    {
        if pass.asks == MOST_ASKS {
            return Err(ServeError::PassSpent);
        }
        let answer = take_turn(
            rt,
            &self.door,
            &self.turn,
            &mut pass.seat,
            pass.session,
            request,
        );
        pass.asks += 1;
        match answer {
            Ok(reply) => Ok(reply),
            Err(ServerError::Unsure(reply)) => Err(ServeError::Unsure(reply)),
            Err(ServerError::Unasked(error)) => Err(ServeError::Unasked(error)),
        }
    }
}
