//! The trait of what a hall serves.

ghost use Rattle.std.specs.Prelude.{◌≡◌, List, IsErrOf};
ghost use Rattle.teb_rules.specs.declared.names.Reply.{Reply as TheReply};
ghost use Rattle.teb_rules.specs.declared.names.naming.NameBook.{NameBook as TheNames};
ghost use Rattle.teb_rules.specs.declared.history.Event.{Event};
ghost use Rattle.teb_rules.specs.Setup.{Store};
ghost use Rattle.teb_rules.specs.Answer.{answer};
ghost use Rattle.teb_rules.specs.laws.Lawful.{Lawful};
ghost use Rattle.hall_server.specs.Told.{told};
ghost use Rattle.teb_rules.specs.Told.{IsToldBy, events_after};
ghost use Rattle.hall_server.specs.declared.error.ServerError.TheVariants as failures;

use crate::error::ServerError;
use std::alloc::Global;
use teb_rules::history::History;
use teb_rules::names::{Reply, Request, Session};

/// Answers requests one after another as the rules do, unless it fails.
pub trait Server {
    ghost store: { Self → Store };

    ghost names: { Self → TheNames };

    ghost events: { Self → List Event };

    /// The replies of which the server may be unsure.
    ghost unsure: { TheReply → Type 0 };

    /// Answers a request.
    ///
    /// # Errors
    /// `Unasked` leaves the store, the names and the history unchanged. `Unsure` has a reply that may be lost: the history has
    /// the request.
    fn serve(
        &mut self,
        alloc: Global,
        session: Session,
        request: Request,
    ) -> Result<Reply, ServerError>
        ensures reply { IsToldBy (told result) (answer (store self.old) (events self.old) session request).0 }
        ensures events { events self.new ≡ events_after (told result) (events self.old) (answer (store self.old) (events self.old) session request).1 }
        ensures store { store self.new ≡ store self.old }
        ensures names { names self.new ≡ names self.old }
        ensures unsure { (r : TheReply) → IsErrOf result (failures.Unsure r) → unsure r };

    /// Returns the history so far, to which the rules lead.
    fn history(&self) -> &History
        ensures events { result.now.events ≡ events self.now }
        ensures lawful { Lawful (store self.now).setup (events self.now) };
}
