//! A store with one journal as a server.

ghost use Rattle.std.specs.Prelude.{◌≡◌, true, false, IsErrOf};
ghost use Rattle.teb_rules.specs.declared.names.Reply.{Reply as TheReply};
ghost use Rattle.teb_rules.specs.declared.names.Reply.TheVariants as replies;
ghost use Rattle.teb_rules.specs.Answer.{answer};
ghost use Rattle.hall_server.specs.Told.{told};
ghost use Rattle.teb_rules.specs.Told.{IsToldBy, events_after};
ghost use Rattle.hall_server.specs.declared.error.ServerError.TheVariants as failures;
ghost use Rattle.hall_server.specs.declared.error.UnaskedError.TheVariants as unasked;
ghost use Rattle.commit_journal.specs.Asking.{HasNoRoom};

use commit_journal::{Durable, DurableError};
use crash_disk::Disk;
use hall_server::{Server, ServerError, UnaskedError};
use std::alloc::Global;
use teb_rules::history::History;
use teb_rules::names::{Reply, Request, Session};
use version_chain::Chains;

/// An engine with a journal on a disk, as a hall serves it. A commit is on the disk before it is answered. If the disk fails at a
/// commit, the answer is `Unsure`: the disk may have the commit or not. From then on nothing is asked.
#[derive(Drop)]
pub struct DurableServer<C: Chains, D: Disk> {
    pub durable: Durable<C, D>,
}

impl<C: Chains, D: Disk> Server for DurableServer<C, D> {
    ghost store = { λ s. s.durable.store };

    ghost names = { λ s. s.durable.names };

    ghost events = { λ s. s.durable.events };

    ghost unsure = { λ r. r ≡ replies.Committed };

    /// Answers a request.
    ///
    /// # Errors
    /// `Unasked` leaves the store as it was: `Stopped` is returned if and only if the disk has failed before, and `Full` only if the disk
    /// may not hold the commit. `Unsure` is returned if the disk fails at a commit.
    fn serve(
        &mut self,
        alloc: Global,
        session: Session,
        request: Request,
    ) -> Result<Reply, ServerError>
        ensures reply { IsToldBy (told result) (answer self.old.durable.store self.old.durable.events session request).0 }
        ensures events { self.new.durable.events ≡ events_after (told result) self.old.durable.events (answer self.old.durable.store self.old.durable.events session request).1 }
        ensures store { self.new.durable.store ≡ self.old.durable.store }
        ensures names { self.new.durable.names ≡ self.old.durable.names }
        ensures unsure { (r : TheReply) → IsErrOf result (failures.Unsure r) → r ≡ replies.Committed }
        ensures stopped { IsErrOf result (failures.Unasked unasked.Stopped) → self.old.durable.stopped ≡ true }
        ensures stays { self.old.durable.stopped ≡ true → IsErrOf result (failures.Unasked unasked.Stopped) }
        ensures stops { self.new.durable.stopped ≡ true → self.old.durable.stopped ≡ false → IsErrOf result (failures.Unsure replies.Committed) }
        ensures full { IsErrOf result (failures.Unasked unasked.Full) → HasNoRoom D.capacity self.old.durable session request }
    {
        match self.durable.ask(alloc, session, request) {
            Ok(reply) => Ok(reply),
            Err(DurableError::Stopped) => Err(ServerError::Unasked(UnaskedError::Stopped)),
            Err(DurableError::Full) => Err(ServerError::Unasked(UnaskedError::Full)),
            Err(DurableError::OutOfMemory) => Err(ServerError::Unasked(UnaskedError::OutOfMemory)),
            Err(DurableError::DiskFault) => Err(ServerError::Unsure(Reply::Committed)),
        }
    }

    fn history(&self) -> &History {
        self.durable.engine().history()
    }
}
