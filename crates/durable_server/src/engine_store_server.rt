//! A store in epochs as a server.

ghost use Rattle.std.specs.Prelude.{◌≡◌, ◌-◌, true, false, IsErrOf};
ghost use Rattle.teb_rules.specs.declared.names.Reply.{Reply as TheReply};
ghost use Rattle.teb_rules.specs.declared.names.Reply.TheVariants as replies;
ghost use Rattle.teb_rules.specs.Answer.{answer};
ghost use Rattle.hall_server.specs.Told.{told};
ghost use Rattle.teb_rules.specs.Told.{IsToldBy, events_after};
ghost use Rattle.hall_server.specs.declared.error.ServerError.TheVariants as failures;
ghost use Rattle.hall_server.specs.declared.error.UnaskedError.TheVariants as unasked;
ghost use Rattle.commit_journal.specs.Kept.{IsFull};
ghost use Rattle.epoch_journal.specs.Layout.{half_size};

use crash_disk::Disk;
use engine_store::{AskError, EngineStore};
use hall_server::{Server, ServerError, UnaskedError};
use std::alloc::Global;
use teb_rules::history::History;
use teb_rules::names::{Reply, Request, Session};
use version_chain::Chains;

/// A store in epochs, as a hall serves it within one epoch. A commit is on the disk before it is answered. If the disk fails at a
/// commit, the answer is `Unsure`: the disk may have the commit or not. From then on nothing is asked.
#[derive(Drop)]
pub struct EngineStoreServer<C: Chains, D: Disk> {
    pub store: EngineStore<C, D>,
}

impl<C: Chains, D: Disk> Server for EngineStoreServer<C, D> {
    ghost store = { λ s. s.store.engine.store };

    ghost names = { λ s. s.store.engine.names };

    ghost events = { λ s. s.store.engine.events };

    ghost unsure = { λ r. r ≡ replies.Committed };

    /// Answers a request.
    ///
    /// # Errors
    /// `Unasked` leaves the store as it was: `Stopped` is returned if and only if the disk has failed before, and `Full` only if the half
    /// that is current may not hold the commit. `Unsure` is returned if the disk fails at a commit.
    fn serve(
        &mut self,
        alloc: Global,
        session: Session,
        request: Request,
    ) -> Result<Reply, ServerError>
        ensures reply { IsToldBy (told result) (answer self.old.store.engine.store self.old.store.engine.events session request).0 }
        ensures events { self.new.store.engine.events ≡ events_after (told result) self.old.store.engine.events (answer self.old.store.engine.store self.old.store.engine.events session request).1 }
        ensures store { self.new.store.engine.store ≡ self.old.store.engine.store }
        ensures names { self.new.store.engine.names ≡ self.old.store.engine.names }
        ensures unsure { (r : TheReply) → IsErrOf result (failures.Unsure r) → r ≡ replies.Committed }
        ensures stopped { IsErrOf result (failures.Unasked unasked.Stopped) → self.old.store.journal.stopped ≡ true }
        ensures stays { self.old.store.journal.stopped ≡ true → IsErrOf result (failures.Unasked unasked.Stopped) }
        ensures stops { self.new.store.journal.stopped ≡ true → self.old.store.journal.stopped ≡ false → IsErrOf result (failures.Unsure replies.Committed) }
        ensures full { IsErrOf result (failures.Unasked unasked.Full)
            → IsFull self.old.store.engine.events (half_size self.old.store.journal.layout.capacity - self.old.store.journal.end) session request }
    {
        match self.store.ask(alloc, session, request) {
            Ok(reply) => Ok(reply),
            Err(AskError::Stopped) => Err(ServerError::Unasked(UnaskedError::Stopped)),
            Err(AskError::Full) => Err(ServerError::Unasked(UnaskedError::Full)),
            Err(AskError::OutOfMemory) => Err(ServerError::Unasked(UnaskedError::OutOfMemory)),
            Err(AskError::Unsure) => Err(ServerError::Unsure(Reply::Committed)),
        }
    }

    fn history(&self) -> &History {
        self.store.engine().history()
    }
}
