//! A store on a disk, in epochs.

ghost use Rattle.std.specs.Prelude.{◌≡◌, ◌↔◌, ◌+◌, ◌-◌, ◌<◌, ◌^◌, None, length, true, false, IsTrue, IfOk, IfErr, OnOk, IsErrOf, List, ℕ};
ghost use Rattle.teb_io.specs.Faults.{Rose};
ghost use Rattle.teb_rules.specs.declared.names.Reply.TheVariants as replies;
ghost use Rattle.teb_rules.specs.Answer.{answer};
ghost use Rattle.teb_rules.specs.Ranks.{serial_order};
ghost use Rattle.teb_rules.specs.Replay.{Values};
ghost use Rattle.teb_rules.specs.Serializes.{Serializes};
ghost use Rattle.engine_core.specs.EngineModel.{EngineModel};
ghost use Rattle.tree_switch.specs.Courses.{IsCourse};
ghost use Rattle.teb_rules.specs.Epochs.{IsDrained};
ghost use Rattle.teb_rules.specs.Told.{IsToldBy, events_after};
ghost use Rattle.tree_switch.specs.Serial.{IsSerial};
ghost use Rattle.crash_disk.specs.Disk.{LeavesOnly};
ghost use Rattle.commit_laws.specs.Commits.{commit_count};
ghost use Rattle.commit_journal.specs.Kept.{IsFull};
ghost use Rattle.commit_laws.specs.Laws.{IsOfSerialRun};
ghost use Rattle.epoch_journal.specs.Layout.{half_size};
ghost use Rattle.epoch_journal.specs.Refusals.{IsReliable};
ghost use Rattle.epoch_store.specs.Told.{acknowledged_after, told};
ghost use Rattle.epoch_store.specs.declared.error.AskError.TheVariants as errors;
ghost use Rattle.engine_store.specs.Label.{label_of};
ghost use Rattle.engine_store.specs.Lives.{Epoch, IsLife, IsSerialLife, epochs};
ghost use Rattle.engine_store.specs.Telling.{TellsCommits};

use crate::recorder::RecordingEngine;
use crash_disk::Disk;
use engine_core::Engine;
use epoch_store::{AskError, EpochStore};
use std::alloc::Global;
use std::marker::Model;
use teb_rules::names::{Reply, Request, Session};
use tree_switch::is_drained;
use version_chain::Chains;

/// An engine whose commits are kept on a disk, in epochs. Contracts see the engine of the present epoch, and the journal.
#[derive(Drop)]
pub struct EngineStore<C: Chains, D: Disk> {
    pub(crate) store: EpochStore<RecordingEngine<C>, D>,
}

impl<C: Chains, D: Disk> Model for EngineStore<C, D> {
    ghost use Rattle.std.specs.Prelude.{◌≡◌};
    ghost use Rattle.engine_core.specs.EngineModel.{EngineModel};
    ghost use Rattle.epoch_store.specs.Stored.{Stored};
    ghost use Rattle.engine_store.specs.Label.{label_of};

    ghost Value = { Stored EngineModel D };

    ghost view = { λ s. record { engine = s.store.engine.engine; journal = s.store.journal } };

    ghost invariant = { λ s. s.store.journal.layout.label ≡ label_of s.store.engine.engine.names.tables };
}

impl<C: Chains, D: Disk> EngineStore<C, D> {
    /// Answers a request as the engine does. A commit is on the disk before it is answered: from then on each crash leaves it. It makes
    /// four calls of the disk at a commit, up to the first that fails, and none else.
    ///
    /// # Errors
    /// `Stopped`, `Full` and `OutOfMemory` leave the store as it was, and nothing is asked. `Unsure` is returned if the disk fails at a
    /// commit: the disk may keep it or not, and the store is stopped.
    pub fn ask(
        &mut self,
        alloc: Global,
        session: Session,
        request: Request,
    ) -> Result<Reply, AskError>
        ensures reply { IsToldBy (told result) (answer self.old.engine.store self.old.engine.events session request).0 }
        ensures events { self.new.engine.events ≡ events_after (told result) self.old.engine.events (answer self.old.engine.store self.old.engine.events session request).1 }
        ensures store { self.new.engine.store ≡ self.old.engine.store }
        ensures names { self.new.engine.names ≡ self.old.engine.names }

        // Whatever epochs are past, the life goes on.
        ensures course { (past : List EngineModel) → IsCourse (record { past = past; present = self.old.engine }) → IsCourse (record { past = past; present = self.new.engine }) }
        ensures life { (T : Values) (past : List Epoch) → IsLife T (record { past = past; present = self.old.engine }) → IsLife T (record { past = past; present = self.new.engine }) }

        // A crash at any moment of the call.
        ensures any_moment { LeavesOnly D.moment D.left_since self.old.journal.disk self.new.journal.disk
            (TellsCommits self.old.journal.layout self.new.engine.store self.new.engine.events self.old.journal.acknowledged) }
        // A crash after it.
        ensures images { (image : List ℕ) → D.may_leave self.new.journal.disk image
            → TellsCommits self.new.journal.layout self.new.engine.store self.new.engine.events self.new.journal.acknowledged image }

        ensures layout { self.new.journal.layout ≡ self.old.journal.layout }

        // One more commit is acknowledged if it is answered; as long as the disk has not failed, all of this epoch are.
        ensures acknowledged { self.new.journal.acknowledged ≡ acknowledged_after self.old.journal.acknowledged result }
        ensures all { self.new.journal.stopped ≡ false → self.new.journal.acknowledged ≡ commit_count self.new.engine.events }
        ensures goes_on { OnOk result (self.new.journal.stopped ≡ false) }

        ensures stopped { IsErrOf result errors.Stopped → self.old.journal.stopped ≡ true }
        ensures stays { self.old.journal.stopped ≡ true → IsErrOf result errors.Stopped }
        ensures full { IsErrOf result errors.Full → IsFull self.old.engine.events (half_size self.old.journal.layout.capacity - self.old.journal.end) session request }
        ensures room { IsFull self.old.engine.events (half_size self.old.journal.layout.capacity - self.old.journal.end) session request → told result ≡ None }
        ensures not_asked { IfErr result (λ e. (e ≡ errors.Unsure → ⊥) → self.new ≡ self.old) }
        ensures unsure { IsErrOf result errors.Unsure → ((answer self.old.engine.store self.old.engine.events session request).0 ≡ replies.Committed)
            × (self.new.journal.stopped ≡ true) × Rose (D.faults self.old.journal.disk) (D.faults self.new.journal.disk) }

        // No call of the disk is refused memory. So a store on a disk that fails only if it is refused memory is never unsure.
        ensures memory { D.refusals self.new.journal.disk ≡ D.refusals self.old.journal.disk }
        ensures sure { IsReliable D.tells_failures D.tally D.refusals self.old.journal.disk → IsErrOf result errors.Unsure → ⊥ }
        ensures promise { (D.tally self.new.journal.disk).promise ≡ (D.tally self.old.journal.disk).promise }

        // Only a commit touches the disk.
        ensures untouched { IfOk result (λ reply. (reply ≡ replies.Committed → ⊥) → self.new.journal ≡ self.old.journal) }
        ensures four_calls { IfOk result (λ reply. reply ≡ replies.Committed → (D.tally self.old.journal.disk).made + 4 < 2 ^ 64
            → (D.tally self.new.journal.disk).made ≡ (D.tally self.old.journal.disk).made + 4) }
    {
        self.store.ask(alloc, session, request)
    }

    /// Returns the engine of the present epoch.
    pub fn engine(&self) -> &Engine<C>
        ensures engine { result.now ≡ self.now.engine }
        ensures label { self.now.journal.layout.label ≡ label_of self.now.engine.names.tables }

        // The serial order of its commits, and the whole life as one serial run, whatever epochs are past.
        ensures serial { Serializes self.now.engine.store self.now.engine.events (serial_order self.now.engine.store.setup self.now.engine.events) }
        ensures course { (past : List EngineModel) → IsCourse (record { past = past; present = self.now.engine }) → IsSerial (record { past = past; present = self.now.engine }) }
        ensures life { (T : Values) (past : List Epoch) → IsLife T (record { past = past; present = self.now.engine }) → IsSerialLife T (epochs (record { past = past; present = self.now.engine })) }

        // A crash leaves the rows after the first commits, however many, and these are those of a serial run.
        ensures images { (image : List ℕ) → D.may_leave self.now.journal.disk image
            → TellsCommits self.now.journal.layout self.now.engine.store self.now.engine.events self.now.journal.acknowledged image }
        ensures first { (k : ℕ) → IsOfSerialRun self.now.engine.store self.now.engine.events k }
    {
        let recording = self.store.engine();
        let _ = recording.engine.history();
        &recording.engine
    }

    /// True if no transaction is unfinished, and each session was told of its abort: the next epoch may begin. It costs one look.
    pub fn is_drained(&self) -> bool
        ensures { IsTrue result ↔ IsDrained self.now.engine.events }
    {
        is_drained(&self.store.engine().engine)
    }

    /// True if a call of the disk has failed. Nothing is asked then.
    pub fn is_stopped(&self) -> bool
        ensures { result ≡ self.now.journal.stopped }
    {
        self.store.is_stopped()
    }

    /// Returns the number of commits of this epoch that were answered.
    pub fn acknowledged(&self) -> u64
        ensures { result ≡ self.now.journal.acknowledged }
    {
        self.store.acknowledged()
    }

    /// Returns the number of bytes that are left for the commits of this epoch.
    pub fn left(&self) -> u64
        ensures { result + self.now.journal.end ≡ half_size self.now.journal.layout.capacity }
    {
        self.store.left()
    }

    /// Returns the disk. A crash leaves the rows after the first commits of it, at least those that were answered.
    pub fn disk(&self) -> &D
        ensures disk { result.now ≡ self.now.journal.disk }
        ensures images { (image : List ℕ) → D.may_leave self.now.journal.disk image
            → TellsCommits self.now.journal.layout self.now.engine.store self.now.engine.events self.now.journal.acknowledged image }
    {
        let _ = self.store.engine();
        self.store.disk()
    }

    /// Returns the disk, as it is. The engine is dropped. The disk may be opened again, also after a fault.
    pub fn into_disk(self) -> D
        ensures disk { result ≡ self.journal.disk }
        ensures capacity { D.capacity result ≡ self.journal.layout.capacity }
        ensures label { self.journal.layout.label ≡ label_of self.engine.names.tables }
        ensures images { (image : List ℕ) → D.may_leave result image
            → TellsCommits self.journal.layout self.engine.store self.engine.events self.journal.acknowledged image }
    {
        let (_engine, journal) = self.store.into_parts();
        journal.into_disk()
    }
}
