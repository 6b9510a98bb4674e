//! The half of a store that answers: an engine whose commits wait for a journal elsewhere.

ghost use Rattle.std.specs.Prelude.{◌≡◌, ◌↔◌, ◌⊎◌, ◌+◌, ◌++◌, ◌∷◌, [], length, None, IsTrue, IfOk, IfErr, OnErr, IsErrOf, List, ℕ};
ghost use Rattle.teb_rules.specs.declared.names.Reply.TheVariants as replies;
ghost use Rattle.teb_rules.specs.declared.history.Event.{Event};
ghost use Rattle.teb_rules.specs.Answer.{answer};
ghost use Rattle.teb_rules.specs.Ranks.{serial_order};
ghost use Rattle.teb_rules.specs.Replay.{Values};
ghost use Rattle.teb_rules.specs.Serializes.{Serializes};
ghost use Rattle.engine_core.specs.EngineModel.{EngineModel};
ghost use Rattle.tree_switch.specs.Courses.{IsCourse};
ghost use Rattle.teb_rules.specs.Epochs.{IsDrained};
ghost use Rattle.teb_rules.specs.Told.{IsToldBy, events_after};
ghost use Rattle.tree_switch.specs.Serial.{IsSerial};
ghost use Rattle.record_journal.specs.Format.{Record};
ghost use Rattle.commit_journal.specs.Kept.{IsFull};
ghost use Rattle.epoch_journal.specs.Layout.{half_size};
ghost use Rattle.epoch_store.specs.Gathering.{size_of};
ghost use Rattle.epoch_store.specs.Told.{told};
ghost use Rattle.epoch_store.specs.declared.error.AskError.TheVariants as errors;
ghost use Rattle.engine_store.specs.Halves.{AreCommitsSince, KeepsCommits};
ghost use Rattle.engine_store.specs.Label.{label_of};
ghost use Rattle.engine_store.specs.Lives.{Epoch, IsLife, IsSerialLife, epochs};

use crate::recorder::RecordingEngine;
use crate::store::EngineStore;
use crash_disk::Disk;
use engine_core::Engine;
use epoch_journal::{EpochJournal, Group};
use epoch_store::{AskError, CommitQueue, EpochStore};
use std::alloc::Global;
use std::marker::Model;
use teb_rules::names::{Reply, Request, Session};
use tree_switch::is_drained;
use version_chain::Chains;

/// The half of a store that answers. `ask` makes no call of the disk: a commit waits, until it is taken and `write_commits` writes it to
/// the journal, the other half. Contracts see the engine of the present epoch, the records of the commits that wait, and the number of
/// bytes of the journal that are left beside them.
#[derive(Drop)]
pub struct EngineQueue<C: Chains> {
    pub(crate) queue: CommitQueue<RecordingEngine<C>>,
}

impl<C: Chains> Model for EngineQueue<C> {
    ghost use Rattle.engine_core.specs.EngineModel.{EngineModel};
    ghost use Rattle.epoch_store.specs.Queue.{Queue};

    ghost Value = { Queue EngineModel };

    ghost view = { λ s. record { engine = s.queue.engine.engine; waiting = s.queue.waiting; left = s.queue.left } };
}

impl<C: Chains, D: Disk> EngineStore<C, D> {
    /// Returns the two halves of the store: the engine, whose commits wait from now on, and the journal. They may be used in two threads.
    pub fn split(self, alloc: Global) -> (EngineQueue<C>, EpochJournal<D>)
        ensures engine { result.0.engine ≡ self.engine }
        ensures none { result.0.waiting ≡ [] }
        ensures left { result.0.left + self.journal.end ≡ half_size self.journal.layout.capacity }
        ensures journal { result.1 ≡ self.journal }
        ensures kept { KeepsCommits D.seen D.may_leave self.engine.store self.engine.events self.journal.acknowledged self.journal }
        ensures label { self.journal.layout.label ≡ label_of self.engine.names.tables }
    {
        let (queue, journal) = self.store.split(alloc);
        (EngineQueue { queue }, journal)
    }

    /// Returns the store of an engine and a journal that keeps all of its commits, or that is stopped and may have lost the last ones.
    pub fn join(queue: EngineQueue<C>, journal: EpochJournal<D>) -> EngineStore<C, D>
        requires kept { KeepsCommits D.seen D.may_leave queue.engine.store queue.engine.events journal.acknowledged journal }
        requires label { journal.layout.label ≡ label_of queue.engine.names.tables }
        ensures { (result.engine ≡ queue.engine) × (result.journal ≡ journal) }
    {
        EngineStore {
            store: EpochStore::join(queue.queue, journal),
        }
    }
}

impl<C: Chains> EngineQueue<C> {
    /// Answers a request as the engine does. A commit then waits until it is taken and written: until then a crash may lose it.
    ///
    /// # Errors
    /// `Full` if the bytes that are left may not hold the commit; `OutOfMemory`. Nothing is asked, and nothing changes.
    pub fn ask(
        &mut self,
        alloc: Global,
        session: Session,
        request: Request,
    ) -> Result<Reply, AskError>
        ensures reply { IsToldBy (told result) (answer self.old.engine.store self.old.engine.events session request).0 }
        ensures events { self.new.engine.events ≡ events_after (told result) self.old.engine.events (answer self.old.engine.store self.old.engine.events session request).1 }
        ensures store { self.new.engine.store ≡ self.old.engine.store }
        ensures names { self.new.engine.names ≡ self.old.engine.names }

        // Whatever epochs are past, the life goes on.
        ensures course { (past : List EngineModel) → IsCourse (record { past = past; present = self.old.engine }) → IsCourse (record { past = past; present = self.new.engine }) }
        ensures life { (T : Values) (past : List Epoch) → IsLife T (record { past = past; present = self.old.engine }) → IsLife T (record { past = past; present = self.new.engine }) }

        // A commit waits, after those that wait already: the commits since an earlier history are those that wait.
        ensures waits { IfOk result (λ reply. reply ≡ replies.Committed → (r : Record) × (self.new.waiting ≡ self.old.waiting ++ r ∷ [])) }
        ensures others { IfOk result (λ reply. (reply ≡ replies.Committed → ⊥) → self.new.waiting ≡ self.old.waiting) }
        ensures since { (H : List Event) → AreCommitsSince self.old.engine.store H self.old.engine.events self.old.waiting
            → AreCommitsSince self.new.engine.store H self.new.engine.events self.new.waiting }
        ensures left { self.new.left + size_of self.new.waiting ≡ self.old.left + size_of self.old.waiting }

        ensures full { IsErrOf result errors.Full → IsFull self.old.engine.events self.old.left session request }
        ensures room { IsFull self.old.engine.events self.old.left session request → told result ≡ None }
        ensures only { IfErr result (λ e. (e ≡ errors.Full) ⊎ (e ≡ errors.OutOfMemory)) }
        ensures not_asked { OnErr result (self.new ≡ self.old) }
    {
        self.queue.ask(alloc, session, request)
    }

    /// Returns the commits that wait, the oldest first. None waits then.
    pub fn take(&mut self, alloc: Global) -> Group
        ensures group { result.records ≡ self.old.waiting }
        ensures since { (H : List Event) → AreCommitsSince self.old.engine.store H self.old.engine.events self.old.waiting
            → AreCommitsSince self.old.engine.store H self.old.engine.events result.records }
        ensures none { AreCommitsSince self.new.engine.store self.new.engine.events self.new.engine.events self.new.waiting }
        ensures waiting { self.new.waiting ≡ [] }
        ensures engine { self.new.engine ≡ self.old.engine }
        ensures left { self.new.left ≡ self.old.left }
    {
        self.queue.take(alloc)
    }

    /// The number of commits that wait.
    pub fn waiting(&self) -> usize
        ensures { result ≡ length self.now.waiting }
    {
        self.queue.waiting()
    }

    /// The number of bytes that are left for the commits of this epoch, beside those that wait or were taken.
    pub fn left(&self) -> u64
        ensures { result ≡ self.now.left }
    {
        self.queue.left()
    }

    /// True if no transaction is unfinished, and each session was told of its abort: the next epoch may begin. It costs one look.
    pub fn is_drained(&self) -> bool
        ensures { IsTrue result ↔ IsDrained self.now.engine.events }
    {
        is_drained(&self.queue.engine().engine)
    }

    /// The engine of the present epoch.
    pub fn engine(&self) -> &Engine<C>
        ensures engine { result.now ≡ self.now.engine }

        // The serial order of its commits, and the whole life as one serial run, whatever epochs are past.
        ensures serial { Serializes self.now.engine.store self.now.engine.events (serial_order self.now.engine.store.setup self.now.engine.events) }
        ensures course { (past : List EngineModel) → IsCourse (record { past = past; present = self.now.engine }) → IsSerial (record { past = past; present = self.now.engine }) }
        ensures life { (T : Values) (past : List Epoch) → IsLife T (record { past = past; present = self.now.engine }) → IsSerialLife T (epochs (record { past = past; present = self.now.engine })) }
    {
        let recording = self.queue.engine();
        let _ = recording.engine.history();
        &recording.engine
    }
}
