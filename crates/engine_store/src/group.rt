//! Commits of a store that wait for the disk together.

ghost use Rattle.std.specs.Prelude.{◌≡◌, ◌⊎◌, ◌+◌, ◌-◌, ◌<◌, ◌++◌, ◌∷◌, [], length, Ok, None, true, false, IfOk, IfErr, OnOk, OnErr, IsErrOf, List, ℕ};
ghost use Rattle.teb_io.specs.Faults.{Rose};
ghost use Rattle.teb_rules.specs.declared.names.Reply.TheVariants as replies;
ghost use Rattle.teb_rules.specs.Answer.{answer};
ghost use Rattle.teb_rules.specs.Ranks.{serial_order};
ghost use Rattle.teb_rules.specs.Replay.{Values};
ghost use Rattle.teb_rules.specs.Serializes.{Serializes};
ghost use Rattle.engine_core.specs.EngineModel.{EngineModel};
ghost use Rattle.tree_switch.specs.Courses.{IsCourse};
ghost use Rattle.tree_switch.specs.Serial.{IsSerial};
ghost use Rattle.crash_disk.specs.Calls.{AreCalls};
ghost use Rattle.crash_disk.specs.Disk.{LeavesOnly};
ghost use Rattle.record_journal.specs.Format.{Record};
ghost use Rattle.commit_laws.specs.Commits.{commit_count};
ghost use Rattle.commit_journal.specs.Kept.{IsFull};
ghost use Rattle.epoch_journal.specs.Layout.{half_size};
ghost use Rattle.epoch_store.specs.Gathering.{size_of};
ghost use Rattle.epoch_store.specs.Told.{told};
ghost use Rattle.teb_rules.specs.Told.{IsToldBy, events_after};
ghost use Rattle.epoch_store.specs.declared.error.AskError.TheVariants as errors;
ghost use Rattle.engine_store.specs.Lives.{Epoch, IsLife, IsSerialLife, epochs};
ghost use Rattle.engine_store.specs.Telling.{TellsCommits};

use crate::recorder::RecordingEngine;
use crate::store::EngineStore;
use crash_disk::Disk;
use engine_core::Engine;
use epoch_store::{AskError, GroupCommit};
use std::alloc::Global;
use std::marker::Model;
use teb_io::Failed;
use teb_rules::names::{Reply, Request, Session};
use version_chain::Chains;

/// A store whose commits wait for the disk together. `ask` answers a commit before it is on the disk; `sync` writes all commits that wait
/// in the calls of the disk that one commit takes, and a commit is to be told to its client only after the `Ok` of `sync`. Contracts see
/// the engine of the present epoch, the journal, and the records of the commits that wait.
///
/// It is not `Drop`: what waits has to be written.
pub struct EngineGroup<C: Chains, D: Disk> {
    group: GroupCommit<RecordingEngine<C>, D>,
}

impl<C: Chains, D: Disk> Model for EngineGroup<C, D> {
    ghost use Rattle.std.specs.Prelude.{◌≡◌};
    ghost use Rattle.engine_core.specs.EngineModel.{EngineModel};
    ghost use Rattle.epoch_store.specs.Gathering.{Gathering};
    ghost use Rattle.engine_store.specs.Label.{label_of};

    ghost Value = { Gathering EngineModel D };

    ghost view = { λ s. record { engine = s.group.engine.engine; journal = s.group.journal; waiting = s.group.waiting } };

    ghost invariant = { λ s. s.group.journal.layout.label ≡ label_of s.group.engine.engine.names.tables };
}

impl<C: Chains, D: Disk> EngineStore<C, D> {
    /// Returns the same store, whose next commits wait for the disk together, until `EngineGroup::sync`.
    pub fn begin_group(self, alloc: Global) -> EngineGroup<C, D>
        requires running { self.journal.stopped ≡ false }
        ensures { (result.engine ≡ self.engine) × (result.journal ≡ self.journal) × (result.waiting ≡ []) }
    {
        EngineGroup {
            group: self.store.begin_group(alloc),
        }
    }
}

impl<C: Chains, D: Disk> EngineGroup<C, D> {
    /// Answers a request as the engine does. A commit then waits for `sync`: it is not acknowledged, and a crash may lose it. There is
    /// room for it, and memory to write it. It makes no call of the disk.
    ///
    /// # Errors
    /// `Full` and `OutOfMemory`: nothing is asked, and nothing changes.
    pub fn ask(
        &mut self,
        alloc: Global,
        session: Session,
        request: Request,
    ) -> Result<Reply, AskError>
        ensures reply { IsToldBy (told result) (answer self.old.engine.store self.old.engine.events session request).0 }
        ensures events { self.new.engine.events ≡ events_after (told result) self.old.engine.events (answer self.old.engine.store self.old.engine.events session request).1 }
        ensures store { self.new.engine.store ≡ self.old.engine.store }
        ensures names { self.new.engine.names ≡ self.old.engine.names }

        // Whatever epochs are past, the life goes on.
        ensures course { (past : List EngineModel) → IsCourse (record { past = past; present = self.old.engine }) → IsCourse (record { past = past; present = self.new.engine }) }
        ensures life { (T : Values) (past : List Epoch) → IsLife T (record { past = past; present = self.old.engine }) → IsLife T (record { past = past; present = self.new.engine }) }

        // A commit waits, after those that wait already.
        ensures waits { IfOk result (λ reply. reply ≡ replies.Committed → (r : Record) × (self.new.waiting ≡ self.old.waiting ++ r ∷ [])) }
        ensures others { IfOk result (λ reply. (reply ≡ replies.Committed → ⊥) → self.new.waiting ≡ self.old.waiting) }

        // A crash at any moment of the call, or after it.
        ensures any_moment { LeavesOnly D.moment D.left_since self.old.journal.disk self.new.journal.disk
            (TellsCommits self.old.journal.layout self.new.engine.store self.new.engine.events self.old.journal.acknowledged) }
        ensures images { (image : List ℕ) → D.may_leave self.new.journal.disk image
            → TellsCommits self.new.journal.layout self.new.engine.store self.new.engine.events self.new.journal.acknowledged image }

        ensures full { IsErrOf result errors.Full → IsFull self.old.engine.events (half_size self.old.journal.layout.capacity - (self.old.journal.end + size_of self.old.waiting)) session request }
        ensures room { IsFull self.old.engine.events (half_size self.old.journal.layout.capacity - (self.old.journal.end + size_of self.old.waiting)) session request → told result ≡ None }
        ensures only { IfErr result (λ e. (e ≡ errors.Full) ⊎ (e ≡ errors.OutOfMemory)) }
        ensures not_asked { OnErr result (self.new ≡ self.old) }

        // The disk is not touched, and nothing is acknowledged.
        ensures untouched { self.new.journal ≡ self.old.journal }
    {
        self.group.ask(alloc, session, request)
    }

    /// Writes all commits that wait, the oldest first. After `Ok` they are acknowledged: from then on each crash leaves them. It makes
    /// four calls of the disk, two of them syncs, however many commits wait, and none if none waits. None of the calls is
    /// refused memory.
    ///
    /// # Errors
    /// `Failed` if a call of the disk fails. The store is stopped. Each crash leaves the commits that were acknowledged, and perhaps the oldest of those that wait, in their order.
    pub fn sync(self) -> (EngineStore<C, D>, Result<(), Failed>)
        ensures engine { result.0.engine ≡ self.engine }
        ensures layout { result.0.journal.layout ≡ self.journal.layout }

        // A crash at any moment of the call.
        ensures any_moment { LeavesOnly D.moment D.left_since self.journal.disk result.0.journal.disk
            (TellsCommits self.journal.layout self.engine.store self.engine.events self.journal.acknowledged) }
        // A crash after it.
        ensures images { (image : List ℕ) → D.may_leave result.0.journal.disk image
            → TellsCommits result.0.journal.layout self.engine.store self.engine.events result.0.journal.acknowledged image }

        // All commits of the epoch are acknowledged, or no more than before.
        ensures acknowledged { OnOk result.1 ((result.0.journal.stopped ≡ false) × (result.0.journal.acknowledged ≡ self.journal.acknowledged + length self.waiting)) }
        ensures all { OnOk result.1 (result.0.journal.acknowledged ≡ commit_count self.engine.events) }
        ensures unsure { OnErr result.1 ((result.0.journal.stopped ≡ true) × (result.0.journal.acknowledged ≡ self.journal.acknowledged)
            × Rose (D.faults self.journal.disk) (D.faults result.0.journal.disk)) }

        ensures untouched { self.waiting ≡ [] → (result.0.journal ≡ self.journal) × (result.1 ≡ Ok tt) }
        ensures memory { D.refusals result.0.journal.disk ≡ D.refusals self.journal.disk }
        ensures calls { 0 < length self.waiting
            → AreCalls (D.tally self.journal.disk).promise.writes 4 (size_of self.waiting + 1) (D.tally self.journal.disk) (D.tally result.0.journal.disk) result.1 }
    {
        let EngineGroup { group } = self;
        let (store, written) = group.sync();
        (EngineStore { store }, written)
    }

    /// Returns the number of commits that wait. They are the last ones of the epoch, and all before them are acknowledged.
    pub fn waiting(&self) -> usize
        ensures count { result ≡ length self.now.waiting }
        ensures others { self.now.journal.acknowledged + length self.now.waiting ≡ commit_count self.now.engine.events }
    {
        self.group.waiting()
    }

    /// Returns the number of bytes that are left for the commits of this epoch, beside those that wait.
    pub fn left(&self) -> u64
        ensures { result + (self.now.journal.end + size_of self.now.waiting) ≡ half_size self.now.journal.layout.capacity }
    {
        self.group.left()
    }

    /// Returns the engine of the present epoch.
    pub fn engine(&self) -> &Engine<C>
        ensures engine { result.now ≡ self.now.engine }

        // The serial order of its commits, and the whole life as one serial run, whatever epochs are past.
        ensures serial { Serializes self.now.engine.store self.now.engine.events (serial_order self.now.engine.store.setup self.now.engine.events) }
        ensures course { (past : List EngineModel) → IsCourse (record { past = past; present = self.now.engine }) → IsSerial (record { past = past; present = self.now.engine }) }
        ensures life { (T : Values) (past : List Epoch) → IsLife T (record { past = past; present = self.now.engine }) → IsSerialLife T (epochs (record { past = past; present = self.now.engine })) }

        // A crash leaves the rows after the first commits, however many.
        ensures images { (image : List ℕ) → D.may_leave self.now.journal.disk image
            → TellsCommits self.now.journal.layout self.now.engine.store self.now.engine.events self.now.journal.acknowledged image }
    {
        let recording = self.group.engine();
        let _ = recording.engine.history();
        &recording.engine
    }
}
