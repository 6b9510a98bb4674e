//! How the next epoch begins in the two halves of a store.

ghost use Rattle.std.specs.Prelude.{◌≡◌, ◌+◌, ◌*◌, ◌++◌, ◌∷◌, [], true, false, IfOk, IfErr, OnOk, OnErr, IsErrOf, MatchResult, List, ℕ, length};
ghost use Rattle.teb_io.specs.Faults.{Rose};
ghost use Rattle.teb_rules.specs.declared.names.Cell.{Cell as TheCell};
ghost use Rattle.teb_rules.specs.declared.history.Event.{Event};
ghost use Rattle.teb_rules.specs.Replay.{Values};
ghost use Rattle.teb_rules.specs.Setup.{Store};
ghost use Rattle.store_setup.specs.SetupView.{setup_view};
ghost use Rattle.store_setup.specs.Sound.{IsWhole};
ghost use Rattle.engine_core.specs.EngineModel.{EngineModel, IsOfEngine};
ghost use Rattle.tree_switch.specs.Courses.{IsCourse};
ghost use Rattle.tree_switch.specs.Starts.{IsStarted};
ghost use Rattle.crash_disk.specs.Calls.{IsUpTo};
ghost use Rattle.crash_disk.specs.Disk.{LeavesOnly};
ghost use Rattle.epoch_journal.specs.Layout.{half_size};
ghost use Rattle.engine_store.specs.Halves.{KeepsCommits};
ghost use Rattle.engine_store.specs.Lives.{Epoch, IsLife, epoch_of};
ghost use Rattle.engine_store.specs.Next.{IsCause, MayFollow, WritesFinalRows};
ghost use Rattle.engine_store.specs.Telling.{IsUpToUntilRenewed, LeavesOnlyUntilRenewed, TellsCommits};
ghost use Rattle.engine_store.specs.declared.error.NextError.TheVariants as errors;

use crate::error::NextError;
use crate::next_epoch::next_engine;
use crate::queue::EngineQueue;
use crate::recorder::RecordingEngine;
use crash_disk::{Disk, Renew};
use engine_core::Engine;
use epoch_journal::EpochJournal;
use epoch_store::CommitQueue;
use std::alloc::Global;
use store_setup::Setup;
use version_chain::Chains;

impl<C: Chains> EngineQueue<C> {
    /// Ends the present epoch, of which no commit waits, and begins the next one under a setup with the same tables, over chains with no
    /// version, as `EngineStore::next_epoch` does: a checkpoint of the rows that all commits left, with which the next engine starts. It
    /// returns the two halves, and the engine of the epoch that has ended. It makes four calls of the disk, and then renews it; a
    /// renewal that is out of memory is left out.
    ///
    /// # Errors
    /// Each returns the halves as they were, except for `DiskFault`, after which the journal is stopped, and keeps what it kept. `Again` if
    /// a transaction is unfinished; else `Untold` if a session holds an aborted one; else `OtherTables` if the setup has other tables;
    /// `Full` if the rows do not fit the disk; `DiskFault` if a call of the disk fails; `OutOfMemory`.
    pub fn next_epoch<D: Renew>(
        self,
        alloc: Global,
        journal: EpochJournal<D>,
        setup: Setup,
        chains: C,
    ) -> (
        EngineQueue<C>,
        EpochJournal<D>,
        Result<Engine<C>, NextError>,
    )
        requires setup { IsWhole (setup_view setup) }
        requires chains { (x : TheCell) → C.lists chains x ≡ [] }
        requires none { self.waiting ≡ [] }
        requires running { journal.stopped ≡ false }
        ensures refused { MatchResult result.2 (λ _. MayFollow self.engine setup.names.tables) (IsCause journal.layout self.engine setup.names.tables) }
        ensures begun { IfOk result.2 (λ past. (past ≡ self.engine) × IsStarted setup self.engine result.0.engine × (result.0.waiting ≡ [])) }
        ensures left { OnOk result.2 (result.0.left + result.1.end ≡ half_size result.1.layout.capacity) }
        ensures running { OnOk result.2 (result.1.stopped ≡ false) }
        ensures ran { IsErrOf result.2 errors.Stopped → ⊥ }
        ensures back { OnErr result.2 (result.0 ≡ self) }
        ensures same { IfErr result.2 (λ why. (why ≡ errors.DiskFault → ⊥) → result.1 ≡ journal) }
        ensures fault { IsErrOf result.2 errors.DiskFault → (result.1.stopped ≡ true) × Rose (D.faults journal.disk) (D.faults result.1.disk) }
        ensures layout { result.1.layout ≡ journal.layout }
        ensures memory { D.refusals result.1.disk ≡ D.refusals journal.disk }

        // At most four calls of the disk, which write the label, the rows, and the byte that makes their half current.
        ensures calls { OnOk result.2 (IsUpToUntilRenewed D.seen D.faults D.tally 4 (11 + length journal.layout.label + 14 * length result.0.engine.store.rows) journal.disk result.1.disk) }
        ensures calls_back { IsErrOf result.2 errors.DiskFault → WritesFinalRows journal.layout self.engine (D.tally journal.disk) (D.tally result.1.disk) }

        // What the journal keeps: the rows of the next engine, and no commit; or what it kept.
        ensures kept { (n : ℕ) → KeepsCommits D.seen D.may_leave self.engine.store self.engine.events n journal
            → OnOk result.2 (KeepsCommits D.seen D.may_leave result.0.engine.store [] 0 result.1) }
        ensures not_begun { (n : ℕ) → KeepsCommits D.seen D.may_leave self.engine.store self.engine.events n journal
            → OnErr result.2 (KeepsCommits D.seen D.may_leave self.engine.store self.engine.events n result.1) }

        // A crash at any moment of the call leaves the first commits of the epoch that ends.
        ensures any_moment { (n : ℕ) → KeepsCommits D.seen D.may_leave self.engine.store self.engine.events n journal
            → LeavesOnlyUntilRenewed D.seen D.faults D.moment D.left_since journal.disk result.1.disk (TellsCommits journal.layout self.engine.store self.engine.events n) }

        // Whatever epochs are past, the life goes on.
        ensures course { (past : List EngineModel) → IsCourse (record { past = past; present = self.engine })
            → OnOk result.2 (IsCourse (record { past = past ++ self.engine ∷ []; present = result.0.engine })) }
        ensures life { (T : Values) (past : List Epoch) → IsLife T (record { past = past; present = self.engine })
            → OnOk result.2 (IsLife T (record { past = past ++ epoch_of self.engine ∷ []; present = result.0.engine })) }
    {
        let EngineQueue { mut queue } = self;
        let mut journal = journal;
        match begin_in(alloc, &mut queue, &mut journal, setup, chains) {
            Ok(past) => {
                let journal = renewed(alloc, journal);
                (EngineQueue { queue }, journal, Ok(past))
            }
            Err(why) => (EngineQueue { queue }, journal, Err(why)),
        }
    }
}

/// Ends the epoch of a queue and its journal, and begins the next one under a setup. It returns the engine of the epoch that has ended.
///
/// # Errors
/// As those of `EngineQueue::next_epoch`.
fn begin_in<C: Chains, D: Disk>(
    alloc: Global,
    queue: &mut CommitQueue<RecordingEngine<C>>,
    journal: &mut EpochJournal<D>,
    setup: Setup,
    chains: C,
) -> Result<Engine<C>, NextError>
    requires setup { IsWhole (setup_view setup) }
    requires chains { (x : TheCell) → C.lists chains x ≡ [] }
    requires none { queue.old.waiting ≡ [] }
    requires running { journal.old.stopped ≡ false }
    ensures refused { MatchResult result (λ _. MayFollow queue.old.engine.engine setup.names.tables) (IsCause journal.old.layout queue.old.engine.engine setup.names.tables) }
    ensures begun { IfOk result (λ past. (past ≡ queue.old.engine.engine) × IsStarted setup queue.old.engine.engine queue.new.engine.engine × (queue.new.waiting ≡ [])) }
    ensures engine { OnOk result (IsOfEngine queue.new.engine.engine) }
    ensures left { OnOk result (queue.new.left + journal.new.end ≡ half_size journal.new.layout.capacity) }
    ensures running { OnOk result (journal.new.stopped ≡ false) }
    ensures ran { IsErrOf result errors.Stopped → ⊥ }
    ensures back { OnErr result (queue.new ≡ queue.old) }
    ensures same { IfErr result (λ why. (why ≡ errors.DiskFault → ⊥) → journal.new ≡ journal.old) }
    ensures fault { IsErrOf result errors.DiskFault → (journal.new.stopped ≡ true) × Rose (D.faults journal.old.disk) (D.faults journal.new.disk) }
    ensures layout { journal.new.layout ≡ journal.old.layout }
    ensures memory { D.refusals journal.new.disk ≡ D.refusals journal.old.disk }
    ensures calls { OnOk result (IsUpTo 4 (11 + length journal.old.layout.label + 14 * length queue.new.engine.engine.store.rows) (D.tally journal.old.disk) (D.tally journal.new.disk)) }
    ensures calls_back { IsErrOf result errors.DiskFault → WritesFinalRows journal.old.layout queue.old.engine.engine (D.tally journal.old.disk) (D.tally journal.new.disk) }
    ensures kept { (n : ℕ) → KeepsCommits D.seen D.may_leave queue.old.engine.engine.store queue.old.engine.engine.events n journal.old
        → OnOk result (KeepsCommits D.seen D.may_leave queue.new.engine.engine.store [] 0 journal.new) }
    ensures not_begun { (n : ℕ) → KeepsCommits D.seen D.may_leave queue.old.engine.engine.store queue.old.engine.engine.events n journal.old
        → OnErr result (KeepsCommits D.seen D.may_leave queue.old.engine.engine.store queue.old.engine.engine.events n journal.new) }
    ensures any_moment { (n : ℕ) → KeepsCommits D.seen D.may_leave queue.old.engine.engine.store queue.old.engine.engine.events n journal.old
        → LeavesOnly D.moment D.left_since journal.old.disk journal.new.disk (TellsCommits journal.old.layout queue.old.engine.engine.store queue.old.engine.engine.events n) }
{
    let engine = match next_engine(alloc, &queue.engine().engine, setup, chains) {
        Ok(engine) => engine,
        Err(why) => return Err(why),
    };
    match queue.next_epoch(alloc, journal, RecordingEngine { engine }) {
        Ok(past) => Ok(past.engine),
        Err(refused) => Err(refused.why.into()),
    }
}

/// Returns the journal on a renewed disk, or as it is if that is out of memory.
fn renewed<D: Renew>(alloc: Global, journal: EpochJournal<D>) -> EpochJournal<D>
    ensures kept { (X : Store) (H : List Event) (n : ℕ) → KeepsCommits D.seen D.may_leave X H n journal → KeepsCommits D.seen D.may_leave X H n result }
    ensures same { (result.layout ≡ journal.layout) × (result.end ≡ journal.end) × (result.stopped ≡ journal.stopped) }
    ensures seen { D.seen result.disk ≡ D.seen journal.disk }
    ensures made { (D.tally result.disk).made ≡ (D.tally journal.disk).made }
    ensures stop { (D.tally result.disk).promise.stop ≡ (D.tally journal.disk).promise.stop }
    ensures faults { D.faults result.disk ≡ D.faults journal.disk }
    ensures refusals { D.refusals result.disk ≡ D.refusals journal.disk }
{
    match journal.renew(alloc) {
        Ok(journal) => journal,
        Err(journal) => journal,
    }
}
