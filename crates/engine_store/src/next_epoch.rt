//! How the next epoch begins.

ghost use Rattle.std.specs.Prelude.{◌≡◌, ◌+◌, ◌*◌, ◌++◌, ◌∷◌, [], true, false, IfOk, IfErr, OnErr, IsErrOf, MatchResult, List, ℕ, length};
ghost use Rattle.teb_io.specs.Faults.{Rose};
ghost use Rattle.teb_rules.specs.declared.names.Cell.{Cell as TheCell};
ghost use Rattle.teb_rules.specs.names.Rows.{row_of};
ghost use Rattle.teb_rules.specs.Replay.{Values};
ghost use Rattle.store_setup.specs.SetupView.{setup_view};
ghost use Rattle.store_setup.specs.Sound.{IsWhole};
ghost use Rattle.engine_core.specs.EngineModel.{EngineModel, IsOfEngine};
ghost use Rattle.tree_switch.specs.Courses.{IsCourse};
ghost use Rattle.tree_switch.specs.Starts.{IsStarted};
ghost use Rattle.crash_disk.specs.Calls.{IsUpTo};
ghost use Rattle.crash_disk.specs.Disk.{LeavesOnly};
ghost use Rattle.record_journal.specs.Journal.{after_records};
ghost use Rattle.epoch_journal.specs.Refusals.{IsReliable};
ghost use Rattle.commit_laws.specs.Records.{records_of};
ghost use Rattle.engine_store.specs.Lives.{Epoch, IsLife, epoch_of};
ghost use Rattle.engine_store.specs.Next.{IsCause, IsRefusal, MayFollow, WritesFinalRows};
ghost use Rattle.engine_store.specs.Telling.{IsUpToUntilRenewed, LeavesOnlyUntilRenewed, TellsCommits};
ghost use Rattle.engine_store.specs.declared.error.NextError.TheVariants as errors;

use crate::error::NextError;
use crate::recorder::RecordingEngine;
use crate::store::EngineStore;
use crash_disk::{Disk, Renew};
use engine_core::Engine;
use epoch_store::EpochStore;
use std::alloc::Global;
use store_setup::Setup;
use tree_switch::{SwitchError, check, start, with_rows};
use version_chain::Chains;

/// Why the next epoch has not begun, with the store.
#[derive(Drop)]
pub struct NotNext<C: Chains, D: Disk> {
    pub store: EngineStore<C, D>,
    pub why: NextError,
}

impl<C: Chains, D: Renew> EngineStore<C, D> {
    /// Ends the present epoch, and begins the next one under a setup with the same tables, over chains with no version: a checkpoint of
    /// the rows that all commits left, with which the next engine starts. The rows of the setup are not used. Transactions count from 1
    /// again. It returns the store, and the engine of the epoch that has ended. It makes four calls of the disk, and then renews it; a
    /// renewal that is out of memory is left out.
    ///
    /// # Errors
    /// Each returns the store, as it was, except for `DiskFault`, after which it is stopped. `Stopped` if it was before; else `Again` if
    /// a transaction is unfinished; else `Untold` if a session holds an aborted one; else `OtherTables` if the setup has other tables;
    /// `Full` if the rows do not fit the disk; `DiskFault` if a call of the disk fails; `OutOfMemory`.
    pub fn next_epoch(
        self,
        alloc: Global,
        setup: Setup,
        chains: C,
    ) -> Result<(EngineStore<C, D>, Engine<C>), NotNext<C, D>>
        requires setup { IsWhole (setup_view setup) }
        requires chains { (x : TheCell) → C.lists chains x ≡ [] }
        ensures refused { MatchResult result (λ _. MayFollow self.engine setup.names.tables) (λ refused. IsCause self.journal.layout self.engine setup.names.tables refused.why) }
        ensures begun { IfOk result (λ o. IsStarted setup self.engine o.0.engine × (o.1 ≡ self.engine)) }
        ensures running { IfOk result (λ o. (o.0.journal.acknowledged ≡ 0) × (o.0.journal.stopped ≡ false) × (o.0.journal.layout ≡ self.journal.layout)) }
        ensures kept { IfErr result (λ refused. (refused.why ≡ errors.DiskFault → ⊥) → refused.store ≡ self) }
        ensures back { IfErr result (λ refused. (refused.store.engine ≡ self.engine) × (refused.store.journal.layout ≡ self.journal.layout)
            × (refused.store.journal.acknowledged ≡ self.journal.acknowledged)) }
        ensures stopped { IfErr result (λ refused. refused.why ≡ errors.Stopped → self.journal.stopped ≡ true) }
        ensures stays { self.journal.stopped ≡ true → IfOk result (λ _. ⊥) × IfErr result (λ refused. refused.why ≡ errors.Stopped) }
        ensures fault { IfErr result (λ refused. refused.why ≡ errors.DiskFault
            → (refused.store.journal.stopped ≡ true) × Rose (D.faults self.journal.disk) (D.faults refused.store.journal.disk)) }

        // No call of the disk is refused memory. So a disk that fails only if it is refused memory does not fail.
        ensures memory { MatchResult result (λ o. D.refusals o.0.journal.disk ≡ D.refusals self.journal.disk) (λ refused. D.refusals refused.store.journal.disk ≡ D.refusals self.journal.disk) }
        ensures sure { IsReliable D.tells_failures D.tally D.refusals self.journal.disk → IfErr result (λ refused. refused.why ≡ errors.DiskFault → ⊥) }

        // At most four calls of the disk, which write the label, the rows, and the byte that makes their half current.
        ensures calls { IfOk result (λ o. IsUpToUntilRenewed D.seen D.faults D.tally 4 (11 + length self.journal.layout.label + 14 * length o.0.engine.store.rows)
            self.journal.disk o.0.journal.disk) }
        ensures calls_back { IfErr result (λ refused. refused.why ≡ errors.DiskFault
            → WritesFinalRows self.journal.layout self.engine (D.tally self.journal.disk) (D.tally refused.store.journal.disk)) }

        // Whatever epochs are past, the life goes on.
        ensures course { (past : List EngineModel) → IsCourse (record { past = past; present = self.engine })
            → IfOk result (λ o. IsCourse (record { past = past ++ self.engine ∷ []; present = o.0.engine })) }
        ensures life { (T : Values) (past : List Epoch) → IsLife T (record { past = past; present = self.engine })
            → IfOk result (λ o. IsLife T (record { past = past ++ epoch_of self.engine ∷ []; present = o.0.engine })) }

        // A crash at any moment of the call leaves the first commits of the epoch that ends.
        ensures any_moment { IfOk result (λ o. LeavesOnlyUntilRenewed D.seen D.faults D.moment D.left_since self.journal.disk o.0.journal.disk
            (TellsCommits self.journal.layout self.engine.store self.engine.events self.journal.acknowledged)) }
        ensures any_moment_back { IfErr result (λ refused. LeavesOnly D.moment D.left_since self.journal.disk refused.store.journal.disk
            (TellsCommits self.journal.layout self.engine.store self.engine.events self.journal.acknowledged)) }
        // A crash after it.
        ensures images { IfOk result (λ o. (image : List ℕ) → D.may_leave o.0.journal.disk image
            → TellsCommits o.0.journal.layout o.0.engine.store o.0.engine.events o.0.journal.acknowledged image) }
        ensures images_back { IfErr result (λ refused. (image : List ℕ) → D.may_leave refused.store.journal.disk image
            → TellsCommits self.journal.layout self.engine.store self.engine.events self.journal.acknowledged image) }
    {
        let EngineStore { mut store } = self;
        match begin_next(alloc, &mut store, setup, chains) {
            Ok(past) => {
                let store = renewed(alloc, store);
                Ok((EngineStore { store }, past))
            }
            Err(why) => Err(NotNext {
                store: EngineStore { store },
                why,
            }),
        }
    }
}

impl<C: Chains, D: Disk> EngineStore<C, D> {
    /// Ends the present epoch, and begins the next one, as `next_epoch` does, on the same disk: it is not renewed, and keeps its calls. It
    /// returns the engine of the epoch that has ended.
    ///
    /// # Errors
    /// Those of `next_epoch`. The store is as it was, except for `DiskFault`, after which it is stopped.
    pub fn begin_epoch(
        &mut self,
        alloc: Global,
        setup: Setup,
        chains: C,
    ) -> Result<Engine<C>, NextError>
        requires setup { IsWhole (setup_view setup) }
        requires chains { (x : TheCell) → C.lists chains x ≡ [] }
        ensures refused { MatchResult result (λ _. MayFollow self.old.engine setup.names.tables) (IsCause self.old.journal.layout self.old.engine setup.names.tables) }
        ensures begun { IfOk result (λ past. (past ≡ self.old.engine) × IsStarted setup self.old.engine self.new.engine) }
        ensures running { IfOk result (λ _. (self.new.journal.acknowledged ≡ 0) × (self.new.journal.stopped ≡ false)) }
        ensures kept { IfErr result (λ why. (why ≡ errors.DiskFault → ⊥) → self.new ≡ self.old) }
        ensures back { OnErr result ((self.new.engine ≡ self.old.engine) × (self.new.journal.acknowledged ≡ self.old.journal.acknowledged)) }
        ensures stopped { IsErrOf result errors.Stopped → self.old.journal.stopped ≡ true }
        ensures fault { IsErrOf result errors.DiskFault → self.new.journal.stopped ≡ true }
        ensures layout { self.new.journal.layout ≡ self.old.journal.layout }

        // No call of the disk is refused memory. So a disk that fails only if it is refused memory does not fail.
        ensures memory { D.refusals self.new.journal.disk ≡ D.refusals self.old.journal.disk }
        ensures sure { IsReliable D.tells_failures D.tally D.refusals self.old.journal.disk → IsErrOf result errors.DiskFault → ⊥ }
        ensures promise { (D.tally self.new.journal.disk).promise ≡ (D.tally self.old.journal.disk).promise }

        // A crash at any moment of the call leaves the first commits of the epoch that ends, and if the next one begins, the rows that it
        // begins with.
        ensures any_moment { LeavesOnly D.moment D.left_since self.old.journal.disk self.new.journal.disk
            (TellsCommits self.old.journal.layout self.old.engine.store self.old.engine.events self.old.journal.acknowledged) }
        ensures any_moment_next { IfOk result (λ _. LeavesOnly D.moment D.left_since self.old.journal.disk self.new.journal.disk
            (TellsCommits self.new.journal.layout self.new.engine.store self.new.engine.events 0)) }
        // A crash after it.
        ensures images { (image : List ℕ) → D.may_leave self.new.journal.disk image
            → TellsCommits self.new.journal.layout self.new.engine.store self.new.engine.events self.new.journal.acknowledged image }
    {
        let _ = self.store.acknowledged();
        match begin_next(alloc, &mut self.store, setup, chains) {
            Ok(past) => Ok(past),
            Err(why) => Err(why),
        }
    }
}

/// Ends the epoch of a store, and begins the next one under a setup. It returns the engine of the epoch that has ended.
///
/// # Errors
/// As those of `EngineStore::next_epoch`. The store is as it was, except for `DiskFault`, after which it is stopped.
fn begin_next<C: Chains, D: Disk>(
    alloc: Global,
    store: &mut EpochStore<RecordingEngine<C>, D>,
    setup: Setup,
    chains: C,
) -> Result<Engine<C>, NextError>
    requires setup { IsWhole (setup_view setup) }
    requires chains { (x : TheCell) → C.lists chains x ≡ [] }
    ensures refused { MatchResult result (λ _. MayFollow store.old.engine.engine setup.names.tables) (IsCause store.old.journal.layout store.old.engine.engine setup.names.tables) }
    ensures begun { IfOk result (λ past. (past ≡ store.old.engine.engine) × IsStarted setup store.old.engine.engine store.new.engine.engine × (store.new.journal.acknowledged ≡ 0)
        × (store.new.journal.stopped ≡ false)) }
    ensures engine { IfOk result (λ _. IsOfEngine store.new.engine.engine) }
    ensures rows { IfOk result (λ _. (x : TheCell) → row_of store.new.engine.engine.store.rows x
        ≡ after_records (records_of store.old.engine.engine.store.setup store.old.engine.engine.events) (row_of store.old.engine.engine.store.rows) x) }
    ensures back { OnErr result ((store.new.engine.engine ≡ store.old.engine.engine) × (store.new.journal.acknowledged ≡ store.old.journal.acknowledged)) }
    ensures kept { IfErr result (λ why. (why ≡ errors.DiskFault → ⊥) → store.new ≡ store.old) }
    ensures stopped { IsErrOf result errors.Stopped → store.old.journal.stopped ≡ true }
    ensures stays { store.old.journal.stopped ≡ true → IsErrOf result errors.Stopped }
    ensures fault { IsErrOf result errors.DiskFault → (store.new.journal.stopped ≡ true) × Rose (D.faults store.old.journal.disk) (D.faults store.new.journal.disk) }
    ensures layout { store.new.journal.layout ≡ store.old.journal.layout }
    ensures memory { D.refusals store.new.journal.disk ≡ D.refusals store.old.journal.disk }
    ensures sure { IsReliable D.tells_failures D.tally D.refusals store.old.journal.disk → IsErrOf result errors.DiskFault → ⊥ }
    ensures promise { (D.tally store.new.journal.disk).promise ≡ (D.tally store.old.journal.disk).promise }
    ensures calls { IfOk result (λ _. IsUpTo 4 (11 + length store.old.journal.layout.label + 14 * length store.new.engine.engine.store.rows)
        (D.tally store.old.journal.disk) (D.tally store.new.journal.disk)) }
    ensures calls_back { IsErrOf result errors.DiskFault
        → WritesFinalRows store.old.journal.layout store.old.engine.engine (D.tally store.old.journal.disk) (D.tally store.new.journal.disk) }
    ensures any_moment { LeavesOnly D.moment D.left_since store.old.journal.disk store.new.journal.disk
        (TellsCommits store.old.journal.layout store.old.engine.engine.store store.old.engine.engine.events store.old.journal.acknowledged) }
    ensures images { (image : List ℕ) → D.may_leave store.new.journal.disk image
        → TellsCommits store.new.journal.layout store.new.engine.engine.store store.new.engine.engine.events store.new.journal.acknowledged image }
{
    if store.is_stopped() {
        let _ = store.engine();
        return Err(NextError::Stopped);
    }
    let engine = match next_engine(alloc, &store.engine().engine, setup, chains) {
        Ok(engine) => engine,
        Err(why) => return Err(why),
    };
    match store.next_epoch(alloc, RecordingEngine { engine }) {
        Ok(past) => Ok(past.engine),
        Err(refused) => Err(refused.why.into()),
    }
}

/// Returns the engine of the next epoch: under a setup, with the rows that the commits of an engine leave as its starting rows.
///
/// # Errors
/// Returns the first cause that keeps the next epoch from beginning, if there is one. The engine is only read.
pub fn next_engine<C: Chains>(
    alloc: Global,
    engine: &Engine<C>,
    setup: Setup,
    chains: C,
) -> Result<Engine<C>, NextError>
    requires setup { IsWhole (setup_view setup) }
    requires chains { (x : TheCell) → C.lists chains x ≡ [] }
    ensures refused { MatchResult result (λ _. MayFollow engine.now setup.names.tables) (IsRefusal engine.now setup.names.tables) }
    ensures started { IfOk result (λ next. IsStarted setup engine.now next × IsOfEngine next) }
    ensures rows { IfOk result (λ next. (x : TheCell) → row_of next.store.rows x ≡ after_records (records_of engine.now.store.setup engine.now.events) (row_of engine.now.store.rows) x) }
{
    let _ = engine.history();
    let setup = with_rows(setup, Vec::new(alloc));
    may_follow(engine, &setup)?;
    Ok(start(alloc, engine, setup, chains)?)
}

/// Returns `Ok` if the epoch of an engine may be followed by one under a setup without rows.
fn may_follow<C: Chains>(engine: &Engine<C>, setup: &Setup) -> Result<(), NextError>
    requires { setup.now.rows ≡ [] }
    ensures { MatchResult result (λ _. MayFollow engine.now setup.now.names.tables) (IsRefusal engine.now setup.now.names.tables) }
{
    match check(engine, setup) {
        Ok(()) => Ok(()),
        Err(SwitchError::Again(txn)) => Err(NextError::Again(txn)),
        Err(SwitchError::Untold(session)) => Err(NextError::Untold(session)),
        Err(SwitchError::Tables) => Err(NextError::OtherTables),
        Err(SwitchError::Rows) => unreachable!(),
        Err(SwitchError::OutOfMemory) => Err(NextError::OutOfMemory),
    }
}

/// Returns the store on a renewed disk, or as it is if that is out of memory.
fn renewed<C: Chains, D: Renew>(
    alloc: Global,
    store: EpochStore<RecordingEngine<C>, D>,
) -> EpochStore<RecordingEngine<C>, D>
    requires images { (image : List ℕ) → D.may_leave store.journal.disk image
        → TellsCommits store.journal.layout store.engine.engine.store store.engine.engine.events store.journal.acknowledged image }
    ensures images { (image : List ℕ) → D.may_leave result.journal.disk image
        → TellsCommits result.journal.layout result.engine.engine.store result.engine.engine.events result.journal.acknowledged image }
    ensures engine { result.engine ≡ store.engine }
    ensures same { (result.journal.layout ≡ store.journal.layout) × (result.journal.acknowledged ≡ store.journal.acknowledged) × (result.journal.stopped ≡ store.journal.stopped) }
    ensures seen { D.seen result.journal.disk ≡ D.seen store.journal.disk }
    ensures made { (D.tally result.journal.disk).made ≡ (D.tally store.journal.disk).made }
    ensures stop { (D.tally result.journal.disk).promise.stop ≡ (D.tally store.journal.disk).promise.stop }
    ensures faults { D.faults result.journal.disk ≡ D.faults store.journal.disk }
    ensures refusals { D.refusals result.journal.disk ≡ D.refusals store.journal.disk }
{
    match store.renew(alloc) {
        Ok(store) => store,
        Err(store) => store,
    }
}
