//! How a store is opened.

ghost use Rattle.std.specs.Prelude.{◌≡◌, ◌⊎◌, ◌+◌, ◌*◌, ◌≤◌, ◌++◌, ◌∷◌, [], false, List, ℕ, length, take, IfOk, IfErr};
ghost use Rattle.teb_rules.specs.declared.names.Cell.{Cell as TheCell};
ghost use Rattle.teb_rules.specs.names.Rows.{row_of};
ghost use Rattle.teb_rules.specs.declared.history.Event.{Event};
ghost use Rattle.teb_rules.specs.Accepted.{IsSound};
ghost use Rattle.teb_rules.specs.Replay.{Values};
ghost use Rattle.teb_rules.specs.Setup.{Store};
ghost use Rattle.teb_rules.specs.laws.Lawful.{Lawful};
ghost use Rattle.store_setup.specs.SetupView.{setup_view};
ghost use Rattle.store_setup.specs.Sound.{IsWhole};
ghost use Rattle.engine_core.specs.EngineModel.{EngineModel};
ghost use Rattle.crash_disk.specs.Calls.{IsUpTo};
ghost use Rattle.crash_disk.specs.Disk.{LeavesOnly};
ghost use Rattle.commit_laws.specs.Commits.{commit_count, rows_after};
ghost use Rattle.record_journal.specs.Format.{Record};
ghost use Rattle.record_journal.specs.Journal.{after_records};
ghost use Rattle.epoch_journal.specs.Layout.{half_size};
ghost use Rattle.epoch_journal.specs.Telling.{Tells};
ghost use Rattle.engine_store.specs.Lives.{Epoch, IsLife, epoch_with};
ghost use Rattle.engine_store.specs.Opening.{AllTellOn, HasRowOutside, HasTable, IsBeginning, IsRefused, layout_of};
ghost use Rattle.engine_store.specs.Telling.{AllTellCommits, TellsCommits};
ghost use Rattle.engine_store.specs.declared.open_error.OpenError.TheVariants as errors;

use crate::open_error::NotOpened;
use crate::opening::open_parts;
use crate::recorder::RecordingEngine;
use crate::store::EngineStore;
use crash_disk::Disk;
use epoch_store::EpochStore;
use std::alloc::Global;
use store_setup::Setup;
use version_chain::Chains;

impl<C: Chains, D: Disk> EngineStore<C, D> {
    /// Opens the store that a disk has, under a setup with its tables, over chains with no version. The tree of the setup may be another
    /// than the last one. The rows of the setup count only if the disk has none: if it is empty, or its first opening was cut off.
    ///
    /// # Errors
    /// Each returns the disk, which may be opened again. `Damaged`, `OtherCapacity`, `OtherTables`, `Full` and `OutOfMemory`: nothing
    /// was written. `DiskFault` if a call of the disk fails.
    pub fn open(
        alloc: Global,
        disk: D,
        setup: Setup,
        chains: C,
    ) -> Result<EngineStore<C, D>, NotOpened<D>>
        requires setup { IsWhole (setup_view setup) }
        requires chains { (x : TheCell) → C.lists chains x ≡ [] }

        // A new engine under the setup, with the rows that the disk has.
        ensures begun { IfOk result (λ s. IsBeginning setup s.engine) }
        ensures read { IfOk result (λ s. HasTable (layout_of (D.capacity disk) setup) (row_of setup.rows) (row_of s.engine.store.rows) (D.seen disk)) }
        ensures running { IfOk result (λ s. (s.journal.stopped ≡ false) × (s.journal.acknowledged ≡ 0) × (s.journal.layout ≡ layout_of (D.capacity disk) setup)) }

        // Of a disk that a crash left, or a call that failed: the rows are those after the first k commits of the last epoch, for a k that
        // is at least the number of those that were answered.
        ensures found { (X : Store) (H : List Event) (least : ℕ) → IsSound X.setup → Lawful X.setup H → AllTellCommits D.may_leave (layout_of (D.capacity disk) setup) X H least disk
            → IfOk result (λ s. (k : ℕ) × (least ≤ k) × (k ≤ commit_count H) × ((x : TheCell) → row_of s.engine.store.rows x ≡ rows_after X H k x)) }
        // Whatever epochs are past, the life goes on.
        ensures life { (T : Values) (past : List Epoch) (e : EngineModel) (least : ℕ) → IsLife T (record { past = past; present = e })
            → AllTellCommits D.may_leave (layout_of (D.capacity disk) setup) e.store e.events least disk
            → IfOk result (λ s. (k : ℕ) × (least ≤ k) × (k ≤ commit_count e.events) × IsLife T (record { past = past ++ epoch_with k e ∷ []; present = s.engine })) }
        // Of a disk that has no rows yet, a life begins with those of the setup.
        ensures first { ((image : List ℕ) → D.may_leave disk image → Tells (layout_of (D.capacity disk) setup) (row_of setup.rows) [] 0 image)
            → IfOk result (λ s. IsLife (row_of setup.rows) (record { past = []; present = s.engine })) }

        // A crash at any moment of the call leaves what it left before.
        ensures any_moment { (X : Store) (H : List Event) (least : ℕ) → AllTellCommits D.may_leave (layout_of (D.capacity disk) setup) X H least disk
            → IfOk result (λ s. LeavesOnly D.moment D.left_since disk s.journal.disk (TellsCommits (layout_of (D.capacity disk) setup) X H least)) }
        ensures any_moment_first { ((image : List ℕ) → D.may_leave disk image → Tells (layout_of (D.capacity disk) setup) (row_of setup.rows) [] 0 image)
            → IfOk result (λ s. LeavesOnly D.moment D.left_since disk s.journal.disk (Tells (layout_of (D.capacity disk) setup) (row_of setup.rows) [] 0)) }
        // A crash after it.
        ensures images { IfOk result (λ s. (image : List ℕ) → D.may_leave s.journal.disk image
            → TellsCommits s.journal.layout s.engine.store s.engine.events s.journal.acknowledged image) }

        ensures refused { IfErr result (λ back. IsRefused D.seen D.may_leave D.moment D.left_since D.faults D.capacity
            (layout_of (D.capacity disk) setup) (row_of setup.rows) (length setup.names.tables) disk back.disk back.why) }
        // A disk that a crash left, with rows of these tables alone, is refused only for a fault or for memory.
        ensures reopens { (first : Values) (all : List Record) (least : ℕ) → AllTellOn D.may_leave (layout_of (D.capacity disk) setup) first all least disk
            → ((k : ℕ) → HasRowOutside (length setup.names.tables) (after_records (take k all) first) → ⊥)
            → IfErr result (λ back. (back.why ≡ errors.DiskFault) ⊎ (back.why ≡ errors.OutOfMemory)) }

        // It is opened only if no call of the disk was refused memory.
        ensures granted { IfOk result (λ s. D.refusals s.journal.disk ≡ D.refusals disk) }

        // At most so many calls of the disk, which write no more than fits a half, and the front.
        ensures calls { IfOk result (λ s. IsUpTo (3 * half_size (D.capacity disk) + 28) (half_size (D.capacity disk) + 14) (D.tally disk) (D.tally s.journal.disk)) }
        ensures calls_back { IfErr result (λ back. IsUpTo (3 * half_size (D.capacity disk) + 28) (half_size (D.capacity disk) + 14) (D.tally disk) (D.tally back.disk)) }
    {
        match open_parts(alloc, disk, setup, chains) {
            Ok((engine, journal)) => Ok(EngineStore {
                store: EpochStore::new(RecordingEngine { engine }, journal),
            }),
            Err(back) => Err(back),
        }
    }
}
