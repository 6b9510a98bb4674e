//! How a journal in epochs is opened.

ghost use Rattle.std.specs.Prelude.{◌≡◌, ◌+◌, ◌*◌, ◌<◌, ◌≤◌, [], List, ℕ, length, take, false, IfOk, IfErr};
ghost use Rattle.teb_io.specs.Faults.{Rose};
ghost use Rattle.teb_rules.specs.declared.names.Cell.{Cell as TheCell};
ghost use Rattle.teb_rules.specs.names.Rows.{row_of, IsAscending};
ghost use Rattle.teb_rules.specs.Replay.{Values};
ghost use Rattle.crash_disk.specs.Calls.{IsUpTo};
ghost use Rattle.crash_disk.specs.Disk.{IsQuiet, LeavesOnly};
ghost use Rattle.record_journal.specs.Format.{Record};
ghost use Rattle.record_journal.specs.Journal.{after_records};
ghost use Rattle.epoch_journal.specs.Layout.{half_size, layout};
ghost use Rattle.epoch_journal.specs.Telling.{Tells, TellsOn, table_of};
ghost use Rattle.epoch_journal.specs.Kept.{Keeps};
ghost use Rattle.epoch_journal.specs.Read.{HasOtherCapacity, HasOtherLabel, IsDamaged, IsReadAs};
ghost use Rattle.epoch_journal.specs.declared.error.OpenError.TheVariants as errors;

use crate::journal::EpochJournal;
use crate::recovered::{NotOpened, RecoveredDisk};
use crash_disk::Disk;
use std::alloc::Global;
use teb_rules::names::Cell;

impl<D: Disk> EpochJournal<D> {
    /// Opens what a disk has under a label, or begins on an empty disk, which takes this label and whose table is that of the starting
    /// rows. It answers the rows that it has found, with which an epoch begins: `RecoveredDisk::recover`, and then `begin`.
    ///
    /// # Errors
    /// `Damaged`, `OtherCapacity`, `OtherLabel`, `Full` and `OutOfMemory`: nothing was written. `DiskFault` if a call of the disk fails.
    /// The disk is handed back, and may be opened again.
    pub fn open(
        alloc: Global,
        disk: D,
        label: &[u8],
        start: &[(Cell, i64)],
    ) -> Result<(EpochJournal<D>, Vec<(Cell, i64)>), NotOpened<D>>
        // Of a disk that was left by a crash, or by a call that failed: the rows are those after the first k of all records, for a k that
        // is at least what was acknowledged, and the life goes on from there.
        ensures found { (all : List Record) (least : ℕ) → ((c : List ℕ) → D.may_leave disk c → Tells (layout (D.capacity disk) label.now) (row_of start.now) all least c)
            → IfOk result (λ o. (k : ℕ) × (least ≤ k) × (k ≤ length all)
            × ((x : TheCell) → row_of o.1.items x ≡ after_records (take k all) (row_of start.now) x)
            × Keeps D.seen D.may_leave (row_of start.now) (take k all) k o.0) }

        // Of a disk that has a checkpoint they do not depend on the starting rows.
        ensures found_on { (first : Values) (all : List Record) (least : ℕ) → ((c : List ℕ) → D.may_leave disk c → TellsOn (layout (D.capacity disk) label.now) first all least c)
            → IfOk result (λ o. (k : ℕ) × (least ≤ k) × (k ≤ length all)
            × ((x : TheCell) → row_of o.1.items x ≡ after_records (take k all) first x)
            × Keeps D.seen D.may_leave first (take k all) k o.0) }

        // Its first epoch begins with these rows, and has no record.
        ensures begins { IfOk result (λ o. Keeps D.seen D.may_leave (row_of o.1.items) [] 0 o.0) }
        ensures read { IfOk result (λ o. (rs : List Record) × IsReadAs (layout (D.capacity disk) label.now) rs (D.seen disk)
            × ((x : TheCell) → row_of o.1.items x ≡ table_of (row_of start.now) rs x)) }
        ensures ascending { IfOk result (λ o. IsAscending o.1.items) }
        ensures running { IfOk result (λ o. (o.0.stopped ≡ false) × (o.0.acknowledged ≡ 0) × (o.0.layout ≡ layout (D.capacity disk) label.now)) }

        // A crash at any moment of the call leaves what it left before.
        ensures any_moment { (all : List Record) (least : ℕ) → ((c : List ℕ) → D.may_leave disk c → Tells (layout (D.capacity disk) label.now) (row_of start.now) all least c)
            → IfOk result (λ o. LeavesOnly D.moment D.left_since disk o.0.disk (Tells (layout (D.capacity disk) label.now) (row_of start.now) all least)) }
        ensures any_moment_back { (all : List Record) (least : ℕ) → ((c : List ℕ) → D.may_leave disk c → Tells (layout (D.capacity disk) label.now) (row_of start.now) all least c)
            → IfErr result (λ back. LeavesOnly D.moment D.left_since disk back.disk (Tells (layout (D.capacity disk) label.now) (row_of start.now) all least)) }

        // Of a disk that has a checkpoint, it leaves one.
        ensures any_moment_on { (first : Values) (all : List Record) (least : ℕ) → ((c : List ℕ) → D.may_leave disk c → TellsOn (layout (D.capacity disk) label.now) first all least c)
            → IfOk result (λ o. LeavesOnly D.moment D.left_since disk o.0.disk (TellsOn (layout (D.capacity disk) label.now) first all least)) }
        ensures any_moment_on_back { (first : Values) (all : List Record) (least : ℕ) → ((c : List ℕ) → D.may_leave disk c → TellsOn (layout (D.capacity disk) label.now) first all least c)
            → IfErr result (λ back. LeavesOnly D.moment D.left_since disk back.disk (TellsOn (layout (D.capacity disk) label.now) first all least)) }

        // When each error is returned. Nothing is written, unless the disk fails.
        ensures damaged { (at : ℕ) → IfErr result (λ back. back.why ≡ errors.Damaged at → IsDamaged (layout (D.capacity disk) label.now) at (D.seen disk)) }
        ensures other_capacity { IfErr result (λ back. back.why ≡ errors.OtherCapacity → HasOtherCapacity (layout (D.capacity disk) label.now) (D.seen disk)) }
        ensures other_label { IfErr result (λ back. back.why ≡ errors.OtherLabel → HasOtherLabel (layout (D.capacity disk) label.now) (D.seen disk)) }
        ensures not_full { (first : Values) (all : List Record) (least : ℕ) → ((c : List ℕ) → D.may_leave disk c → TellsOn (layout (D.capacity disk) label.now) first all least c)
            → IfErr result (λ back. back.why ≡ errors.Full → ⊥) }
        ensures cause { IfErr result (λ back. back.why ≡ errors.DiskFault → Rose (D.faults disk) (D.faults back.disk)) }
        ensures unwritten { IfErr result (λ back. (back.why ≡ errors.DiskFault → ⊥) → IsQuiet D.seen D.may_leave D.moment D.left_since D.faults D.capacity disk back.disk) }

        // It is opened only if no call was refused memory.
        ensures granted { IfOk result (λ o. D.refusals o.0.disk ≡ D.refusals disk) }

        // At most so many calls, which write no more than fits a half, and the front.
        ensures calls { IfOk result (λ o. IsUpTo (3 * half_size (D.capacity disk) + 28) (half_size (D.capacity disk) + 14) (D.tally disk) (D.tally o.0.disk)) }
        ensures calls_back { IfErr result (λ back. IsUpTo (3 * half_size (D.capacity disk) + 28) (half_size (D.capacity disk) + 14) (D.tally disk) (D.tally back.disk)) }
    {
        let recovered = match RecoveredDisk::recover(alloc, disk, label, start) {
            Ok(recovered) => recovered,
            Err(back) => return Err(back),
        };
        recovered.begin(alloc)
    }
}
