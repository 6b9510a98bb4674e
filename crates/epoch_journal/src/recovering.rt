//! How a disk is read.

ghost use Rattle.std.specs.Prelude.{◌≡◌, ◌+◌, ◌*◌, ◌<◌, ◌≤◌, ◌^◌, [], List, ℕ, length, true, false, IfOk, OnOk, IfErr, IsErrOf};
ghost use Rattle.teb_io.specs.Faults.{HasCause, Rose};
ghost use Rattle.teb_rules.specs.declared.names.Cell.{Cell as TheCell};
ghost use Rattle.teb_rules.specs.names.Rows.{row_of, IsAscending};
ghost use Rattle.teb_rules.specs.Replay.{Values};
ghost use Rattle.crash_disk.specs.Calls.{IsUpTo};
ghost use Rattle.crash_disk.specs.Disk.{IsQuiet, Only};
ghost use Rattle.record_journal.specs.Format.{Record};
ghost use Rattle.epoch_journal.specs.Layout.{half_size, layout};
ghost use Rattle.epoch_journal.specs.Telling.{IsBegun, Tells, TellsOn, table_of};
ghost use Rattle.epoch_journal.specs.Kept.{HasFound};
ghost use Rattle.epoch_journal.specs.Read.{HasOtherCapacity, HasOtherLabel, IsCurrently, IsDamaged, IsReadAs};
ghost use Rattle.epoch_journal.specs.declared.error.OpenError.TheVariants as errors;

use crate::current::Current;
use crate::error::OpenError;
use crate::layout::{LENGTH_BYTES, half_bytes};
use crate::reading::{read_current, read_front};
use crate::recovered::{NotOpened, RecoveredDisk};
use crate::table::table_after;
use crash_disk::Disk;
use record_journal::FRAME_BYTES;
use std::alloc::Global;
use teb_io::Failed;
use teb_rules::names::Cell;

impl<D: Disk> RecoveredDisk<D> {
    /// Reads the rows that a disk stands for under a label, over some starting rows, of which the first of a cell counts. It makes all of
    /// the disk safe with one sync, and then reads the records of the current half alone. It writes nothing.
    ///
    /// # Errors
    /// `Damaged`, `OtherCapacity` or `OtherLabel` if the bytes are not the journal of a disk with this capacity under this label; `Full`
    /// if the label does not fit a half; `DiskFault` if a call of the disk fails; `OutOfMemory`. The disk is handed back, and its bytes
    /// are as they were.
    pub fn recover(
        alloc: Global,
        disk: D,
        label: &[u8],
        start: &[(Cell, i64)],
    ) -> Result<RecoveredDisk<D>, NotOpened<D>>
        // The rows of a disk that was left by a crash, or by a call that failed, are those after the first k of all records, for a k that
        // is at least what was acknowledged.
        ensures found { (all : List Record) (least : ℕ) → ((c : List ℕ) → D.may_leave disk c → Tells (layout (D.capacity disk) label.now) (row_of start.now) all least c)
            → IfOk result (λ d. (k : ℕ) × HasFound D.seen D.may_leave (row_of start.now) all least k d) }

        // Of a disk that has a checkpoint they do not depend on the starting rows.
        ensures found_on { (first : Values) (all : List Record) (least : ℕ) → ((c : List ℕ) → D.may_leave disk c → TellsOn (layout (D.capacity disk) label.now) first all least c)
            → IfOk result (λ d. (k : ℕ) × (found : HasFound D.seen D.may_leave first all least k d) × IsBegun found.list) }

        // The rows of any disk are those that its records leave.
        ensures read { IfOk result (λ d. (rs : List Record) × IsReadAs (layout (D.capacity disk) label.now) rs (D.seen disk)
            × ((x : TheCell) → row_of d.rows x ≡ table_of (row_of start.now) rs x)) }
        ensures ascending { IfOk result (λ d. IsAscending d.rows) }
        ensures layout { IfOk result (λ d. d.layout ≡ layout (D.capacity disk) label.now) }
        ensures current { IfOk result (λ d. IsCurrently (D.capacity disk) d.current (D.seen disk)) }

        // When each error is returned.
        ensures damaged { (at : ℕ) → IfErr result (λ back. back.why ≡ errors.Damaged at → IsDamaged (layout (D.capacity disk) label.now) at (D.seen disk)) }
        ensures other_capacity { IfErr result (λ back. back.why ≡ errors.OtherCapacity → HasOtherCapacity (layout (D.capacity disk) label.now) (D.seen disk)) }
        ensures other_label { IfErr result (λ back. back.why ≡ errors.OtherLabel → HasOtherLabel (layout (D.capacity disk) label.now) (D.seen disk)) }
        ensures full { IfErr result (λ back. back.why ≡ errors.Full → half_size (D.capacity disk) < 10 + length label.now) }
        ensures not_full { (first : Values) (all : List Record) (least : ℕ) → ((c : List ℕ) → D.may_leave disk c → TellsOn (layout (D.capacity disk) label.now) first all least c)
            → IfErr result (λ back. back.why ≡ errors.Full → ⊥) }
        ensures cause { IfErr result (λ back. back.why ≡ errors.DiskFault → Rose (D.faults disk) (D.faults back.disk)) }

        // Nothing is written.
        ensures quiet { IfOk result (λ d. IsQuiet D.seen D.may_leave D.moment D.left_since D.faults D.capacity disk d.disk × Only (D.seen disk) (D.may_leave d.disk)) }
        ensures granted { IfOk result (λ d. D.refusals d.disk ≡ D.refusals disk) }
        ensures unwritten { IfErr result (λ back. IsQuiet D.seen D.may_leave D.moment D.left_since D.faults D.capacity disk back.disk) }
        ensures calls { IfOk result (λ d. IsUpTo (3 * half_size (D.capacity disk) + 20) 0 (D.tally disk) (D.tally d.disk)) }
        ensures calls_back { IfErr result (λ back. IsUpTo (3 * half_size (D.capacity disk) + 20) 0 (D.tally disk) (D.tally back.disk)) }
    {
        let mut disk = disk;
        let capacity = disk.capacity();
        let label = match Vec::from_slice(alloc, label) {
            Ok(label) => label,
            Err(_) => {
                return Err(NotOpened {
                    disk,
                    why: OpenError::OutOfMemory,
                });
            }
        };
        match read_disk(alloc, &mut disk, capacity, &label, start) {
            Ok((current, rows)) => Ok(RecoveredDisk {
                disk,
                capacity,
                label,
                current,
                rows,
            }),
            Err(why) => Err(NotOpened { disk, why }),
        }
    }
}

/// Reads which half of a disk is current, and the rows that it stands for.
fn read_disk<D: Disk>(
    alloc: Global,
    disk: &mut D,
    capacity: u64,
    label: &[u8],
    start: &[(Cell, i64)],
) -> Result<(Current, Vec<(Cell, i64)>), OpenError>
    ensures read { IfOk result (λ found. (rs : List Record) × IsReadAs (layout capacity label.now) rs (D.seen disk.old)
        × ((x : TheCell) → row_of found.1.items x ≡ table_of (row_of start.now) rs x)) }
    ensures ascending { IfOk result (λ found. IsAscending found.1.items) }
    ensures label { IfOk result (λ found. length label.now < 2 ^ 32) }
    ensures current { IfOk result (λ found. IsCurrently capacity found.0 (D.seen disk.old)) }
    ensures damaged { (at : ℕ) → IsErrOf result (errors.Damaged at) → IsDamaged (layout capacity label.now) at (D.seen disk.old) }
    ensures other_capacity { IsErrOf result errors.OtherCapacity → HasOtherCapacity (layout capacity label.now) (D.seen disk.old) }
    ensures other_label { IsErrOf result errors.OtherLabel → HasOtherLabel (layout capacity label.now) (D.seen disk.old) }
    ensures full { IsErrOf result errors.Full → half_size capacity < 10 + length label.now }
    ensures quiet { IsQuiet D.seen D.may_leave D.moment D.left_since D.faults D.capacity disk.old disk.new }
    ensures safe { IfOk result (λ found. Only (D.seen disk.old) (D.may_leave disk.new)) }
    ensures cause { IsErrOf result errors.DiskFault → Rose (D.faults disk.old) (D.faults disk.new) }
    ensures calls { IsUpTo (3 * half_size capacity + 20) 0 (D.tally disk.old) (D.tally disk.new) }
    ensures granted { OnOk result (D.refusals disk.new ≡ D.refusals disk.old) }
{
    if !fits_header(capacity, label) {
        return Err(OpenError::Full);
    }
    let len = settled_len(disk)?;
    let current = match read_front(alloc, disk, len, capacity) {
        Ok(current) => current,
        Err(error) => return Err(error),
    };
    let records = match read_current(alloc, disk, len, capacity, label, current) {
        Ok(records) => records,
        Err(error) => return Err(error),
    };
    let rows = table_after(alloc, start, &records)?;
    Ok((current, rows))
}

/// Returns true if a label's header fits a half, with the frame of a record.
fn fits_header(capacity: u64, label: &[u8]) -> bool
    ensures fits { result ≡ true → 10 + length label.now ≤ half_size capacity }
    ensures small { result ≡ true → length label.now < 2 ^ 32 }
    ensures full { result ≡ false → half_size capacity < 10 + length label.now }
{
    let half = half_bytes(capacity);
    let frame = (LENGTH_BYTES + FRAME_BYTES) as u64;
    frame <= half && label.len() as u64 <= half - frame
}

/// Makes a disk safe, and answers how many bytes it has. It makes two calls.
fn settled_len<D: Disk>(disk: &mut D) -> Result<u64, Failed>
    ensures len { IfOk result (λ len. len ≡ length (D.seen disk.old)) }
    ensures quiet { IsQuiet D.seen D.may_leave D.moment D.left_since D.faults D.capacity disk.old disk.new }
    ensures safe { OnOk result (Only (D.seen disk.old) (D.may_leave disk.new)) }
    ensures cause { HasCause (D.faults disk.old) (D.faults disk.new) result }
    ensures calls { IsUpTo 2 0 (D.tally disk.old) (D.tally disk.new) }
    ensures granted { OnOk result (D.refusals disk.new ≡ D.refusals disk.old) }
{
    disk.sync()?;
    let len = disk.len()?;
    Ok(len)
}
