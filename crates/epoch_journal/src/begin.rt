//! How the first epoch after a reading begins.

ghost use Rattle.std.specs.Prelude.{◌≡◌, ◌⊎◌, ◌+◌, ◌*◌, ◌-◌, ◌<◌, ◌≤◌, ◌^◌, ◌∷◌, [], List, ℕ, length, take, false, IfOk, OnOk, IfErr, IsErrOf};
ghost use Rattle.teb_io.specs.Faults.{HasCause, Rose};
ghost use Rattle.teb_rules.specs.names.Rows.{row_of};
ghost use Rattle.teb_rules.specs.Replay.{Values};
ghost use Rattle.crash_disk.specs.Calls.{IsUpTo};
ghost use Rattle.crash_disk.specs.Disk.{IsQuiet, LeavesOnly, Only};
ghost use Rattle.record_journal.specs.Format.{Record};
ghost use Rattle.epoch_journal.specs.Layout.{front, half_size, layout};
ghost use Rattle.epoch_journal.specs.Halves.{HasOneOf, HasRecords, IsAt, IsFronted, IsPiece, IsResting, IsSettled};
ghost use Rattle.epoch_journal.specs.Telling.{IsBegun, Tells, TellsOn, checkpoint_of};
ghost use Rattle.epoch_journal.specs.Kept.{HasFound, Keeps};
ghost use Rattle.epoch_journal.specs.Read.{IsCurrently};
ghost use Rattle.epoch_journal.specs.declared.error.OpenError.TheVariants as errors;

use crate::current::{Current, Half};
use crate::error::OpenError;
use crate::journal::{EpochJournal, Place};
use crate::layout::front_of;
use crate::piece::piece_of;
use crate::recovered::{NotOpened, RecoveredDisk};
use crate::safely::write_safely;
use crate::steps::switch_halves;
use crash_disk::Disk;
use std::alloc::Global;
use teb_io::Failed;
use teb_rules::names::Cell;

impl<D: Disk> RecoveredDisk<D> {
    /// Begins an epoch with the rows that were read, in the half that is not current, and answers the rows. It makes four calls of the
    /// disk, and eight if the disk ended before its halves.
    ///
    /// # Errors
    /// `Full` if the label and the rows do not fit a half, and `OutOfMemory`: then nothing was written. `DiskFault` if a call of the disk
    /// fails. The disk is handed back, and may be read again.
    pub fn begin(self, alloc: Global) -> Result<(EpochJournal<D>, Vec<(Cell, i64)>), NotOpened<D>>
        // The life goes on from the first k of all records.
        ensures found { (start : Values) (all : List Record) (least k : ℕ) → HasFound D.seen D.may_leave start all least k self
            → IfOk result (λ o. Keeps D.seen D.may_leave start (take k all) k o.0) }

        // The epoch begins with the rows, and has no record.
        ensures begins { IsCurrently self.layout.capacity self.current (D.seen self.disk) → Only (D.seen self.disk) (D.may_leave self.disk)
            → IfOk result (λ o. Keeps D.seen D.may_leave (row_of o.1.items) [] 0 o.0) }
        ensures running { IfOk result (λ o. (o.0.stopped ≡ false) × (o.0.acknowledged ≡ 0) × (o.0.layout ≡ self.layout) × (o.1.items ≡ self.rows)) }

        // A crash at any moment of the call leaves what it left before.
        ensures any_moment { (start : Values) (all : List Record) (least k : ℕ) → HasFound D.seen D.may_leave start all least k self
            → IfOk result (λ o. LeavesOnly D.moment D.left_since self.disk o.0.disk (Tells self.layout start all least)) }
        ensures any_moment_back { (start : Values) (all : List Record) (least k : ℕ) → HasFound D.seen D.may_leave start all least k self
            → IfErr result (λ back. LeavesOnly D.moment D.left_since self.disk back.disk (Tells self.layout start all least)) }

        // Of a disk that has a checkpoint, it leaves one.
        ensures any_moment_on { (start : Values) (all : List Record) (least k : ℕ) → (found : HasFound D.seen D.may_leave start all least k self) → IsBegun found.list
            → IfOk result (λ o. LeavesOnly D.moment D.left_since self.disk o.0.disk (TellsOn self.layout start all least)) }
        ensures any_moment_on_back { (start : Values) (all : List Record) (least k : ℕ) → (found : HasFound D.seen D.may_leave start all least k self) → IsBegun found.list
            → IfErr result (λ back. LeavesOnly D.moment D.left_since self.disk back.disk (TellsOn self.layout start all least)) }

        ensures errors { IfErr result (λ back. (back.why ≡ errors.DiskFault × Rose (D.faults self.disk) (D.faults back.disk))
            ⊎ ((back.disk ≡ self.disk) × ((back.why ≡ errors.OutOfMemory) ⊎ (back.why ≡ errors.Full × (half_size self.layout.capacity < 10 + length self.layout.label + 14 * length self.rows))))) }
        // The rows of a disk that has a checkpoint fit the other half.
        ensures not_full { (start : Values) (all : List Record) (least k : ℕ) → (found : HasFound D.seen D.may_leave start all least k self) → IsBegun found.list
            → IfErr result (λ back. back.why ≡ errors.Full → ⊥) }

        ensures calls { IfOk result (λ o. IsUpTo 8 (24 + length self.layout.label + 14 * length self.rows) (D.tally self.disk) (D.tally o.0.disk)) }
        ensures calls_back { IfErr result (λ back. IsUpTo 8 (24 + length self.layout.label + 14 * length self.rows) (D.tally self.disk) (D.tally back.disk)) }
        // A journal is begun only if no call was refused memory.
        ensures granted { IfOk result (λ o. D.refusals o.0.disk ≡ D.refusals self.disk) }

        // However many rows there are, no more is written than fits a half, and the front.
        ensures within { IfOk result (λ o. IsUpTo 8 (half_size self.layout.capacity + 14) (D.tally self.disk) (D.tally o.0.disk)) }
        ensures within_back { IfErr result (λ back. IsUpTo 8 (half_size self.layout.capacity + 14) (D.tally self.disk) (D.tally back.disk)) }
    {
        let RecoveredDisk {
            mut disk,
            capacity,
            label,
            current,
            rows,
        } = self;
        match begin_with(alloc, &mut disk, capacity, &label, current, &rows) {
            Ok(place) => Ok((
                EpochJournal {
                    disk,
                    capacity,
                    label,
                    place,
                    stopped: false,
                },
                rows,
            )),
            Err(why) => Err(NotOpened { disk, why }),
        }
    }
}

/// Writes a checkpoint of the rows into the half that is not current, and makes it current.
fn begin_with<D: Disk>(
    alloc: Global,
    disk: &mut D,
    capacity: u64,
    label: &[u8],
    current: Current,
    rows: &[(Cell, i64)],
) -> Result<Place, OpenError>
    requires small { capacity ≤ D.capacity disk.old }
    requires label { length label.now < 2 ^ 32 }
    ensures resting { IsCurrently capacity current (D.seen disk.old) → Only (D.seen disk.old) (D.may_leave disk.old)
        → IfOk result (λ place. IsResting (layout capacity label.now) place.half (checkpoint_of rows.now ∷ []) place.end (D.seen disk.new)) }
    ensures begun { (rs : List Record) → IsAt (layout capacity label.now) rs current (D.seen disk.old) → Only (D.seen disk.old) (D.may_leave disk.old)
        → IfOk result (λ place. IsResting (layout capacity label.now) place.half (checkpoint_of rows.now ∷ []) place.end (D.seen disk.new) × Only (D.seen disk.new) (D.may_leave disk.new)) }
    ensures place { IfOk result (λ place. (place.end < half_size capacity) × (place.acknowledged ≡ 0)) }
    ensures any_moment { (rs : List Record) → IsAt (layout capacity label.now) rs current (D.seen disk.old) → Only (D.seen disk.old) (D.may_leave disk.old)
        → LeavesOnly D.moment D.left_since disk.old disk.new (HasOneOf (layout capacity label.now) rs (checkpoint_of rows.now ∷ [])) }
    ensures full { IsErrOf result errors.Full → half_size capacity < 10 + length label.now + 14 * length rows.now }
    ensures unchanged { IfErr result (λ e. (e ≡ errors.DiskFault → ⊥) → disk.new ≡ disk.old) }
    ensures only { IfErr result (λ e. (e ≡ errors.DiskFault) ⊎ ((e ≡ errors.OutOfMemory) ⊎ (e ≡ errors.Full))) }
    ensures durable { OnOk result (Only (D.seen disk.new) (D.may_leave disk.new)) }
    ensures stays { D.capacity disk.new ≡ D.capacity disk.old }
    ensures cause { IsErrOf result errors.DiskFault → Rose (D.faults disk.old) (D.faults disk.new) }
    ensures calls { IsUpTo 8 (24 + length label.now + 14 * length rows.now) (D.tally disk.old) (D.tally disk.new) }
    ensures within { IsUpTo 8 (half_size capacity + 14) (D.tally disk.old) (D.tally disk.new) }
    ensures granted { OnOk result (D.refusals disk.new ≡ D.refusals disk.old) }
{
    let front = front_of(alloc, capacity)?;
    let piece = piece_of(alloc, capacity, label, rows)?;
    let place = replace(disk, capacity, current, &front, &piece)?;
    Ok(place)
}

/// Puts the bytes of a half in the place of what a disk has.
fn replace<D: Disk>(
    disk: &mut D,
    capacity: u64,
    current: Current,
    front_bytes: &[u8],
    piece: &[u8],
) -> Result<Place, Failed>
    requires small { capacity ≤ D.capacity disk.old }
    requires front { front_bytes.now ≡ front capacity }
    requires some { 0 < length piece.now }
    requires room { length piece.now ≤ half_size capacity }
    ensures place { IfOk result (λ place. (place.end < half_size capacity) × (place.acknowledged ≡ 0)) }
    ensures resting { (label : List ℕ) (r : Record) → IsPiece (layout capacity label) r piece.now → IsCurrently capacity current (D.seen disk.old) → Only (D.seen disk.old) (D.may_leave disk.old)
        → IfOk result (λ place. IsResting (layout capacity label) place.half (r ∷ []) place.end (D.seen disk.new)) }
    ensures switched { (label : List ℕ) (rs : List Record) (r : Record) → IsPiece (layout capacity label) r piece.now → IsAt (layout capacity label) rs current (D.seen disk.old)
        → Only (D.seen disk.old) (D.may_leave disk.old)
        → IfOk result (λ place. IsResting (layout capacity label) place.half (r ∷ []) place.end (D.seen disk.new) × Only (D.seen disk.new) (D.may_leave disk.new)) }
    ensures any_moment { (label : List ℕ) (rs : List Record) (r : Record) → IsPiece (layout capacity label) r piece.now → IsAt (layout capacity label) rs current (D.seen disk.old)
        → Only (D.seen disk.old) (D.may_leave disk.old)
        → LeavesOnly D.moment D.left_since disk.old disk.new (HasOneOf (layout capacity label) rs (r ∷ [])) }
    ensures durable { OnOk result (Only (D.seen disk.new) (D.may_leave disk.new)) }
    ensures stays { D.capacity disk.new ≡ D.capacity disk.old }
    ensures cause { HasCause (D.faults disk.old) (D.faults disk.new) result }
    ensures calls { IsUpTo 8 (14 + length piece.now) (D.tally disk.old) (D.tally disk.new) }
    ensures within { IsUpTo 8 (half_size capacity + 14) (D.tally disk.old) (D.tally disk.new) }
    ensures granted { OnOk result (D.refusals disk.new ≡ D.refusals disk.old) }
{
    let half = settle(disk, capacity, current, front_bytes)?;
    switch_halves(disk, capacity, half, piece)?;
    Ok(Place {
        half: half.other(),
        end: piece.len() as u64 - 1,
        acknowledged: 0,
    })
}

/// Returns the current half. A disk that ends before its halves gets its front, and the second half is current, which is empty.
fn settle<D: Disk>(
    disk: &mut D,
    capacity: u64,
    current: Current,
    front_bytes: &[u8],
) -> Result<Half, Failed>
    requires small { (13 ≤ capacity) × (capacity ≤ D.capacity disk.old) }
    requires front { front_bytes.now ≡ front capacity }
    ensures fronted { IsCurrently capacity current (D.seen disk.old) → Only (D.seen disk.old) (D.may_leave disk.old) → OnOk result (IsFronted capacity (D.seen disk.new)) }
    ensures settled { (label : List ℕ) (rs : List Record) → IsAt (layout capacity label) rs current (D.seen disk.old) → Only (D.seen disk.old) (D.may_leave disk.old)
        → IfOk result (λ half. IsSettled (layout capacity label) half rs (D.seen disk.new) × Only (D.seen disk.new) (D.may_leave disk.new)) }
    ensures any_moment { (label : List ℕ) (rs : List Record) → IsAt (layout capacity label) rs current (D.seen disk.old) → Only (D.seen disk.old) (D.may_leave disk.old)
        → LeavesOnly D.moment D.left_since disk.old disk.new (HasRecords (layout capacity label) rs) }
    ensures stays { D.capacity disk.new ≡ D.capacity disk.old }
    ensures cause { HasCause (D.faults disk.old) (D.faults disk.new) result }
    ensures calls { IsUpTo 4 13 (D.tally disk.old) (D.tally disk.new) }
    ensures granted { OnOk result (D.refusals disk.new ≡ D.refusals disk.old) }
{
    match current {
        Current::Half(half) => Ok(half),
        Current::Blank => {
            write_front(disk, capacity, front_bytes)?;
            Ok(Half::Second)
        }
    }
}

/// Makes the second half of a disk current that ends before its halves, and then writes the front, each made safe.
fn write_front<D: Disk>(disk: &mut D, capacity: u64, front_bytes: &[u8]) -> Result<(), Failed>
    requires small { (13 ≤ capacity) × (capacity ≤ D.capacity disk.old) }
    requires front { front_bytes.now ≡ front capacity }
    ensures settled { (label : List ℕ) → length (D.seen disk.old) ≤ 13 → Only (D.seen disk.old) (D.may_leave disk.old)
        → OnOk result (IsSettled (layout capacity label) Half.Second [] (D.seen disk.new) × Only (D.seen disk.new) (D.may_leave disk.new)) }
    ensures any_moment { (label : List ℕ) → length (D.seen disk.old) ≤ 13 → Only (D.seen disk.old) (D.may_leave disk.old)
        → LeavesOnly D.moment D.left_since disk.old disk.new (HasRecords (layout capacity label) []) }
    ensures stays { D.capacity disk.new ≡ D.capacity disk.old }
    ensures cause { HasCause (D.faults disk.old) (D.faults disk.new) result }
    ensures calls { IsUpTo 4 13 (D.tally disk.old) (D.tally disk.new) }
    ensures granted { OnOk result (D.refusals disk.new ≡ D.refusals disk.old) }
{
    write_safely(disk, 0, &[Half::Second.selector()])?;
    write_safely(disk, 1, front_bytes)?;
    Ok(())
}
