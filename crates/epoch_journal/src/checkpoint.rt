//! How the next epoch begins.

ghost use Rattle.std.specs.Prelude.{◌≡◌, ◌+◌, ◌*◌, ◌<◌, ◌≤◌, [], List, ℕ, length, true, false, IfOk, OnOk, OnErr, IfErr, IsErrOf};
ghost use Rattle.teb_io.specs.Faults.{Rose};
ghost use Rattle.teb_rules.specs.declared.names.Cell.{Cell as TheCell};
ghost use Rattle.teb_rules.specs.names.Rows.{row_of};
ghost use Rattle.teb_rules.specs.Replay.{Values};
ghost use Rattle.crash_disk.specs.Calls.{IsUpTo};
ghost use Rattle.crash_disk.specs.Disk.{LeavesOnly};
ghost use Rattle.crash_disk.specs.Spare.{Covers};
ghost use Rattle.record_journal.specs.Format.{Record};
ghost use Rattle.record_journal.specs.Journal.{after_records};
ghost use Rattle.epoch_journal.specs.Layout.{half_at, half_size, other_half};
ghost use Rattle.epoch_journal.specs.Telling.{TellsOn};
ghost use Rattle.epoch_journal.specs.Kept.{Keeps};
ghost use Rattle.epoch_journal.specs.Refusals.{IsReliable};
ghost use Rattle.epoch_journal.specs.declared.error.CheckpointError.TheVariants as errors;

use crate::current::Half;
use crate::error::CheckpointError;
use crate::journal::{EpochJournal, Place};
use crate::layout::base;
use crate::piece::piece_of;
use crate::steps::switch_halves;
use crash_disk::{Disk, Memory};
use std::alloc::{AllocError, Global};
use teb_io::Failed;
use teb_rules::names::Cell;

impl<D: Disk> EpochJournal<D> {
    /// Ends the present epoch and begins the next one, with the rows that all records have left. Its records have the other half of the
    /// disk for themselves. It makes four calls of the disk, and costs the bytes of the rows.
    ///
    /// # Errors
    /// `Full` if the label and the rows do not fit a half, and `OutOfMemory`: then nothing has changed, and no call was made.
    /// `DiskFault` if a call of the disk fails; the journal is then stopped.
    pub fn checkpoint(&mut self, alloc: Global, rows: &[(Cell, i64)]) -> Result<(), CheckpointError>
        requires running { self.old.stopped ≡ false }

        // After `Ok` and after an `Err`, a crash leaves what it left before.
        ensures kept { (start : Values) (all : List Record) (least : ℕ) → Keeps D.seen D.may_leave start all least self.old
            → ((x : TheCell) → row_of rows.now x ≡ after_records all start x) → Keeps D.seen D.may_leave start all least self.new }

        // The next epoch begins with these rows, and has no record.
        ensures begins { (start : Values) (all : List Record) (least : ℕ) → Keeps D.seen D.may_leave start all least self.old → OnOk result (Keeps D.seen D.may_leave (row_of rows.now) [] 0 self.new) }

        // A crash at any moment of the call leaves what it left before.
        ensures any_moment { (start : Values) (all : List Record) (least : ℕ) → Keeps D.seen D.may_leave start all least self.old
            → ((x : TheCell) → row_of rows.now x ≡ after_records all start x)
            → LeavesOnly D.moment D.left_since self.old.disk self.new.disk (TellsOn self.old.layout start all least) }

        ensures layout { self.new.layout ≡ self.old.layout }
        ensures begun { OnOk result ((self.new.stopped ≡ false) × (self.new.half ≡ other_half self.old.half) × (self.new.end ≡ 9 + length self.old.layout.label + 14 * length rows.now)
            × (self.new.acknowledged ≡ 0)) }
        ensures fits { OnOk result (10 + length self.old.layout.label + 14 * length rows.now ≤ half_size self.old.layout.capacity) }
        ensures full { IsErrOf result errors.Full → half_size self.old.layout.capacity < 10 + length self.old.layout.label + 14 * length rows.now }
        ensures unchanged { IfErr result (λ e. (e ≡ errors.DiskFault → ⊥) → self.new ≡ self.old) }
        // No call of the disk is refused memory. So a disk that fails only if it is refused memory does not fail.
        ensures memory { D.refusals self.new.disk ≡ D.refusals self.old.disk }
        ensures sure { IsReliable D.tells_failures D.tally D.refusals self.old.disk → IsErrOf result errors.DiskFault → ⊥ }
        ensures place { OnErr result ((self.new.half ≡ self.old.half) × (self.new.end ≡ self.old.end) × (self.new.acknowledged ≡ self.old.acknowledged)) }
        ensures fault { IsErrOf result errors.DiskFault → (self.new.stopped ≡ true) × Rose (D.faults self.old.disk) (D.faults self.new.disk) }
        ensures calls { IsUpTo 4 (11 + length self.old.layout.label + 14 * length rows.now) (D.tally self.old.disk) (D.tally self.new.disk) }
    {
        let piece = match piece_of(alloc, self.capacity, &self.label, rows) {
            Ok(piece) => piece,
            Err(error) => return Err(error),
        };
        let Place { half, .. } = self.place;
        let Ok(memory) = reserve_half(alloc, &self.disk, self.capacity, half, piece.len()) else {
            return Err(CheckpointError::OutOfMemory);
        };
        self.disk.adopt(memory);
        match switch_halves(&mut self.disk, self.capacity, half, &piece) {
            Ok(()) => {
                self.place = Place {
                    half: half.other(),
                    end: piece.len() as u64 - 1,
                    acknowledged: 0,
                };
                Ok(())
            }
            Err(Failed) => {
                self.stopped = true;
                Err(CheckpointError::DiskFault)
            }
        }
    }
}

/// Returns memory for `len` bytes of the half that is not current, the other one than `half`, and for the byte that makes it current.
///
/// # Errors
/// `AllocError`: out of memory.
fn reserve_half<D: Disk>(
    alloc: Global,
    disk: &D,
    capacity: u64,
    half: Half,
    len: usize,
) -> Result<Memory, AllocError>
    requires room { len ≤ half_size capacity }
    ensures { IfOk result (λ memory. Covers (D.spare_with disk.now memory) 4 (len + 1) (half_at capacity (other_half half) + len)) }
{
    let end = base(capacity, half.other()) + len as u64;
    disk.reserve(alloc, 4, end, len + 1)
}
