//! Creating a journal, and appending to it.

ghost use Rattle.std.specs.Prelude.{◌≡◌, ◌+◌, ◌-◌, ◌<◌, ◌≤◌, ◌++◌, ◌∷◌, [], List, length, true, false, OnOk, OnErr, IfOk, IfErr, IsOk, IsErr, ◌^◌};
ghost use Rattle.crash_disk.specs.Calls.{AreCalls, AreSure, Fails, IsUpTo};
ghost use Rattle.crash_disk.specs.Disk.{LeavesOnly, Only};
ghost use Rattle.crash_disk.specs.Spare.{Covers};
ghost use Rattle.crash_disk.specs.Sizes.{default_capacity};
ghost use Rattle.teb_io.specs.Faults.{HasCause, Rose};
ghost use Rattle.record_journal.specs.Format.{Record, recovered, room_of, Whole};
ghost use Rattle.record_journal.specs.Journal.{IsAtRest, IsBody, StandsFor};
ghost use Rattle.record_journal.specs.Kept.{Keeps};

use crate::{Journal, Progress, write_record};
use crash_disk::{DEFAULT_CAPACITY, Disk, Memory};
use std::alloc::{AllocError, Global};
use teb_io::Failed;

impl<D: Disk> Journal<D> {
    /// Returns a journal without records, on a disk with any contents. It makes two calls of the disk.
    ///
    /// # Errors
    /// The disk itself, if one of its calls fails. No more of it is safe than before.
    pub fn create(disk: D) -> Result<Journal<D>, D>
        ensures empty { IfOk result (λ journal. Keeps D.seen D.may_leave [] journal × (journal.stopped ≡ false) × (journal.progress.acknowledged ≡ 0)) }
        ensures cause { IfErr result (λ back. Rose (D.faults disk) (D.faults back)) }
        ensures capacity { IfOk result (λ journal. D.capacity journal.disk ≡ D.capacity disk) }
        ensures back_capacity { IfErr result (λ back. D.capacity back ≡ D.capacity disk) }
        // It makes two calls, up to the first that fails, and writes one byte. After an error no more is safe than before.
        ensures sure { AreSure (D.tally disk).promise.writes 2 1 (D.tally disk) → IsOk result }
        ensures fails { Fails 2 (D.tally disk) → IsErr result }
        ensures counted { IfOk result (λ journal. IsUpTo 2 1 (D.tally disk) (D.tally journal.disk) × ((D.tally disk).made + 2 < 2 ^ 64 → (D.tally journal.disk).made ≡ (D.tally disk).made + 2)) }
        ensures back { IfErr result (λ back. IsUpTo 2 1 (D.tally disk) (D.tally back) × (D.safe back ≡ D.safe disk)) }
    {
        let mut disk = disk;
        match close_first_gate(&mut disk) {
            Ok(()) => Ok(Journal {
                disk,
                progress: Progress {
                    end: 0,
                    acknowledged: 0,
                },
                stopped: false,
            }),
            Err(Failed) => Err(disk),
        }
    }

    /// Returns memory for a record whose body has `len` bytes, for `append` to use. It makes no call of the disk.
    ///
    /// # Errors
    /// `AllocError`: out of memory.
    pub fn reserve(&self, alloc: Global, len: usize) -> Result<Memory, AllocError>
        ensures { IfOk result (λ memory. Covers (D.spare_with self.now.disk memory) 4 (len + 1) (self.now.progress.end + 1 + len)) }
    {
        let mark = self.progress.end;
        let end = (mark + 1).checked_add(len as u64).ok_or(AllocError)?;
        let bytes = len.checked_add(1).ok_or(AllocError)?;
        self.disk.reserve(alloc, 4, end, bytes)
    }

    /// Appends the record with this body, in memory that `reserve` returned for it. After `Ok` it is acknowledged: every crash
    /// from then on leaves it. It makes four calls of the disk, none of which runs out of memory.
    ///
    /// # Errors
    /// `Failed` if a call of the disk fails. The journal is then stopped and acknowledges no more records. The disk may have this
    /// record or not.
    pub fn append(&mut self, memory: Memory, body: &[u8]) -> Result<(), Failed>
        requires running { self.old.stopped ≡ false }
        requires some { 0 < length body.now }
        requires room { self.old.progress.end + 1 + length body.now ≤ room_of (D.capacity self.old.disk) }

        // Between two calls a crash leaves the first records, at least the acknowledged ones.
        ensures kept { (asked : List Record) (r : Record) → IsBody r body.now → Keeps D.seen D.may_leave asked self.old → Keeps D.seen D.may_leave (asked ++ r ∷ []) self.new }

        // So does a crash at any moment of the call.
        ensures any_moment { (asked : List Record) (r : Record) → IsBody r body.now → Keeps D.seen D.may_leave asked self.old
            → LeavesOnly D.moment D.left_since self.old.disk self.new.disk (StandsFor default_capacity self.old.progress.acknowledged (asked ++ r ∷ [])) }

        ensures acknowledged { OnOk result ((self.new.stopped ≡ false) × (self.new.progress.acknowledged ≡ self.old.progress.acknowledged + 1)) }
        ensures end { OnOk result (self.new.progress.end ≡ self.old.progress.end + length body.now) }
        ensures not_acknowledged { OnErr result ((self.new.stopped ≡ true) × (self.new.progress.acknowledged ≡ self.old.progress.acknowledged)) }
        // After an error, what was safe at the last good sync has only the acknowledged records.
        ensures not_added { (asked : List Record) (r : Record) → IsBody r body.now → Keeps D.seen D.may_leave asked self.old
            → OnErr result (recovered default_capacity (D.safe self.new.disk) ≡ Whole asked) }

        ensures cause { HasCause (D.faults self.old.disk) (D.faults self.new.disk) result }
        ensures capacity { D.capacity self.new.disk ≡ D.capacity self.old.disk }

        // In memory that was reserved for it, no call of the disk is refused memory.
        ensures memory { Covers (D.spare_with self.old.disk memory) 4 (length body.now + 1) (self.old.progress.end + 1 + length body.now) → D.refusals self.new.disk ≡ D.refusals self.old.disk }

        // It makes four calls, up to the first that fails, and writes one byte more than the body has.
        ensures calls { AreCalls (D.tally self.old.disk).promise.writes 4 (length body.now + 1) (D.tally self.old.disk) (D.tally self.new.disk) result }
    {
        self.disk.adopt(memory);
        let added = write_record(&mut self.disk, self.progress.end, body);
        match added {
            Ok(()) => {
                self.progress = Progress {
                    end: self.progress.end + body.len() as u64,
                    acknowledged: self.progress.acknowledged + 1,
                };
            }
            Err(Failed) => self.stopped = true,
        }
        added
    }

    /// Returns how many records are acknowledged. Each crash leaves at least these.
    pub fn acknowledged(&self) -> u32
        ensures { result ≡ self.now.progress.acknowledged }
    {
        self.progress.acknowledged
    }

    /// Returns whether the disk has failed while a record was appended. Then no more records may be appended.
    pub fn is_stopped(&self) -> bool
        ensures { result ≡ self.now.stopped }
    {
        self.stopped
    }

    /// Returns how many bytes are left for records, from the closed gate byte on.
    pub fn left(&self) -> u64
        ensures { result ≡ room_of (D.capacity self.now.disk) - self.now.progress.end }
    {
        self.disk
            .capacity()
            .min(DEFAULT_CAPACITY)
            .saturating_sub(self.progress.end)
    }

    /// Returns the disk, unchanged.
    pub fn into_disk(self) -> D
        ensures { result ≡ self.disk }
    {
        self.disk
    }
}

// Writes the first gate byte, closed, and makes it safe, whatever follows it.
fn close_first_gate<D: Disk>(disk: &mut D) -> Result<(), Failed>
    ensures empty { OnOk result (IsAtRest default_capacity [] 0 (D.seen disk.new) × Only (D.seen disk.new) (D.may_leave disk.new)) }
    ensures cause { HasCause (D.faults disk.old) (D.faults disk.new) result }
    ensures capacity { D.capacity disk.new ≡ D.capacity disk.old }
    ensures calls { AreCalls (D.tally disk.old).promise.writes 2 1 (D.tally disk.old) (D.tally disk.new) result }
    ensures not_safe { OnErr result (D.safe disk.new ≡ D.safe disk.old) }
{
    disk.write_at(0, &[0])?;
    disk.sync()?;
    Ok(())
}
