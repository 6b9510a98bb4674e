//! How commits that were taken are written to a journal.

ghost use Rattle.std.specs.Prelude.{◌≡◌, ◌+◌, ◌<◌, ◌^◌, ◌++◌, [], length, Ok, true, false, IfErr, OnOk, IsErrOf, List, ℕ};
ghost use Rattle.teb_io.specs.Faults.{Rose};
ghost use Rattle.teb_rules.specs.Replay.{Values};
ghost use Rattle.crash_disk.specs.Calls.{IsUpTo};
ghost use Rattle.crash_disk.specs.Disk.{LeavesOnly};
ghost use Rattle.record_journal.specs.Format.{Record};
ghost use Rattle.epoch_journal.specs.Group.{group_size};
ghost use Rattle.epoch_journal.specs.Layout.{half_size};
ghost use Rattle.epoch_journal.specs.Telling.{TellsOn};
ghost use Rattle.epoch_journal.specs.Kept.{Keeps};
ghost use Rattle.epoch_store.specs.declared.error.WriteError.TheVariants as errors;

use crate::error::WriteError;
use crash_disk::Disk;
use epoch_journal::{EpochJournal, Group};
use std::alloc::Global;
use teb_io::Failed;

/// Writes the records of a group to a journal, the oldest first. After `Ok` they are acknowledged: from then on each crash leaves them. It
/// makes four calls of the disk, two of them syncs, however many records there are, and none if there is none. None of the calls is
/// refused memory.
///
/// # Errors
/// `Full` if the half has no room for the records, and `OutOfMemory`: no call of the disk was made, and the journal is unchanged.
/// `DiskFault` if a call of the disk fails: the journal is stopped, and all records of the group may be on the disk, or none.
pub fn write_group<D: Disk>(
    alloc: Global,
    journal: &mut EpochJournal<D>,
    group: &Group,
) -> Result<(), WriteError>
    requires running { journal.old.stopped ≡ false }

    // A crash leaves the rows after the first of all records, and after `Ok` of all of them.
    ensures kept { (start : Values) (all : List Record) (least : ℕ) → Keeps D.seen D.may_leave start all least journal.old
        → OnOk result (Keeps D.seen D.may_leave start (all ++ group.now.records) (least + length group.now.records) journal.new) }
    ensures not_kept { (start : Values) (all : List Record) (least : ℕ) → Keeps D.seen D.may_leave start all least journal.old
        → IsErrOf result errors.DiskFault → Keeps D.seen D.may_leave start (all ++ group.now.records) least journal.new }

    // So does a crash at any moment of the call.
    ensures any_moment { (start : Values) (all : List Record) (least : ℕ) → Keeps D.seen D.may_leave start all least journal.old
        → LeavesOnly D.moment D.left_since journal.old.disk journal.new.disk (TellsOn journal.old.layout start (all ++ group.now.records) least) }

    ensures layout { journal.new.layout ≡ journal.old.layout }
    ensures acknowledged { OnOk result ((journal.new.stopped ≡ false) × (journal.new.acknowledged ≡ journal.old.acknowledged + length group.now.records)) }
    ensures end { OnOk result (journal.new.end ≡ journal.old.end + group_size group.now) }
    ensures full { IsErrOf result errors.Full → half_size journal.old.layout.capacity < journal.old.end + 1 + group_size group.now }
    ensures fault { IsErrOf result errors.DiskFault → (journal.new.stopped ≡ true) × (journal.new.acknowledged ≡ journal.old.acknowledged)
        × Rose (D.faults journal.old.disk) (D.faults journal.new.disk) }
    ensures unchanged { IfErr result (λ e. (e ≡ errors.DiskFault → ⊥) → journal.new ≡ journal.old) }

    ensures untouched { group.now.records ≡ [] → (journal.new ≡ journal.old) × (result ≡ Ok tt) }
    ensures memory { D.refusals journal.new.disk ≡ D.refusals journal.old.disk }
    ensures calls { IsUpTo 4 (group_size group.now + 1) (D.tally journal.old.disk) (D.tally journal.new.disk) }
    ensures four_calls { OnOk result (0 < length group.now.records → (D.tally journal.old.disk).made + 4 < 2 ^ 64
        → (D.tally journal.new.disk).made ≡ (D.tally journal.old.disk).made + 4) }
{
    if group.is_empty() {
        return Ok(());
    }
    if journal.left() <= group.size() as u64 {
        return Err(WriteError::Full);
    }
    let Ok(memory) = journal.reserve(alloc, group.size()) else {
        return Err(WriteError::OutOfMemory);
    };
    match journal.append_group(memory, group) {
        Ok(()) => Ok(()),
        Err(Failed) => Err(WriteError::DiskFault),
    }
}
