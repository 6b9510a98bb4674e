//! How a journal in epochs grows.

ghost use Rattle.std.specs.Prelude.{◌≡◌, ◌+◌, ◌<◌, ◌≤◌, ◌^◌, ◌++◌, ◌∷◌, [], List, ℕ, length, true, false, IfOk, OnOk, OnErr, IsOk};
ghost use Rattle.teb_io.specs.Faults.{HasCause};
ghost use Rattle.teb_rules.specs.Replay.{Values};
ghost use Rattle.crash_disk.specs.Calls.{AreCalls};
ghost use Rattle.crash_disk.specs.Disk.{LeavesOnly};
ghost use Rattle.record_journal.specs.Format.{Record};
ghost use Rattle.record_journal.specs.Journal.{IsBody};
ghost use Rattle.epoch_journal.specs.Bodies.{AreBodies};
ghost use Rattle.epoch_journal.specs.Group.{group_size};
ghost use Rattle.epoch_journal.specs.Layout.{half_size};
ghost use Rattle.epoch_journal.specs.Telling.{TellsOn};
ghost use Rattle.epoch_journal.specs.Kept.{Keeps};
ghost use Rattle.epoch_journal.specs.Memory.{IsForRecord};
ghost use Rattle.epoch_journal.specs.Refusals.{IsReliable};

use crate::group::Group;
use crate::journal::{EpochJournal, Place};
use crate::layout::{base, half_bytes};
use crate::steps::add_records;
use crash_disk::{Disk, Memory};
use std::alloc::{AllocError, Global};
use teb_io::Failed;

impl<D: Disk> EpochJournal<D> {
    /// Returns memory for a record whose body has `len` bytes, or a group of that size, which `append` and `append_group` take. It makes no
    /// call of the disk.
    ///
    /// # Errors
    /// `AllocError`: out of memory.
    pub fn reserve(&self, alloc: Global, len: usize) -> Result<Memory, AllocError>
        ensures { IfOk result (λ memory. IsForRecord D.spare_with len memory self.now) }
    {
        let Place { half, end, .. } = self.place;
        let mark = base(self.capacity, half) + end;
        let end = (mark + 1).checked_add(len as u64).ok_or(AllocError)?;
        let bytes = len.checked_add(1).ok_or(AllocError)?;
        self.disk.reserve(alloc, 4, end, bytes)
    }

    /// Adds the record that the body spells, in memory that `reserve` returned for it. After `Ok` it is acknowledged: from then on each
    /// crash leaves it. It makes four calls of the disk, none of which is refused memory.
    ///
    /// # Errors
    /// `Failed` if a call of the disk fails. The journal is then stopped, and this record may be on the disk or not.
    pub fn append(&mut self, memory: Memory, body: &[u8]) -> Result<(), Failed>
        requires running { self.old.stopped ≡ false }
        requires some { 0 < length body.now }
        requires room { self.old.end + 1 + length body.now ≤ half_size self.old.layout.capacity }

        // A crash leaves the table after the first of all records, and after `Ok` of all of them.
        ensures kept { (start : Values) (all : List Record) (least : ℕ) (r : Record) → IsBody r body.now → Keeps D.seen D.may_leave start all least self.old
            → OnOk result (Keeps D.seen D.may_leave start (all ++ r ∷ []) (least + 1) self.new) }
        ensures not_added { (start : Values) (all : List Record) (least : ℕ) (r : Record) → IsBody r body.now → Keeps D.seen D.may_leave start all least self.old
            → OnErr result (Keeps D.seen D.may_leave start (all ++ r ∷ []) least self.new) }

        // So does a crash at any moment of the call.
        ensures any_moment { (start : Values) (all : List Record) (least : ℕ) (r : Record) → IsBody r body.now → Keeps D.seen D.may_leave start all least self.old
            → LeavesOnly D.moment D.left_since self.old.disk self.new.disk (TellsOn self.old.layout start (all ++ r ∷ []) least) }

        ensures layout { self.new.layout ≡ self.old.layout }
        ensures half { self.new.half ≡ self.old.half }
        ensures acknowledged { OnOk result ((self.new.stopped ≡ false) × (self.new.acknowledged ≡ self.old.acknowledged + 1)) }
        ensures end { OnOk result (self.new.end ≡ self.old.end + length body.now) }
        ensures stopped { OnErr result ((self.new.stopped ≡ true) × (self.new.end ≡ self.old.end) × (self.new.acknowledged ≡ self.old.acknowledged)) }
        // In memory that was reserved for it, it is refused none. So a disk that fails only if it is refused memory does not fail.
        ensures memory { IsForRecord D.spare_with (length body.now) memory self.old → D.refusals self.new.disk ≡ D.refusals self.old.disk }
        ensures sure { IsReliable D.tells_failures D.tally D.refusals self.old.disk → IsForRecord D.spare_with (length body.now) memory self.old → IsOk result }
        ensures cause { HasCause (D.faults self.old.disk) (D.faults self.new.disk) result }
        ensures calls { AreCalls (D.tally self.old.disk).promise.writes 4 (length body.now + 1) (D.tally self.old.disk) (D.tally self.new.disk) result }
    {
        self.append_bodies(memory, body, 1)
    }

    /// Adds the records of a group, the first one first, in memory that `reserve` returned for their size. After `Ok` all of them are
    /// acknowledged: from then on each crash leaves them. It makes four calls of the disk, however many records there are, none of which
    /// is refused memory.
    ///
    /// # Errors
    /// `Failed` if a call of the disk fails. The journal is then stopped, and all records of the group may be on the disk, or none.
    pub fn append_group(&mut self, memory: Memory, group: &Group) -> Result<(), Failed>
        requires running { self.old.stopped ≡ false }
        requires some { 0 < length group.now.records }
        requires room { self.old.end + 1 + group_size group.now ≤ half_size self.old.layout.capacity }

        // A crash leaves the table after the first of all records, and after `Ok` of all of them.
        ensures kept { (start : Values) (all : List Record) (least : ℕ) → Keeps D.seen D.may_leave start all least self.old
            → OnOk result (Keeps D.seen D.may_leave start (all ++ group.now.records) (least + length group.now.records) self.new) }
        ensures not_added { (start : Values) (all : List Record) (least : ℕ) → Keeps D.seen D.may_leave start all least self.old
            → OnErr result (Keeps D.seen D.may_leave start (all ++ group.now.records) least self.new) }

        // So does a crash at any moment of the call.
        ensures any_moment { (start : Values) (all : List Record) (least : ℕ) → Keeps D.seen D.may_leave start all least self.old
            → LeavesOnly D.moment D.left_since self.old.disk self.new.disk (TellsOn self.old.layout start (all ++ group.now.records) least) }

        ensures layout { self.new.layout ≡ self.old.layout }
        ensures half { self.new.half ≡ self.old.half }
        ensures acknowledged { OnOk result ((self.new.stopped ≡ false) × (self.new.acknowledged ≡ self.old.acknowledged + length group.now.records)) }
        ensures end { OnOk result (self.new.end ≡ self.old.end + group_size group.now) }
        ensures stopped { OnErr result ((self.new.stopped ≡ true) × (self.new.end ≡ self.old.end) × (self.new.acknowledged ≡ self.old.acknowledged)) }
        // In memory that was reserved for it, it is refused none. So a disk that fails only if it is refused memory does not fail.
        ensures memory { IsForRecord D.spare_with (group_size group.now) memory self.old → D.refusals self.new.disk ≡ D.refusals self.old.disk }
        ensures sure { IsReliable D.tells_failures D.tally D.refusals self.old.disk → IsForRecord D.spare_with (group_size group.now) memory self.old → IsOk result }
        ensures cause { HasCause (D.faults self.old.disk) (D.faults self.new.disk) result }
        ensures calls { AreCalls (D.tally self.old.disk).promise.writes 4 (group_size group.now + 1) (D.tally self.old.disk) (D.tally self.new.disk) result }
    {
        self.append_bodies(memory, &group.bytes, group.len as u64)
    }

    /// Adds `count` records. The bytes are their bodies, each followed by its mark.
    ///
    /// # Errors
    /// `Failed` if a call of the disk fails. The journal is then stopped, and a crash may leave the records, or some of them.
    fn append_bodies(&mut self, memory: Memory, bodies: &[u8], count: u64) -> Result<(), Failed>
        requires running { self.old.stopped ≡ false }
        requires some { 0 < length bodies.now }
        requires counted { count ≤ length bodies.now }
        requires room { self.old.end + 1 + length bodies.now ≤ half_size self.old.layout.capacity }
        ensures kept { (start : Values) (all : List Record) (least : ℕ) (more : List Record) → AreBodies more bodies.now → Keeps D.seen D.may_leave start all least self.old
            → OnOk result (Keeps D.seen D.may_leave start (all ++ more) (least + length more) self.new) }
        ensures not_added { (start : Values) (all : List Record) (least : ℕ) (more : List Record) → AreBodies more bodies.now → Keeps D.seen D.may_leave start all least self.old
            → OnErr result (Keeps D.seen D.may_leave start (all ++ more) least self.new) }
        ensures any_moment { (start : Values) (all : List Record) (least : ℕ) (more : List Record) → AreBodies more bodies.now → Keeps D.seen D.may_leave start all least self.old
            → LeavesOnly D.moment D.left_since self.old.disk self.new.disk (TellsOn self.old.layout start (all ++ more) least) }
        ensures layout { self.new.layout ≡ self.old.layout }
        ensures half { self.new.half ≡ self.old.half }
        ensures acknowledged { OnOk result ((self.new.stopped ≡ false) × (self.new.acknowledged ≡ self.old.acknowledged + count)) }
        ensures end { OnOk result (self.new.end ≡ self.old.end + length bodies.now) }
        ensures stopped { OnErr result ((self.new.stopped ≡ true) × (self.new.end ≡ self.old.end) × (self.new.acknowledged ≡ self.old.acknowledged)) }
        ensures memory { IsForRecord D.spare_with (length bodies.now) memory self.old → D.refusals self.new.disk ≡ D.refusals self.old.disk }
        ensures sure { IsReliable D.tells_failures D.tally D.refusals self.old.disk → IsForRecord D.spare_with (length bodies.now) memory self.old → IsOk result }
        ensures cause { HasCause (D.faults self.old.disk) (D.faults self.new.disk) result }
        ensures calls { AreCalls (D.tally self.old.disk).promise.writes 4 (length bodies.now + 1) (D.tally self.old.disk) (D.tally self.new.disk) result }
    {
        let Place { half, end, .. } = self.place;
        self.disk.adopt(memory);
        let added = add_records(&mut self.disk, self.capacity, half, end, bodies);
        match added {
            Ok(()) => {
                self.place = Place {
                    half,
                    end: end + bodies.len() as u64,
                    acknowledged: self.place.acknowledged + count,
                };
            }
            Err(Failed) => self.stopped = true,
        }
        added
    }

    /// Returns the number of records of this epoch that are acknowledged.
    pub fn acknowledged(&self) -> u64
        ensures { result ≡ self.now.acknowledged }
    {
        self.place.acknowledged
    }

    /// Returns true if a call of the disk has failed. No record may be added then.
    pub fn is_stopped(&self) -> bool
        ensures { result ≡ self.now.stopped }
    {
        self.stopped
    }

    /// Stops the journal, as a call of its disk that fails does: no record may be added then. It makes no call of the disk.
    pub fn stop(&mut self)
        // Records that were to be added count among all records; a crash leaves none of them.
        ensures not_added { (start : Values) (all more : List Record) (least : ℕ) → Keeps D.seen D.may_leave start all least self.old
            → Keeps D.seen D.may_leave start (all ++ more) least self.new }
        ensures stopped { self.new.stopped ≡ true }
        ensures disk { self.new.disk ≡ self.old.disk }
        ensures layout { self.new.layout ≡ self.old.layout }
        ensures place { (self.new.half ≡ self.old.half) × (self.new.end ≡ self.old.end) }
        ensures acknowledged { self.new.acknowledged ≡ self.old.acknowledged }
    {
        self.stopped = true;
    }

    /// Returns the number of bytes that are left for records of this epoch, from the end mark on.
    pub fn left(&self) -> u64
        ensures left { result + self.now.end ≡ half_size self.now.layout.capacity }
        ensures some { 0 < result }
        ensures small { result < 2 ^ 32 }
    {
        half_bytes(self.capacity) - self.place.end
    }

    /// Returns the label, which says whose rows the journal has.
    pub fn label(&self) -> &[u8]
        ensures { result.now ≡ self.now.layout.label }
    {
        &self.label
    }

    /// Returns the disk.
    pub fn disk(&self) -> &D
        ensures { result.now ≡ self.now.disk }
    {
        &self.disk
    }

    /// Returns the disk, as it is.
    pub fn into_disk(self) -> D
        ensures disk { result ≡ self.disk }
        ensures capacity { D.capacity result ≡ self.layout.capacity }
    {
        self.disk
    }
}
