//! A file as a disk.

use crate::faults::Faults;
use crate::reads::gives;
use crash_disk::{Disk, MemDisk, Memory};
use std::alloc::{AllocError, Global};
use std::fs::File;
use std::os::unix::fs::FileExt;
use teb_io::Failed;

/// A disk that is a file. A disk in memory mirrors it: the file is to have the bytes of the mirror, and the images that a crash
/// may leave are those of the mirror.
///
/// A read returns what the mirror has, after it has read the same from the file; if the file differs, the read fails. `sync` is
/// `sync_data` of the file. From its first failure on the disk fails at each call and leaves the file alone, so that no sync
/// makes safe what a failed write or sync has left.
///
/// The mirror keeps the writes and syncs since the opening, or since the last `renew`. Its memory grows with them and with the
/// bytes of the file. `reserve` takes that memory ahead: a write or a sync that it covers never runs out of memory; others may.
///
/// The operating system has to ensure that after a crash the file has one of the images that the contract of the disk allows. For
/// this it keeps what `sync_data` made safe, and nothing else writes the file while the disk is open.
#[derive(Drop)]
pub struct FileDisk {
    pub(crate) file: File,
    pub(crate) mirror: MemDisk,
    pub(crate) faults: Faults,
}

impl Disk for FileDisk {
    ghost use Rattle.std.specs.Prelude.{length, ◌<◌};
    ghost use Rattle.crash_disk.specs.Spares.{spare_of, spare_with as mirror_with};
    ghost use Rattle.crash_disk.specs.Log.{contents, safe_contents, MayLeave, LeftSince, byte_count};
    ghost use Rattle.crash_disk.specs.LogLaws.{safe_is_left as log_safe_is_left, read_is_left as log_read_is_left, counts_now as log_counts_now, only_now as log_only_now};
    ghost use Rattle.file_disk.specs.Unsure.{unsure};

    ghost seen = { λ d. contents d.mirror.log.steps };

    ghost may_leave = { λ d c. MayLeave d.mirror.log.steps c };

    ghost moment = { λ d. length d.mirror.log.steps };

    ghost left_since = { λ d t c. LeftSince d.mirror.log.steps t c };

    ghost safe = { λ d. safe_contents d.mirror.log.steps };

    ghost faults = { λ d. d.faults.count };

    ghost tally = { λ d. unsure d.mirror.counter.made (byte_count d.mirror.log.steps) };

    ghost capacity = { λ d. d.mirror.capacity };

    ghost broken = { λ d. 0 < d.faults.count };

    ghost refusals = { λ d. d.mirror.counter.refusals };

    ghost tells_failures = { λ d. ⊥ };

    ghost spare = { λ d. spare_of d.mirror };

    ghost spare_with = { λ d more. mirror_with d.mirror more };

    ghost read_is_left = { λ d. log_read_is_left d.mirror.log.steps };

    ghost safe_is_left = { λ d. log_safe_is_left d.mirror.log.steps };

    ghost counts_now = { λ d t c le left. log_counts_now d.mirror.log.steps t c le left };

    ghost only_now = { λ d c left. log_only_now d.mirror.log.steps c left };

    ghost some = { λ d. d.mirror.some };

    ghost small = { λ d. d.mirror.small };

    fn capacity(&self) -> u64 {
        self.mirror.capacity()
    }

    fn reserve(
        &self,
        alloc: Global,
        calls: usize,
        end: u64,
        bytes: usize,
    ) -> Result<Memory, AllocError> {
        self.mirror.reserve(alloc, calls, end, bytes)
    }

    fn adopt(&mut self, memory: Memory) {
        self.mirror.adopt(memory);
    }

    #[tactic(auto, unfolding(crash_disk::specs::Calls::IsCounted))]
    fn len(&mut self) -> Result<u64, Failed> {
        if self.faults.any() {
            return Err(self.faults.add());
        }
        let Ok(len) = self.mirror.len() else {
            return Err(self.faults.add());
        };
        match self.file.metadata() {
            Ok(found) if found.len() == len => Ok(len),
            _ => Err(self.faults.add()),
        }
    }

    #[tactic(auto, unfolding(crash_disk::specs::Calls::IsCounted))]
    fn read_at(&mut self, at: u64, buf: &mut [u8]) -> Result<usize, Failed> {
        if self.faults.any() {
            return Err(self.faults.add());
        }
        match self.mirror.read_at(at, buf) {
            Ok(n) if gives(&self.file, at, buf.len(), &buf[..n]) => Ok(n),
            _ => Err(self.faults.add()),
        }
    }

    #[tactic(auto, unfolding(crash_disk::specs::Calls::IsCounted))]
    fn write_at(&mut self, at: u64, bytes: &[u8]) -> Result<(), Failed> {
        if self.faults.any() {
            return Err(self.faults.add());
        }
        let Ok(()) = self.mirror.write_at(at, bytes) else {
            return Err(self.faults.add());
        };
        match self.file.write_all_at(bytes, at) {
            Ok(()) => Ok(()),
            Err(_) => Err(self.faults.add()),
        }
    }

    #[tactic(auto, unfolding(crash_disk::specs::Calls::IsCounted))]
    fn sync(&mut self) -> Result<(), Failed> {
        if self.faults.any() {
            return Err(self.faults.add());
        }
        if self.file.sync_data().is_err() {
            return Err(self.faults.add());
        }
        match self.mirror.sync() {
            Ok(()) => Ok(()),
            Err(_) => Err(self.faults.add()),
        }
    }
}
