//! How a disk in memory is made.

ghost use Rattle.std.specs.Prelude.{◌≡◌, ◌<◌, ◌≤◌, ◌^◌, [], length, IfOk};
ghost use Rattle.crash_disk.specs.declared.room.Room.TheVariants.{Reserved, Growing};
ghost use Rattle.crash_disk.specs.Sizes.{default_capacity};
ghost use Rattle.crash_disk.specs.Disk.{Only};
ghost use Rattle.crash_disk.specs.Log.{contents, MayLeave};
ghost use Rattle.crash_disk.specs.Left.{IsLeft};

use crate::{Counter, DEFAULT_CAPACITY, Log, MemDisk};
use std::alloc::{AllocError, Global};

impl MemDisk {
    /// Returns an empty disk of `DEFAULT_CAPACITY` bytes, with memory reserved for them, for `RESERVED_CALLS` writes and syncs, and for
    /// `RESERVED_BYTES` bytes in all writes. A write or a sync past these is a fault. The disk fails at the call `stop` and at all
    /// later ones; 0 names no call.
    ///
    /// # Errors
    /// `AllocError`: out of memory.
    pub fn new(alloc: Global, stop: u32) -> Result<MemDisk, AllocError>
        ensures empty { IfOk result (λ disk. disk.log.steps ≡ []) }
        ensures room { IfOk result (λ disk. disk.log.room ≡ Reserved) }
        ensures capacity { IfOk result (λ disk. disk.capacity ≡ default_capacity) }
        ensures made { IfOk result (λ disk. disk.counter.made ≡ 0) }
        ensures stop { IfOk result (λ disk. disk.counter.stop ≡ stop) }
        ensures faults { IfOk result (λ disk. disk.counter.faults ≡ 0) }
        ensures refusals { IfOk result (λ disk. disk.counter.refusals ≡ 0) }
    {
        Ok(MemDisk {
            image: Vec::with_capacity(alloc, DEFAULT_CAPACITY as usize)?,
            capacity: DEFAULT_CAPACITY,
            log: Log::reserved(alloc)?,
            counter: Counter::from_stop(stop),
        })
    }

    /// Returns an empty disk of `capacity` bytes. Its memory grows with what is written; a write or a sync for which memory does not last is a
    /// fault. The disk fails at the call `stop` and at all later ones; 0 names no call.
    pub fn with_capacity(alloc: Global, capacity: u64, stop: u32) -> MemDisk
        requires some { 0 < capacity }
        requires small { capacity < 2 ^ 40 }
        ensures empty { result.log.steps ≡ [] }
        ensures room { result.log.room ≡ Growing }
        ensures capacity { result.capacity ≡ capacity }
        ensures made { result.counter.made ≡ 0 }
        ensures stop { result.counter.stop ≡ stop }
        ensures faults { result.counter.faults ≡ 0 }
        ensures refusals { result.counter.refusals ≡ 0 }
    {
        MemDisk {
            image: Vec::new(alloc),
            capacity,
            log: Log::growing(alloc),
            counter: Counter::from_stop(stop),
        }
    }

    /// Returns a disk of `capacity` bytes that has these bytes, all of them safe. It has no stop, and its memory grows with what is written.
    ///
    /// # Errors
    /// `AllocError`: out of memory.
    pub fn of(alloc: Global, bytes: Vec<u8>, capacity: u64) -> Result<MemDisk, AllocError>
        requires within { length bytes.items ≤ capacity }
        requires some { 0 < capacity }
        requires small { capacity < 2 ^ 40 }
        ensures seen { IfOk result (λ disk. contents disk.log.steps ≡ bytes.items) }
        ensures safe { IfOk result (λ disk. Only bytes.items (MayLeave disk.log.steps)) }
        ensures room { IfOk result (λ disk. disk.log.room ≡ Growing) }
        ensures capacity { IfOk result (λ disk. disk.capacity ≡ capacity) }
        ensures made { IfOk result (λ disk. disk.counter.made ≡ 0) }
        ensures stop { IfOk result (λ disk. disk.counter.stop ≡ 0) }
        ensures faults { IfOk result (λ disk. disk.counter.faults ≡ 0) }
        ensures refusals { IfOk result (λ disk. disk.counter.refusals ≡ 0) }
    {
        let log = Log::of(alloc, &bytes)?;
        Ok(MemDisk {
            image: bytes,
            capacity,
            log,
            counter: Counter::from_stop(0),
        })
    }

    /// Returns its bytes.
    pub fn bytes(&self) -> &[u8]
        ensures bytes { result.now ≡ contents self.now.log.steps }
        ensures within { length result.now ≤ self.now.capacity }
    {
        &self.image
    }

    /// Returns the disk with all writes since the last good sync dropped. It has no stop, and as many calls and faults as before. It costs
    /// the bytes of all writes that are left.
    pub fn left(self) -> MemDisk
        ensures { IsLeft self result }
    {
        let MemDisk {
            mut image,
            capacity,
            mut log,
            counter,
        } = self;
        log.drop_unsynced();
        image.clear();
        log.replay(&mut image);
        MemDisk {
            image,
            capacity,
            log,
            counter: Counter { stop: 0, ..counter },
        }
    }
}
