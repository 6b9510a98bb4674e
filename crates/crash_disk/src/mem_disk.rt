//! A disk in memory meets what is asked of a disk.

ghost use Rattle.std.specs.Prelude.{◌≡◌, ◌+◌, ◌-◌, ◌<◌, ◌≤◌, ◌^◌, ◌++◌, ◌∷◌, [], length, vec_capacity, OnOk, OnErr, IsOk};
ghost use Rattle.crash_disk.specs.declared.room.Room.TheVariants.{Reserved};
ghost use Rattle.crash_disk.specs.Sizes.{reserved_calls, reserved_bytes};
ghost use Rattle.crash_disk.specs.Log.{Wrote, byte_count, written};

use crate::image::{copy_from, put, reserve};
use crate::spare::{more_than, widen};
use crate::{Disk, Log, MemDisk, Memory};
use std::alloc::{AllocError, Global};
use teb_io::Failed;

impl Disk for MemDisk {
    ghost use Rattle.std.specs.Prelude.{length};
    ghost use Rattle.crash_disk.specs.Log.{contents, safe_contents, MayLeave, LeftSince, byte_count};
    ghost use Rattle.teb_io.specs.Faults.{next};
    ghost use Rattle.crash_disk.specs.Calls.{memory_tally, IsFrom};
    ghost use Rattle.crash_disk.specs.Spares.{spare_of, spare_with as mem_spare_with};
    ghost use Rattle.crash_disk.specs.LogLaws.{safe_is_left as log_safe_is_left, read_is_left as log_read_is_left, counts_now as log_counts_now, only_now as log_only_now};

    ghost seen = { λ m. contents m.log.steps };

    ghost may_leave = { λ m c. MayLeave m.log.steps c };

    ghost moment = { λ m. length m.log.steps };

    ghost left_since = { λ m t c. LeftSince m.log.steps t c };

    ghost safe = { λ m. safe_contents m.log.steps };

    ghost faults = { λ m. m.counter.faults };

    ghost tally = { λ m. memory_tally m.counter.made (byte_count m.log.steps) m.counter.stop m.log.room };

    ghost capacity = { λ m. m.capacity };

    ghost broken = { λ m. IsFrom m.counter.stop (next m.counter.made) };

    ghost refusals = { λ m. m.counter.refusals };

    ghost tells_failures = { λ m. Unit {0} };

    ghost spare = { λ m. spare_of m };

    ghost spare_with = { λ m more. mem_spare_with m more };

    ghost read_is_left = { λ m. log_read_is_left m.log.steps };

    ghost safe_is_left = { λ m. log_safe_is_left m.log.steps };

    ghost counts_now = { λ m t c le left. log_counts_now m.log.steps t c le left };

    ghost only_now = { λ m c left. log_only_now m.log.steps c left };

    ghost some = { λ m. m.some };

    ghost small = { λ m. m.small };

    fn capacity(&self) -> u64 {
        self.capacity
    }

    fn reserve(
        &self,
        alloc: Global,
        calls: usize,
        end: u64,
        bytes: usize,
    ) -> Result<Memory, AllocError> {
        let (calls, bytes) = self.log.reserve(alloc, calls, bytes)?;
        let image = more_than(alloc, self.image.capacity(), end as usize)?;
        Ok(Memory {
            image,
            calls,
            bytes,
        })
    }

    fn adopt(&mut self, memory: Memory) {
        let Memory {
            image,
            calls,
            bytes,
        } = memory;
        widen(&mut self.image, image);
        self.log.adopt(calls, bytes);
    }

    #[tactic(auto, unfolding(crate::specs::Calls::IsCounted))]
    fn len(&mut self) -> Result<u64, Failed> {
        self.counter.call()?;
        Ok(self.image.len() as u64)
    }

    #[tactic(auto, unfolding(crate::specs::Calls::IsCounted))]
    fn read_at(&mut self, at: u64, buf: &mut [u8]) -> Result<usize, Failed> {
        self.counter.call()?;
        if at >= self.image.len() as u64 {
            return Ok(0);
        }
        Ok(copy_from(&self.image, at as usize, buf))
    }

    #[tactic(auto, unfolding(crate::specs::Calls::IsCounted))]
    fn write_at(&mut self, at: u64, bytes: &[u8]) -> Result<(), Failed> {
        self.counter.call()?;
        match write(&mut self.image, &mut self.log, at, bytes) {
            Ok(()) => Ok(()),
            Err(_) => {
                self.counter.refuse();
                Err(Failed)
            }
        }
    }

    #[tactic(auto, unfolding(crate::specs::Calls::IsCounted))]
    fn sync(&mut self) -> Result<(), Failed> {
        self.counter.call()?;
        match self.log.sync() {
            Ok(()) => Ok(()),
            Err(_) => {
                self.counter.refuse();
                Err(Failed)
            }
        }
    }
}

// Writes bytes into an image, and adds the write to its log. At an error, both are unchanged.
fn write(image: &mut Vec<u8>, log: &mut Log, at: u64, bytes: &[u8]) -> Result<(), AllocError>
    requires { at + length bytes.now < 2 ^ 40 }
    ensures image { OnOk result (image.new.items ≡ written at bytes.now image.old.items) }
    ensures log { OnOk result (log.new ≡ record log.old { steps = log.old.steps ++ Wrote at bytes.now ∷ [] }) }
    ensures within { OnOk result (log.old.room ≡ Reserved → length log.old.steps < reserved_calls) }
    ensures within_bytes { OnOk result (log.old.room ≡ Reserved → byte_count log.old.steps + length bytes.now ≤ reserved_bytes) }
    ensures same { OnErr result ((image.new.items ≡ image.old.items) × (log.new ≡ log.old)) }
    ensures capacity { vec_capacity image.old ≤ vec_capacity image.new }
    ensures sure { log.old.room ≡ Reserved → at + length bytes.now ≤ vec_capacity image.old → length log.old.steps < reserved_calls
        → byte_count log.old.steps + length bytes.now ≤ reserved_bytes → IsOk result }
    ensures covered { at + length bytes.now ≤ vec_capacity image.old → length log.old.steps < log.old.sure_calls
        → length bytes.now ≤ log.old.sure_bytes - byte_count log.old.steps → IsOk result }
{
    reserve(image, at as usize + bytes.len())?;
    log.write(at, bytes)?;
    let Ok(()) = put(image, at as usize, bytes) else {
        unreachable!();
    };
    Ok(())
}
