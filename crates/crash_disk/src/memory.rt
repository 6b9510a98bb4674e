//! A disk in memory. `Call` is in another file, since a spec that it names depends on this one.

ghost use Rattle.std.specs.Prelude.{◌≡◌, ◌≤◌, ◌<◌, ◌^◌, length, vec_capacity};
ghost use Rattle.crash_disk.specs.declared.room.Room.TheVariants.{Reserved};
ghost use Rattle.crash_disk.specs.Log.{contents};

use crate::{Counter, Log};

/// A disk in memory. It keeps a log of its writes, with their bytes, and of its syncs, from which its images are told. It fails
/// from the call on that it was told at its making, and at a write or a sync for which its log has no room or memory does not last.
#[derive(Drop)]
pub struct MemDisk {
    pub(crate) image: Vec<u8>,
    pub(crate) capacity: u64,
    pub(crate) log: Log,
    pub(crate) counter: Counter,
    ghost within: { length image.items ≤ capacity },
    ghost some: { 0 < capacity },
    ghost small: { capacity < 2 ^ 40 },
    ghost told: { contents log.steps ≡ image.items },
    ghost made: { log.room ≡ Reserved → length log.steps ≤ counter.made },
    ghost reserved: { log.room ≡ Reserved → capacity ≤ vec_capacity image },
}
