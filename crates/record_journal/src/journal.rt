//! A journal: records on a disk, each acknowledged once it is safe.

ghost use Rattle.std.specs.Prelude.{◌<◌, ◌≤◌};
ghost use Rattle.crash_disk.specs.Sizes.{default_capacity};

use crash_disk::Disk;

/// Records on a disk, one after the other, and a closed gate byte after the last. Each is acknowledged once it is safe. The
/// journal is stopped from the first call of the disk that fails while a record is appended.
#[derive(Drop)]
pub struct Journal<D: Disk> {
    pub(crate) disk: D,
    pub(crate) progress: Progress,
    pub(crate) stopped: bool,
}

/// The progress of a journal.
#[derive(Clone, Copy, Debug, PartialEq, Eq)]
pub struct Progress {
    /// The place of the closed gate byte.
    pub end: u64,
    /// How many records are acknowledged.
    pub acknowledged: u32,
    ghost within: { end < default_capacity },
    ghost small: { acknowledged ≤ end },
}
