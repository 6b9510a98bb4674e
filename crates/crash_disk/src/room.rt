//! How much a log may hold.

ghost use Rattle.std.specs.Prelude.{◌↔◌, IsTrue};
ghost use Rattle.crash_disk.specs.Sizes.{MayHold};

/// How many writes and syncs a log with reserved memory may hold: two at the start, four for each of 65,536 lines, and one for the
/// sync that a recovery begins with.
pub const RESERVED_CALLS: usize = 262_147;

/// How many bytes the writes in a log with reserved memory may have, all of them together.
pub const RESERVED_BYTES: usize = 2_097_152;

/// How much a log may hold.
#[derive(Clone, Copy, Debug, PartialEq, Eq)]
pub enum Room {
    /// `RESERVED_CALLS` writes and syncs and `RESERVED_BYTES` bytes. Memory for them is reserved.
    Reserved,
    /// As much as memory lasts for. Nothing is reserved.
    Growing,
}

impl Room {
    /// Returns true if a log may hold `calls` writes and syncs, and `bytes` bytes.
    pub fn holds(self, calls: usize, bytes: usize) -> bool
        ensures { IsTrue result ↔ MayHold self calls bytes }
    {
        match self {
            Room::Reserved => calls <= RESERVED_CALLS && bytes <= RESERVED_BYTES,
            Room::Growing => true,
        }
    }
}
