//! How a run ends.

use crate::Shell;

/// The shell at the end of a run, and how the run ended.
#[derive(Drop)]
pub struct Ended<T> {
    pub shell: Shell<T>,
    pub status: EndStatus,
}

/// How a run ends.
#[derive(Clone, Copy)]
pub enum EndStatus {
    /// All lines were answered. `any_bad` is true if one of them was bad.
    Done { any_bad: bool },
    /// The run ended early.
    Failed(RunError),
}

/// Why a run ends early.
#[derive(Clone, Copy)]
pub enum RunError {
    /// A read failed.
    ReadFault,
    /// A write failed.
    WriteFault,
    /// A line is too long.
    TooLong,
    /// Out of memory. What was answered is kept.
    OutOfMemory,
    /// The disk failed.
    DiskFault,
}
