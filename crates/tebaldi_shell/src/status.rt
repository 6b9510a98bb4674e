//! The exit codes of the program.

ghost use Rattle.std.specs.Prelude.{◌≡◌};
ghost use Rattle.tebaldi_shell.specs.Status.{code_of};

use shell_runner::{EndStatus, RunError};

/// All lines were answered, and none was bad.
const OK: u8 = 0;

/// The words are none of the program.
pub const BAD_WORDS: u8 = 2;

/// A read failed.
pub const READ_FAULT: u8 = 3;

/// A write failed.
const WRITE_FAULT: u8 = 4;

/// A line is too long.
const TOO_LONG: u8 = 5;

/// The tree text is refused.
pub const BAD_TREE: u8 = 6;

/// Some line was bad, and all others were answered.
const BAD_LINE: u8 = 7;

/// Out of memory.
pub const OUT_OF_MEMORY: u8 = 8;

/// The file is in use, has other tables or another capacity, or can't be opened.
pub const CANNOT_OPEN: u8 = 13;

/// The file is damaged.
pub const DAMAGED: u8 = 14;

/// The disk failed.
pub const DISK_FAULT: u8 = 15;

/// Returns the exit code of a run.
pub fn code_of(status: EndStatus) -> u8
    ensures { result ≡ code_of status }
{
    match status {
        EndStatus::Done { any_bad: false } => OK,
        EndStatus::Done { any_bad: true } => BAD_LINE,
        EndStatus::Failed(RunError::ReadFault) => READ_FAULT,
        EndStatus::Failed(RunError::WriteFault) => WRITE_FAULT,
        EndStatus::Failed(RunError::TooLong) => TOO_LONG,
        EndStatus::Failed(RunError::OutOfMemory) => OUT_OF_MEMORY,
        EndStatus::Failed(RunError::DiskFault) => DISK_FAULT,
    }
}
