//! Why a run ends before its last request.

ghost use Rattle.std.specs.Prelude.{◌≡◌};
ghost use Rattle.crash_runner.specs.declared.error.RunError.TheVariants.{OutOfMemory};

use std::alloc::{AllocError, AllocFailed};

/// Why a run ends before its last request.
#[derive(Clone, Copy, Debug, PartialEq, Eq)]
pub(crate) enum RunError {
    /// The disk has failed at a commit.
    DiskFault,
    OutOfMemory,
}

impl From<AllocError> for RunError {
    ghost from_gives = { λ _ error. error ≡ OutOfMemory };

    fn from(_: AllocError) -> Self {
        RunError::OutOfMemory
    }
}

impl<T: Drop> From<AllocFailed<T>> for RunError {
    ghost from_gives = { λ _ error. error ≡ OutOfMemory };

    fn from(_: AllocFailed<T>) -> Self {
        RunError::OutOfMemory
    }
}
