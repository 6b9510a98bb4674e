//! What can go wrong with a store on a disk.

use std::alloc::AllocError;

/// Why no store was created on the disk.
#[derive(Debug, Drop)]
pub enum CreateError<D> {
    /// The disk failed. It is returned.
    DiskFault(D),
    /// Never returned: a store takes no memory in addition to that of its engine. It stays for callers that match each variant.
    OutOfMemory,
}

/// Why there is no record for a request.
#[derive(Clone, Copy, Debug, PartialEq, Eq)]
pub enum BodyError {
    /// Fewer bytes are left than the record may take.
    Full,
    OutOfMemory,
}

impl From<AllocError> for BodyError {
    ghost use Rattle.std.specs.Prelude.{◌≡◌};
    ghost use Rattle.commit_journal.specs.declared.error.BodyError.TheVariants.{OutOfMemory};

    ghost from_gives = { λ _ e. e ≡ OutOfMemory };

    fn from(_: AllocError) -> Self {
        BodyError::OutOfMemory
    }
}

/// Why a request was not answered.
#[derive(Clone, Copy, Debug, PartialEq, Eq)]
pub enum DurableError {
    /// The disk has failed at an earlier request.
    Stopped,
    /// The disk has no room for the commit. Nothing was asked, and nothing changed.
    Full,
    /// The disk failed at a commit, which it may keep or not.
    DiskFault,
    /// Out of memory. Nothing was asked, and nothing changed.
    OutOfMemory,
}

impl From<AllocError> for DurableError {
    ghost use Rattle.std.specs.Prelude.{◌≡◌};
    ghost use Rattle.commit_journal.specs.declared.error.DurableError.TheVariants.{OutOfMemory};

    ghost from_gives = { λ _ e. e ≡ OutOfMemory };

    fn from(_: AllocError) -> Self {
        DurableError::OutOfMemory
    }
}

impl From<BodyError> for DurableError {
    ghost use Rattle.std.specs.Prelude.{◌≡◌};
    ghost use Rattle.commit_journal.specs.Errors.{as_durable};

    ghost from_gives = { λ b e. e ≡ as_durable b };

    fn from(error: BodyError) -> Self {
        match error {
            BodyError::Full => DurableError::Full,
            BodyError::OutOfMemory => DurableError::OutOfMemory,
        }
    }
}
