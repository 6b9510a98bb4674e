//! What is wrong with a printed run.

ghost use Rattle.std.specs.Prelude.{◌≡◌, ◌+◌, ◌<◌, ◌^◌};
ghost use Rattle.audit_check.specs.declared.error.AuditError.TheVariants.{No};

use std::alloc::{AllocError, AllocFailed};
use thiserror::Error;

/// What the first wrong line breaks.
#[derive(Clone, Copy, Debug, PartialEq, Eq)]
pub enum AuditWhy {
    /// It is no line of a printed run, is out of order, or repeats a cell.
    Form,
    /// Its transaction cannot do this now.
    Txn,
    /// The order does not list each committed transaction once and no other.
    Order,
    /// It commits a transaction before one that it read from.
    After,
    /// It reads another value than the order gives.
    Read,
    /// It is not in the last table, or a row of the last table is missing.
    Row,
}

/// Why a printed run is not audited.
#[derive(Debug, Drop, Error)]
pub enum AuditError {
    #[error("line {line} is wrong: {why:?}")]
    No { line: u32, why: AuditWhy },
    #[error("out of memory")]
    OutOfMemory,
}

impl From<AllocError> for AuditError {
    ghost use Rattle.audit_check.specs.declared.error.AuditError.TheVariants.{OutOfMemory};

    ghost from_gives = { λ _ e. e ≡ OutOfMemory };

    fn from(_error: AllocError) -> AuditError {
        AuditError::OutOfMemory
    }
}

impl<T: Drop> From<AllocFailed<T>> for AuditError {
    ghost use Rattle.audit_check.specs.declared.error.AuditError.TheVariants.{OutOfMemory};

    ghost from_gives = { λ _ e. e ≡ OutOfMemory };

    fn from(_error: AllocFailed<T>) -> AuditError {
        AuditError::OutOfMemory
    }
}

/// Returns the fault of the line that follows `before` lines.
pub fn no(before: usize, why: AuditWhy) -> AuditError
    requires { before + 1 < 2 ^ 32 }
    ensures { result ≡ No (before + 1) why }
{
    AuditError::No {
        line: before as u32 + 1,
        why,
    }
}
