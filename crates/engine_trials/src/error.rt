//! Why a trial failed.

use std::alloc::AllocError;

/// Why a trial failed.
#[derive(Drop)]
pub enum TrialError {
    /// Out of memory.
    Memory,
    /// Something has changed that a refusal must leave.
    Changed,
}

impl From<AllocError> for TrialError {
    fn from(_error: AllocError) -> TrialError {
        TrialError::Memory
    }
}
