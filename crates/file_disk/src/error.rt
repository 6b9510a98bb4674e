//! Why a file cannot be opened as a disk.

use std::alloc::AllocError;
use std::io;
use thiserror::Error;

/// Why a file cannot be opened as a disk.
#[derive(Debug, Drop, Error)]
pub enum OpenError {
    /// The path leads to no regular file: a device, a pipe or a socket.
    #[error("it is no regular file")]
    NotRegular,
    /// The file has more bytes than the disk can hold.
    #[error("the file has more than {capacity} bytes")]
    TooLong { capacity: u64 },
    /// The file is locked: it is already open as a disk.
    #[error("the file is in use")]
    Busy,
    /// The file cannot be opened, locked, read or synced.
    #[error("the file can't be used: {0}")]
    Io(io::Error),
    /// Out of memory.
    #[error("out of memory")]
    OutOfMemory,
}

impl From<io::Error> for OpenError {
    fn from(error: io::Error) -> OpenError {
        OpenError::Io(error)
    }
}

impl From<AllocError> for OpenError {
    fn from(_error: AllocError) -> OpenError {
        OpenError::OutOfMemory
    }
}
