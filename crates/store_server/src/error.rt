//! Why a store is not opened.

use engine_store::OpenError;
use file_disk::OpenError as FileError;
use thiserror::Error;
use tree_toml::TreeTextError;

/// Why a store is not opened.
#[derive(Debug, Drop, Error)]
pub enum OpenStoreError {
    /// The tree text is refused, or memory ran out while it was read.
    #[error("the tree text is wrong: {0:?}")]
    BadTree(TreeTextError),
    /// The disk is no store under the tables of the tree, a call of it failed, or memory is out.
    #[error("{0}")]
    Disk(OpenError),
}

/// A disk that was not opened, and why.
#[derive(Drop)]
pub struct NotOpened<D> {
    pub disk: D,
    pub why: OpenStoreError,
}

/// Why a store in a file is not opened.
#[derive(Debug, Drop, Error)]
pub enum OpenFileError {
    /// The capacity is 0, or 2^40 or more.
    #[error("a store in a file has 1 to 2^40 - 1 bytes")]
    BadCapacity,
    /// The file is in use or too long, or cannot be opened, locked, read or synced; or memory is out.
    #[error("{0}")]
    File(FileError),
    /// The tree text is refused, or the store that the file has is not opened.
    #[error("{0}")]
    Store(OpenStoreError),
    #[error("out of memory")]
    OutOfMemory,
}
