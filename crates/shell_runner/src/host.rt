//! What the shell has beside its input and its output.

use std::alloc::Global;

/// Why a file is not read.
#[derive(Clone, Copy)]
pub enum FileError {
    /// There is no such file, or a read failed.
    Unreadable,
    TooLong,
    OutOfMemory,
}

/// The files that a line can name, and the place of the prompt. Nothing is claimed of either.
pub trait Host {
    /// Reads the text of a file.
    ///
    /// # Errors
    /// `Unreadable` if there is no such file or a read fails; `TooLong` if it is longer than the host reads; `OutOfMemory`.
    fn read_file(&mut self, alloc: Global, name: &[u8]) -> Result<Vec<u8>, FileError>;

    /// True if the lines come from someone who sees a prompt.
    fn is_prompted(&self) -> bool;

    /// Shows a prompt.
    fn prompt(&mut self, text: &[u8]);
}
