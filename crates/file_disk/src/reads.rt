//! The bytes of a file.

ghost use Rattle.std.specs.Prelude.{◌≡◌, ◌≤◌, ◌<◌, length, IfOk, OnErr};

use crate::OpenError;
use std::alloc::Global;
use std::fs::File;
use std::os::unix::fs::FileExt;

/// How many bytes are compared at once.
const PIECE: usize = 4096;

/// Returns all bytes of a file.
///
/// # Errors
/// `TooLong`: it has more than `capacity` bytes. `Io`: it cannot be read. `OutOfMemory`: out of memory. The file is unchanged.
pub fn read_whole(alloc: Global, file: &File, capacity: u64) -> Result<Vec<u8>, OpenError>
    ensures { IfOk result (λ bytes. length bytes.items ≤ capacity) }
{
    let len = fitting(file.metadata()?.len(), capacity)?;
    let mut bytes = vec![in alloc; 0u8; len]?;
    file.read_exact_at(&mut bytes, 0)?;
    Ok(bytes)
}

/// Returns the length of a file.
///
/// # Errors
/// `TooLong`: it is above the capacity.
fn fitting(len: u64, capacity: u64) -> Result<usize, OpenError>
    ensures fits { IfOk result (λ n. (n ≡ len) × (len ≤ capacity)) }
    ensures too_long { OnErr result (capacity < len) }
{
    if len > capacity {
        return Err(OpenError::TooLong { capacity });
    }
    Ok(len as usize)
}

/// Returns whether a read of `count` bytes at a place gives these. A read that fails does not.
pub fn gives(file: &File, at: u64, count: usize, bytes: &[u8]) -> bool {
    has(file, at, bytes)
        && (bytes.len() == count || ends_at(file, at.saturating_add(bytes.len() as u64)))
}

/// Returns whether the file has these bytes at a place.
fn has(file: &File, at: u64, bytes: &[u8]) -> bool {
    let mut buf = [0u8; PIECE];
    let mut place = at;
    for piece in bytes.chunks(PIECE) {
        let read = &mut buf[..piece.len().min(PIECE)];
        if file.read_exact_at(read, place).is_err() || &*read != piece {
            return false;
        }
        place = place.saturating_add(piece.len() as u64);
    }
    true
}

/// Returns whether the file has no byte at a place or after it.
fn ends_at(file: &File, at: u64) -> bool {
    i64::try_from(at).is_err() || matches!(file.read_at(&mut [0u8], at), Ok(0))
}
