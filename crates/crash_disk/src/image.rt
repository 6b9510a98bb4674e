//! The bytes of a disk in memory.

ghost use Rattle.std.specs.Prelude.{◌≡◌, ◌+◌, ◌^◌, ◌-◌, ◌<◌, ◌≤◌, ◌++◌, length, take, drop, min, vec_capacity, OnOk, OnErr, IsOk};
ghost use Rattle.crash_disk.specs.Log.{written};

use std::alloc::AllocError;

/// Reserves memory, so that the image may grow up to `end`. It changes no byte.
///
/// # Errors
/// `AllocError`: out of memory.
pub fn reserve(image: &mut Vec<u8>, end: usize) -> Result<(), AllocError>
    ensures same { image.new.items ≡ image.old.items }
    ensures reserved { OnOk result (end ≤ vec_capacity image.new) }
    ensures capacity { vec_capacity image.old ≤ vec_capacity image.new }
    ensures sure { end ≤ vec_capacity image.old → IsOk result }
{
    if end > image.len() {
        image.reserve(end - image.len())?;
    }
    Ok(())
}

/// Writes bytes from `at` on, over what is there and past the end, with zeros between.
///
/// # Errors
/// `AllocError`: out of memory. The image is unchanged.
pub fn put(image: &mut Vec<u8>, at: usize, bytes: &[u8]) -> Result<(), AllocError>
    requires { at + length bytes.now < 2 ^ 64 }
    ensures put { OnOk result (image.new.items ≡ written at bytes.now image.old.items) }
    ensures same { OnErr result (image.new.items ≡ image.old.items) }
    ensures capacity { vec_capacity image.old ≤ vec_capacity image.new }
    ensures sure { at + length bytes.now ≤ vec_capacity image.old → IsOk result }
{
    let end = at + bytes.len();
    if end > image.len() {
        image.resize(end, 0)?;
    }
    image[at..end].copy_from_slice(bytes);
    Ok(())
}

/// Copies the bytes from a place on into the front of a buffer, up to the end of the bytes or of the buffer, and returns how many.
pub fn copy_from(bytes: &[u8], at: usize, buf: &mut [u8]) -> usize
    requires { at ≤ length bytes.now }
    ensures fits { result ≤ length buf.old }
    ensures copied { take result buf.new ≡ take result (drop at bytes.now) }
    ensures within { at + result ≤ length bytes.now }
    ensures at_end { result ≡ 0 → 0 < length buf.old → length bytes.now ≤ at }
    ensures count { result ≡ min (length buf.old) (length bytes.now - at) }
    ensures same_length { length buf.new ≡ length buf.old }
{
    let n = buf.len().min(bytes.len() - at);
    buf[..n].copy_from_slice(&bytes[at..at + n]);
    n
}
