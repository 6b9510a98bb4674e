//! Bytes from the middle of a disk.

ghost use Rattle.std.specs.Prelude.{◌≡◌, ◌+◌, ◌<◌, ◌≤◌, ◌^◌, ℕ, length, take, drop, IfOk, OnOk, IsErrOf};
ghost use Rattle.crash_disk.specs.Calls.{IsUpTo};
ghost use Rattle.crash_disk.specs.Disk.{IsQuiet};
ghost use Rattle.teb_io.specs.Faults.{HasCause, Rose};

use crash_disk::Disk;
use record_journal::RecoverError;
use std::alloc::Global;
use teb_io::Failed;

/// Returns the `count` bytes of a disk from `at` on, all of which are there. It writes nothing.
///
/// # Errors
/// `DiskFault` if a call of the disk fails; `OutOfMemory`. Never `Damaged`.
pub(crate) fn read_range<D: Disk>(
    alloc: Global,
    disk: &mut D,
    at: u64,
    count: u64,
) -> Result<Vec<u8>, RecoverError>
    requires within { at + count ≤ length (D.seen disk.old) }
    requires small { at + count < 2 ^ 63 }
    ensures bytes { IfOk result (λ bytes. bytes.items ≡ take count (drop at (D.seen disk.old))) }
    ensures quiet { IsQuiet D.seen D.may_leave D.moment D.left_since D.faults D.capacity disk.old disk.new }
    ensures cause { IsErrOf result RecoverError.DiskFault → Rose (D.faults disk.old) (D.faults disk.new) }
    ensures calls { IsUpTo count 0 (D.tally disk.old) (D.tally disk.new) }
    ensures not_damaged { (place : ℕ) → IsErrOf result (RecoverError.Damaged place) → ⊥ }
    ensures granted { OnOk result (D.refusals disk.new ≡ D.refusals disk.old) }
{
    let mut bytes = vec![in alloc; 0u8; count as usize]?;
    fill(disk, at, &mut bytes)?;
    Ok(bytes)
}

/// Fills a buffer with the bytes from `at` on, all of which are there.
fn fill<D: Disk>(disk: &mut D, at: u64, buf: &mut [u8]) -> Result<(), Failed>
    requires within { at + length buf.old ≤ length (D.seen disk.old) }
    requires small { at + length buf.old < 2 ^ 63 }
    ensures filled { OnOk result (buf.new ≡ take (length buf.old) (drop at (D.seen disk.old))) }
    ensures quiet { IsQuiet D.seen D.may_leave D.moment D.left_since D.faults D.capacity disk.old disk.new }
    ensures cause { HasCause (D.faults disk.old) (D.faults disk.new) result }
    ensures calls { IsUpTo (length buf.old) 0 (D.tally disk.old) (D.tally disk.new) }
    ensures granted { OnOk result (D.refusals disk.new ≡ D.refusals disk.old) }
{
    let mut filled = 0;
    while filled < buf.len() {
        let n = disk.read_at(at + filled as u64, &mut buf[filled..])?;
        prove!(n > 0);
        filled += n;
    }
    Ok(())
}
