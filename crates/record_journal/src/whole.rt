//! The part of a disk that a journal may use.

ghost use Rattle.std.specs.Prelude.{◌≡◌, ◌+◌, ◌≤◌, ℕ, length, take, IfOk, IfErr, OnOk, IsOk, IsErrOf};
ghost use Rattle.crash_disk.specs.Calls.{AreSure};
ghost use Rattle.crash_disk.specs.Disk.{IsQuiet};
ghost use Rattle.crash_disk.specs.Sizes.{default_capacity};
ghost use Rattle.teb_io.specs.Faults.{HasCause, Rose};

use crate::RecoverError;
use crash_disk::{DEFAULT_CAPACITY, Disk};
use std::alloc::Global;
use teb_io::Failed;

/// Returns the first bytes of a disk, up to the limit of a store's journal. It writes nothing.
///
/// # Errors
/// `DiskFault`: a call of the disk failed. `OutOfMemory`: no call failed. `Damaged` is never returned.
pub fn read_whole<D: Disk>(alloc: Global, disk: &mut D) -> Result<Vec<u8>, RecoverError>
    ensures bytes { IfOk result (λ bytes. bytes.items ≡ take default_capacity (D.seen disk.old)) }
    ensures quiet { IsQuiet D.seen D.may_leave D.moment D.left_since D.faults D.capacity disk.old disk.new }
    ensures cause { IsErrOf result RecoverError.DiskFault → Rose (D.faults disk.old) (D.faults disk.new) }
    // If no call failed, no fault is counted.
    ensures no_fault { OnOk result (D.faults disk.new ≡ D.faults disk.old) }
    ensures no_other_fault { IfErr result (λ e. (e ≡ RecoverError.DiskFault → ⊥) → D.faults disk.new ≡ D.faults disk.old) }
    // It asks for the length, and then reads at least one byte by each call.
    ensures sure { AreSure (D.tally disk.old).promise.reads (default_capacity + 1) 0 (D.tally disk.old) → IsErrOf result RecoverError.DiskFault → ⊥ }
    ensures not_damaged { (at : ℕ) → IsErrOf result (RecoverError.Damaged at) → ⊥ }
{
    read_front(alloc, disk, DEFAULT_CAPACITY)
}

/// Returns the first bytes of a disk, at most `most` of them. It writes nothing.
///
/// # Errors
/// `DiskFault`: a call of the disk failed. `OutOfMemory`: no call failed. `Damaged` is never returned.
pub fn read_front<D: Disk>(alloc: Global, disk: &mut D, most: u64) -> Result<Vec<u8>, RecoverError>
    ensures bytes { IfOk result (λ bytes. bytes.items ≡ take most (D.seen disk.old)) }
    ensures quiet { IsQuiet D.seen D.may_leave D.moment D.left_since D.faults D.capacity disk.old disk.new }
    ensures cause { IsErrOf result RecoverError.DiskFault → Rose (D.faults disk.old) (D.faults disk.new) }
    // If no call failed, no fault is counted.
    ensures no_fault { OnOk result (D.faults disk.new ≡ D.faults disk.old) }
    ensures no_other_fault { IfErr result (λ e. (e ≡ RecoverError.DiskFault → ⊥) → D.faults disk.new ≡ D.faults disk.old) }
    // It asks for the length, and then reads at least one byte by each call.
    ensures sure { AreSure (D.tally disk.old).promise.reads (most + 1) 0 (D.tally disk.old) → IsErrOf result RecoverError.DiskFault → ⊥ }
    ensures not_damaged { (at : ℕ) → IsErrOf result (RecoverError.Damaged at) → ⊥ }
{
    let len = disk.len()?.min(most) as usize;
    let mut bytes = vec![in alloc; 0u8; len]?;
    fill(disk, &mut bytes)?;
    Ok(bytes)
}

// Fills a buffer, no longer than the disk, from the front of the disk.
fn fill<D: Disk>(disk: &mut D, buf: &mut [u8]) -> Result<(), Failed>
    requires { length buf.old ≤ length (D.seen disk.old) }
    ensures filled { OnOk result (buf.new ≡ take (length buf.old) (D.seen disk.old)) }
    ensures quiet { IsQuiet D.seen D.may_leave D.moment D.left_since D.faults D.capacity disk.old disk.new }
    ensures cause { HasCause (D.faults disk.old) (D.faults disk.new) result }
    ensures no_fault { OnOk result (D.faults disk.new ≡ D.faults disk.old) }
    ensures sure { AreSure (D.tally disk.old).promise.reads (length buf.old) 0 (D.tally disk.old) → IsOk result }
{
    let mut filled = 0;
    while filled < buf.len() {
        let n = disk.read_at(filled as u64, &mut buf[filled..])?;
        prove!(n > 0);
        filled += n;
    }
    Ok(())
}
