//! A disk as a journal sees it: what a read gives, and what a crash may leave.

ghost use Rattle.std.specs.Prelude.{◌≡◌, ◌+◌, ◌<◌, ◌≤◌, ◌^◌, List, ℕ, length, IfOk, OnOk, OnErr, IsErr};
ghost use Rattle.crash_disk.specs.Disk.{Only, Follows, NoMore, IsTorn, Holds, IsRead, Elapses};
ghost use Rattle.crash_disk.specs.Calls.{Tally, AreCalls, IsCounted};
ghost use Rattle.crash_disk.specs.Spare.{Spare, Covers, IsNoLess, UsesUp};
ghost use Rattle.teb_io.specs.Faults.{HasCause};

use crate::Memory;
use std::alloc::{AllocError, Global};
use teb_io::Failed;

/// The capacity of a disk for which none is told, in bytes.
pub const DEFAULT_CAPACITY: u64 = 1_048_576;

/// A device of bytes, which may crash at any moment. Each call may fail, and a call that fails raises the count of faults.
pub trait Disk {
    ghost use Rattle.crash_disk.specs.declared.spare.Memory.{Memory};

    /// The bytes that a read gives.
    ghost seen: { Self → List ℕ };

    /// The images that a crash at this moment may leave.
    ghost may_leave: { Self → List ℕ → Type 0 };

    /// The clock, which never goes back.
    ghost moment: { Self → ℕ };

    /// The images that a crash might have left at some moment since the given one, during a call or between two.
    ghost left_since: { Self → ℕ → List ℕ → Type 0 };

    /// The bytes as they were at the last sync that succeeded.
    ghost safe: { Self → List ℕ };

    /// How often the disk has failed.
    ghost faults: { Self → ℕ };

    /// How many calls were made, and which are sure to succeed or to fail.
    ghost tally: { Self → Tally };

    /// How many bytes it can hold. It stays.
    ghost capacity: { Self → ℕ };

    /// Each call to come fails.
    ghost broken: { Self → Type 0 };

    /// How often a call has failed because it was refused memory.
    ghost refusals: { Self → ℕ };

    /// A call fails only at the stop, or because it is refused memory.
    ghost tells_failures: { Self → Type 0 };

    /// For how many calls to come it has memory.
    ghost spare: { Self → Spare };

    /// And once it has taken this memory.
    ghost spare_with: { Self → Memory → Spare };

    /// Returns how many bytes the disk can hold: each write ends there or before. It is no call of the device.
    fn capacity(&self) -> u64
        ensures { result ≡ capacity self.now };

    /// Returns memory for `calls` writes and syncs more, which write `bytes` bytes in all, none of them past the place `end`. The disk takes it
    /// by `adopt`. It is no call of the device.
    ///
    /// # Errors
    /// `AllocError`: out of memory.
    fn reserve(
        &self,
        alloc: Global,
        calls: usize,
        end: u64,
        bytes: usize,
    ) -> Result<Memory, AllocError>
        ensures { IfOk result (λ memory. Covers (spare_with self.now memory) calls bytes end) };

    /// Takes memory that was reserved for it. It is no call of the device: all else stays.
    fn adopt(&mut self, memory: Memory)
        ensures spare { IsNoLess (spare_with self.old memory) (spare self.new) }
        ensures refusals { refusals self.new ≡ refusals self.old }
        ensures seen { seen self.new ≡ seen self.old }
        ensures crash { NoMore (may_leave self.old) (may_leave self.new) }
        ensures clock { moment self.new ≡ moment self.old }
        ensures time { (t : ℕ) (c : List ℕ) → left_since self.new t c → left_since self.old t c }
        ensures safe { safe self.new ≡ safe self.old }
        ensures capacity { capacity self.new ≡ capacity self.old }
        ensures calls { tally self.new ≡ tally self.old }
        ensures faults { faults self.new ≡ faults self.old };

    /// Returns how many bytes there are. It changes no byte, and nothing that a crash may leave.
    ///
    /// # Errors
    /// `Failed` where the device fails.
    fn len(&mut self) -> Result<u64, Failed>
        ensures value { IfOk result (λ n. n ≡ length (seen self.old)) }
        ensures seen { seen self.new ≡ seen self.old }
        ensures crash { NoMore (may_leave self.old) (may_leave self.new) }
        ensures time { Elapses (moment self.old) (moment self.new) (left_since self.old) (left_since self.new) (may_leave self.new) }
        ensures safe { safe self.new ≡ safe self.old }
        ensures capacity { capacity self.new ≡ capacity self.old }
        ensures calls { AreCalls (tally self.old).promise.reads 1 0 (tally self.old) (tally self.new) result }
        ensures cause { HasCause (faults self.old) (faults self.new) result }
        ensures no_fault { OnOk result (faults self.new ≡ faults self.old) }
        ensures count { IsCounted (tells_failures self.old) (tally self.old) (faults self.old) (faults self.new) (refusals self.old) (refusals self.new) result }
        ensures broken { broken self.old → IsErr result }
        ensures memory { UsesUp 0 0 0 (spare self.old) (spare self.new) (refusals self.old) (refusals self.new) };

    /// Reads the next bytes from a place on into the front of the buffer, as many as it likes, and answers how many. For a buffer
    /// that is not empty, 0 comes only at or past the end. It changes no byte of the device, and nothing that a crash may leave.
    ///
    /// # Errors
    /// `Failed` where the device fails. The buffer may hold any bytes then.
    fn read_at(&mut self, at: u64, buf: &mut [u8]) -> Result<usize, Failed>
        ensures read { IfOk result (λ n. IsRead (seen self.old) at n buf.new) }
        ensures seen { seen self.new ≡ seen self.old }
        ensures crash { NoMore (may_leave self.old) (may_leave self.new) }
        ensures time { Elapses (moment self.old) (moment self.new) (left_since self.old) (left_since self.new) (may_leave self.new) }
        ensures safe { safe self.new ≡ safe self.old }
        ensures capacity { capacity self.new ≡ capacity self.old }
        ensures calls { AreCalls (tally self.old).promise.reads 1 0 (tally self.old) (tally self.new) result }
        ensures cause { HasCause (faults self.old) (faults self.new) result }
        ensures no_fault { OnOk result (faults self.new ≡ faults self.old) }
        ensures count { IsCounted (tells_failures self.old) (tally self.old) (faults self.old) (faults self.new) (refusals self.old) (refusals self.new) result }
        ensures broken { broken self.old → IsErr result }
        ensures memory { UsesUp 0 0 0 (spare self.old) (spare self.new) (refusals self.old) (refusals self.new) };

    /// Writes over what is there, and past the end. Until a sync that succeeds, the range and what lies past the old end may hold
    /// any bytes after a crash. All other bytes stay.
    ///
    /// # Errors
    /// `Failed` where the device fails. A read too may then give any bytes in the range and past the old end.
    fn write_at(&mut self, at: u64, bytes: &[u8]) -> Result<(), Failed>
        requires { at + length bytes.now ≤ capacity self.old }
        ensures written { OnOk result (Holds at bytes.now (seen self.new)) }
        ensures torn { IsTorn at (length bytes.now) (seen self.old) (seen self.new) }
        ensures crash { Follows (IsTorn at (length bytes.now)) (may_leave self.old) (may_leave self.new) }
        ensures time { Elapses (moment self.old) (moment self.new) (left_since self.old) (left_since self.new) (may_leave self.new) }
        ensures safe { safe self.new ≡ safe self.old }
        ensures capacity { capacity self.new ≡ capacity self.old }
        ensures calls { AreCalls (tally self.old).promise.writes 1 (length bytes.now) (tally self.old) (tally self.new) result }
        ensures cause { HasCause (faults self.old) (faults self.new) result }
        ensures no_fault { OnOk result (faults self.new ≡ faults self.old) }
        ensures count { IsCounted (tells_failures self.old) (tally self.old) (faults self.old) (faults self.new) (refusals self.old) (refusals self.new) result }
        ensures broken { broken self.old → IsErr result }
        ensures memory { UsesUp 1 (length bytes.now) (at + length bytes.now) (spare self.old) (spare self.new) (refusals self.old) (refusals self.new) };

    /// Makes all bytes safe: a crash right after it leaves what a read gives. It changes no byte.
    ///
    /// # Errors
    /// `Failed` where the device fails. Nothing is made safe then: a crash may leave what it could leave before.
    fn sync(&mut self) -> Result<(), Failed>
        ensures durable { OnOk result (Only (seen self.old) (may_leave self.new)) }
        ensures seen { seen self.new ≡ seen self.old }
        ensures crash { NoMore (may_leave self.old) (may_leave self.new) }
        ensures nothing_safe { OnErr result (NoMore (may_leave self.new) (may_leave self.old)) }
        ensures time { Elapses (moment self.old) (moment self.new) (left_since self.old) (left_since self.new) (may_leave self.new) }
        ensures safe { OnOk result (safe self.new ≡ seen self.old) }
        ensures capacity { capacity self.new ≡ capacity self.old }
        ensures not_safe { OnErr result (safe self.new ≡ safe self.old) }
        ensures calls { AreCalls (tally self.old).promise.writes 1 0 (tally self.old) (tally self.new) result }
        ensures cause { HasCause (faults self.old) (faults self.new) result }
        ensures no_fault { OnOk result (faults self.new ≡ faults self.old) }
        ensures count { IsCounted (tells_failures self.old) (tally self.old) (faults self.old) (faults self.new) (refusals self.old) (refusals self.new) result }
        ensures broken { broken self.old → IsErr result }
        ensures memory { UsesUp 1 0 0 (spare self.old) (spare self.new) (refusals self.old) (refusals self.new) };

    /// A disk can hold a byte, and fewer than 2^40.
    ghost some: { (disk : Self) → 0 < capacity disk };

    ghost small: { (disk : Self) → capacity disk < 2 ^ 40 };

    /// What a read gives is one of the images.
    ghost read_is_left: { (disk : Self) → may_leave disk (seen disk) };

    /// What was safe at the last good sync is one of the images.
    ghost safe_is_left: { (disk : Self) → may_leave disk (safe disk) };

    /// This moment is one of those since an earlier one.
    ghost counts_now: { (disk : Self) (t : ℕ) (c : List ℕ) → t ≤ moment disk → may_leave disk c → left_since disk t c };

    /// Since this moment there is no other.
    ghost only_now: { (disk : Self) (c : List ℕ) → left_since disk (moment disk) c → may_leave disk c };
}
