//! The records on a disk, one after the other.

ghost use Rattle.std.specs.Prelude.{◌≡◌, ◌≢◌, ◌⊎◌, true, false, slice_index, ◌+◌, ◌-◌, ◌*◌, ◌<◌, ◌≤◌, ◌^◌, ◌∷◌, [], List, ℕ, length, take, drop, IfOk, IsErrOf, None, Some, MatchOption, OnOk};
ghost use Rattle.crash_disk.specs.Calls.{IsUpTo};
ghost use Rattle.crash_disk.specs.Disk.{IsQuiet};
ghost use Rattle.teb_io.specs.Faults.{Rose};
ghost use Rattle.record_journal.specs.Format.{Damaged, Whole, reading};
ghost use Rattle.record_journal.specs.Views.{record_lists};
ghost use Rattle.epoch_journal.specs.Next.{IsNext, HasNone, count_in};

use crate::layout::COMMIT_MARK;
use crate::range::read_range;
use crash_disk::Disk;
use record_journal::{CHANGE_BYTES, COUNT_BYTES, Change, RecoverError, read_record};
use std::alloc::Global;

/// Returns the records from `at` on, up to the first mark that is not a commit mark, or up to `until`. It reads these records alone, each with
/// two reads or more, and writes nothing.
///
/// # Errors
/// `Damaged` if no record follows a commit mark, with the place of the mark; `DiskFault`; `OutOfMemory`.
pub(crate) fn read_on<D: Disk>(
    alloc: Global,
    disk: &mut D,
    at: u64,
    until: u64,
) -> Result<Vec<Vec<Change>>, RecoverError>
    requires within { (at ≤ until) × (until ≤ length (D.seen disk.old)) }
    requires small { until < 2 ^ 48 }
    ensures whole { IfOk result (λ records. reading 0 at (take (until - at) (drop at (D.seen disk.old))) ≡ Whole (record_lists records.items)) }
    ensures damaged { (place : ℕ) → IsErrOf result (RecoverError.Damaged place) → reading 0 at (take (until - at) (drop at (D.seen disk.old))) ≡ Damaged place }
    ensures quiet { IsQuiet D.seen D.may_leave D.moment D.left_since D.faults D.capacity disk.old disk.new }
    ensures cause { IsErrOf result RecoverError.DiskFault → Rose (D.faults disk.old) (D.faults disk.new) }
    ensures calls { IsUpTo (2 * (until - at) + 5) 0 (D.tally disk.old) (D.tally disk.new) }
    ensures granted { OnOk result (D.refusals disk.new ≡ D.refusals disk.old) }
{
    let mut records = Vec::new(alloc);
    let mut place = at;
    while let Some(record) = read_next(alloc, disk, place, until)? {
        place += (1 + COUNT_BYTES + CHANGE_BYTES * record.len()) as u64;
        records.push(record)?;
    }
    Ok(records)
}

/// Returns the record after the mark at a place, if it is a commit mark.
fn read_next<D: Disk>(
    alloc: Global,
    disk: &mut D,
    at: u64,
    until: u64,
) -> Result<Option<Vec<Change>>, RecoverError>
    requires within { (at ≤ until) × (until ≤ length (D.seen disk.old)) }
    requires small { until < 2 ^ 48 }
    ensures found { IfOk result (λ found. MatchOption found
        ((place : ℕ) → reading 0 place (take (until - at) (drop at (D.seen disk.old))) ≡ Whole [])
        (λ v. IsNext v.items (take (until - at) (drop at (D.seen disk.old))))) }
    ensures damaged { (place : ℕ) → IsErrOf result (RecoverError.Damaged place) → (place ≡ at) × HasNone (take (until - at) (drop at (D.seen disk.old))) }
    ensures quiet { IsQuiet D.seen D.may_leave D.moment D.left_since D.faults D.capacity disk.old disk.new }
    ensures cause { IsErrOf result RecoverError.DiskFault → Rose (D.faults disk.old) (D.faults disk.new) }
    ensures calls { IsUpTo (until - at + 5) 0 (D.tally disk.old) (D.tally disk.new) }
    ensures record_calls { IfOk result (λ found. MatchOption found (IsUpTo 5 0 (D.tally disk.old) (D.tally disk.new)) (λ v. IsUpTo (9 + 14 * length v.items) 0 (D.tally disk.old) (D.tally disk.new))) }
    ensures granted { OnOk result (D.refusals disk.new ≡ D.refusals disk.old) }
{
    let most = until - at;
    let front = read_range(alloc, disk, at, most.min(5))?;
    if !is_committed(&front) {
        return Ok(None);
    }
    if most < 5 {
        return Err(RecoverError::Damaged { at });
    }
    let size = body_size(&front);
    if size >= most {
        return Err(RecoverError::Damaged { at });
    }
    let body = read_range(alloc, disk, at + 1, size)?;
    let record = read_record(alloc, &body)?;
    match record {
        None => Err(RecoverError::Damaged { at }),
        Some(record) => Ok(Some(record)),
    }
}

/// Returns true if bytes begin with a commit mark.
fn is_committed(front: &[u8]) -> bool
    ensures marked { result ≡ true → (0 < length front.now) × (slice_index front.now 0 ≡ 1) }
    ensures other { result ≡ false → (length front.now ≡ 0) ⊎ (slice_index front.now 0 ≢ 1) }
{
    if front.is_empty() {
        return false;
    }
    front[0] == COMMIT_MARK
}

/// Returns how many bytes follow the commit mark of a record of which these are the first five bytes.
fn body_size(front: &[u8]) -> u64
    requires { 5 ≤ length front.now }
    ensures value { result ≡ 4 + 14 * count_in front.now }
    ensures small { result < 2 ^ 40 }
{
    let count = u32::from_be_bytes([front[1], front[2], front[3], front[4]]);
    COUNT_BYTES as u64 + CHANGE_BYTES as u64 * u64::from(count)
}
