//! What a disk has: its front, and the records of its current half.

ghost use Rattle.std.specs.Prelude.{◌≡◌, ◌⊎◌, ◌+◌, ◌*◌, ◌<◌, ◌≤◌, ◌^◌, [], List, ℕ, min, length, take, drop, true, false, IfOk, IfErr, IsErrOf, OnOk};
ghost use Rattle.crash_disk.specs.Calls.{IsUpTo};
ghost use Rattle.crash_disk.specs.Disk.{IsQuiet};
ghost use Rattle.teb_io.specs.Faults.{Rose};
ghost use Rattle.record_journal.specs.Views.{record_lists};
ghost use Rattle.std.specs.Int.{w64, to_be_bytes};
ghost use Rattle.epoch_journal.specs.Layout.{front as front_bytes, half_of, half_size, header, layout, signature};
ghost use Rattle.epoch_journal.specs.Halves.{IsFronted};
ghost use Rattle.epoch_journal.specs.Read.{HasOtherCapacity, HasOtherLabel, IsCurrently, IsDamaged, IsReadAs};
ghost use Rattle.epoch_journal.specs.declared.error.OpenError.TheVariants as errors;

use crate::current::{Current, Half};
use crate::error::OpenError;
use crate::layout::{FRONT_END, SIGNATURE, base, half_bytes, header_of};
use crate::range::read_range;
use crate::records::read_on;
use crash_disk::Disk;
use record_journal::Change;
use std::alloc::Global;

/// Which half of a disk of `len` bytes is current.
///
/// # Errors
/// `Damaged` at 1 if there is no signature; `OtherCapacity`; `DiskFault`; `OutOfMemory`.
pub(crate) fn read_front<D: Disk>(
    alloc: Global,
    disk: &mut D,
    len: u64,
    capacity: u64,
) -> Result<Current, OpenError>
    requires { len ≡ length (D.seen disk.old) }
    ensures current { IfOk result (λ current. IsCurrently capacity current (D.seen disk.old)) }
    ensures damaged { (label : List ℕ) (at : ℕ) → IsErrOf result (errors.Damaged at) → IsDamaged (layout capacity label) at (D.seen disk.old) }
    ensures other_capacity { (label : List ℕ) → IsErrOf result errors.OtherCapacity → HasOtherCapacity (layout capacity label) (D.seen disk.old) }
    ensures one_capacity { IsErrOf result errors.OtherLabel → ⊥ }
    ensures not_full { IsErrOf result errors.Full → ⊥ }
    ensures quiet { IsQuiet D.seen D.may_leave D.moment D.left_since D.faults D.capacity disk.old disk.new }
    ensures cause { IsErrOf result errors.DiskFault → Rose (D.faults disk.old) (D.faults disk.new) }
    ensures calls { IsUpTo 13 0 (D.tally disk.old) (D.tally disk.new) }
    ensures granted { OnOk result (D.refusals disk.new ≡ D.refusals disk.old) }
{
    if len <= FRONT_END {
        return Ok(Current::Blank);
    }
    let front = read_range(alloc, disk, 0, FRONT_END)?;
    let half = match check_front(&front, capacity) {
        Ok(half) => half,
        Err(error) => return Err(error),
    };
    Ok(Current::Half(half))
}

/// Returns the current half, by the first 13 bytes of a disk.
///
/// # Errors
/// `Damaged` at 1 if there is no signature; `OtherCapacity`.
fn check_front(front: &[u8], capacity: u64) -> Result<Half, OpenError>
    requires { length front.now ≡ 13 }
    ensures current { IfOk result (λ half. (drop 1 front.now ≡ front_bytes capacity) × (half_of front.now ≡ half)) }
    ensures errors { IfErr result (λ e. ((e ≡ errors.Damaged 1) × (take 4 (drop 1 front.now) ≡ signature → ⊥))
        ⊎ ((e ≡ errors.OtherCapacity) × (take 4 (drop 1 front.now) ≡ signature) × (drop 4 (drop 1 front.now) ≡ to_be_bytes w64 capacity → ⊥))) }
{
    let (_, rest) = front.split_at(1);
    let (marks, number) = rest.split_at(4);
    if !are_same(marks, &SIGNATURE) {
        return Err(OpenError::Damaged { at: 1 });
    }
    if !are_same(number, &capacity.to_be_bytes()) {
        return Err(OpenError::OtherCapacity);
    }
    Ok(Half::of_selector(front[0]))
}

/// Returns the records of a disk of `len` bytes.
///
/// # Errors
/// As `read_half`.
pub(crate) fn read_current<D: Disk>(
    alloc: Global,
    disk: &mut D,
    len: u64,
    capacity: u64,
    label: &[u8],
    current: Current,
) -> Result<Vec<Vec<Change>>, OpenError>
    requires len { len ≡ length (D.seen disk.old) }
    requires fits { (length label.now < 2 ^ 32) × (4 + length label.now ≤ half_size capacity) }
    requires current { IsCurrently capacity current (D.seen disk.old) }
    ensures records { IfOk result (λ records. IsReadAs (layout capacity label.now) (record_lists records.items) (D.seen disk.old)) }
    ensures damaged { (at : ℕ) → IsErrOf result (errors.Damaged at) → IsDamaged (layout capacity label.now) at (D.seen disk.old) }
    ensures other_label { IsErrOf result errors.OtherLabel → HasOtherLabel (layout capacity label.now) (D.seen disk.old) }
    ensures one_capacity { IsErrOf result errors.OtherCapacity → ⊥ }
    ensures not_full { IsErrOf result errors.Full → ⊥ }
    ensures quiet { IsQuiet D.seen D.may_leave D.moment D.left_since D.faults D.capacity disk.old disk.new }
    ensures cause { IsErrOf result errors.DiskFault → Rose (D.faults disk.old) (D.faults disk.new) }
    ensures calls { IsUpTo (3 * half_size capacity + 5) 0 (D.tally disk.old) (D.tally disk.new) }
    ensures granted { OnOk result (D.refusals disk.new ≡ D.refusals disk.old) }
{
    match current {
        Current::Blank => Ok(Vec::new(alloc)),
        Current::Half(half) => read_half(alloc, disk, len, capacity, label, half),
    }
}

/// Returns the records of the current half of a disk of `len` bytes; none if the disk ends before that half.
///
/// # Errors
/// `OtherLabel` if the half does not begin with the label; `Damaged`; `DiskFault`; `OutOfMemory`.
fn read_half<D: Disk>(
    alloc: Global,
    disk: &mut D,
    len: u64,
    capacity: u64,
    label: &[u8],
    half: Half,
) -> Result<Vec<Vec<Change>>, OpenError>
    requires len { len ≡ length (D.seen disk.old) }
    requires fits { (length label.now < 2 ^ 32) × (4 + length label.now ≤ half_size capacity) }
    requires current { IsCurrently capacity (Current.Half half) (D.seen disk.old) }
    ensures records { IfOk result (λ records. IsReadAs (layout capacity label.now) (record_lists records.items) (D.seen disk.old)) }
    ensures damaged { (at : ℕ) → IsErrOf result (errors.Damaged at) → IsDamaged (layout capacity label.now) at (D.seen disk.old) }
    ensures other_label { IsErrOf result errors.OtherLabel → HasOtherLabel (layout capacity label.now) (D.seen disk.old) }
    ensures one_capacity { IsErrOf result errors.OtherCapacity → ⊥ }
    ensures not_full { IsErrOf result errors.Full → ⊥ }
    ensures quiet { IsQuiet D.seen D.may_leave D.moment D.left_since D.faults D.capacity disk.old disk.new }
    ensures cause { IsErrOf result errors.DiskFault → Rose (D.faults disk.old) (D.faults disk.new) }
    ensures calls { IsUpTo (3 * half_size capacity + 5) 0 (D.tally disk.old) (D.tally disk.new) }
    ensures granted { OnOk result (D.refusals disk.new ≡ D.refusals disk.old) }
{
    let at = base(capacity, half);
    if ends_before(half, len, at) {
        return Ok(Vec::new(alloc));
    }
    let most = (len - at).min(half_bytes(capacity));
    let size = match check_label(alloc, disk, at, most, label) {
        Ok(size) => size,
        Err(error) => return Err(error),
    };
    match read_on(alloc, disk, at + size, at + most) {
        Ok(records) => Ok(records),
        Err(error) => Err(OpenError::from(error)),
    }
}

/// Returns true if the second half is current, and a disk of `len` bytes ends before it, which begins at `at`.
fn ends_before(half: Half, len: u64, at: u64) -> bool
    ensures yes { result ≡ true → (half ≡ Half.Second) × (len ≤ at) }
    ensures no { result ≡ false → (half ≡ Half.First) ⊎ (at < len) }
{
    match half {
        Half::First => false,
        Half::Second => len <= at,
    }
}

/// Returns the length of the header of a label, with which the `most` bytes from `at` on begin.
///
/// # Errors
/// `OtherLabel` if they begin with anything else; `DiskFault`; `OutOfMemory`.
fn check_label<D: Disk>(
    alloc: Global,
    disk: &mut D,
    at: u64,
    most: u64,
    label: &[u8],
) -> Result<u64, OpenError>
    requires within { at + most ≤ length (D.seen disk.old) }
    requires small { at + most < 2 ^ 48 }
    requires label { length label.now < 2 ^ 32 }
    ensures header { IfOk result (λ size. (size ≡ length (header label.now)) × (take (min most size) (drop at (D.seen disk.old)) ≡ header label.now)) }
    ensures other { IsErrOf result errors.OtherLabel → take (min most (length (header label.now))) (drop at (D.seen disk.old)) ≡ header label.now → ⊥ }
    ensures not_damaged { (at : ℕ) → IsErrOf result (errors.Damaged at) → ⊥ }
    ensures one_capacity { IsErrOf result errors.OtherCapacity → ⊥ }
    ensures not_full { IsErrOf result errors.Full → ⊥ }
    ensures quiet { IsQuiet D.seen D.may_leave D.moment D.left_since D.faults D.capacity disk.old disk.new }
    ensures cause { IsErrOf result errors.DiskFault → Rose (D.faults disk.old) (D.faults disk.new) }
    ensures calls { IsUpTo most 0 (D.tally disk.old) (D.tally disk.new) }
    ensures granted { OnOk result (D.refusals disk.new ≡ D.refusals disk.old) }
{
    let header = header_of(alloc, label)?;
    let size = header.len() as u64;
    let found = read_range(alloc, disk, at, most.min(size))?;
    if !are_same(&found, &header) {
        return Err(OpenError::OtherLabel);
    }
    Ok(size)
}

/// Returns true if two lists of bytes are the same.
fn are_same(a: &[u8], b: &[u8]) -> bool
    ensures yes { result ≡ true → a.now ≡ b.now }
    ensures no { result ≡ false → a.now ≡ b.now → ⊥ }
{
    a == b
}
