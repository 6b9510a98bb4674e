//! What is done to a disk in halves: more records, and the other half in place of this one.

ghost use Rattle.std.specs.Prelude.{◌≡◌, ◌+◌, ◌-◌, ◌<◌, ◌≤◌, ◌++◌, ◌∷◌, [], List, ℕ, length, OnOk};
ghost use Rattle.crash_disk.specs.Calls.{AreCalls};
ghost use Rattle.crash_disk.specs.Disk.{LeavesOnly, Only};
ghost use Rattle.crash_disk.specs.Spare.{UsesUp};
ghost use Rattle.teb_io.specs.Faults.{HasCause};
ghost use Rattle.record_journal.specs.Format.{Record};
ghost use Rattle.epoch_journal.specs.Layout.{half_at, half_size, layout, other_half};
ghost use Rattle.epoch_journal.specs.Bodies.{AreBodies};
ghost use Rattle.epoch_journal.specs.Halves.{IsEither, IsFronted, IsOneOf, IsPiece, IsResting, IsSettled};
ghost use Rattle.epoch_journal.specs.Refusals.{CountsRefusals};

use crate::current::Half;
use crate::layout::{COMMIT_MARK, base};
use crate::safely::write_safely;
use crash_disk::Disk;
use teb_io::Failed;

/// Adds records after the end mark at `end` of a half: their bodies, each followed by its mark, and then the first commit mark, each
/// made safe. It makes four calls of the disk, however many records there are.
///
/// # Errors
/// `Failed` if one of them fails. A crash may then leave the records.
pub(crate) fn add_records<D: Disk>(
    disk: &mut D,
    capacity: u64,
    half: Half,
    end: u64,
    bodies: &[u8],
) -> Result<(), Failed>
    requires small { capacity ≤ D.capacity disk.old }
    requires some { 0 < length bodies.now }
    requires room { end + 1 + length bodies.now ≤ half_size capacity }
    ensures added { (label : List ℕ) (rs more : List Record) → AreBodies more bodies.now → IsResting (layout capacity label) half rs end (D.seen disk.old)
        → Only (D.seen disk.old) (D.may_leave disk.old)
        → OnOk result (IsResting (layout capacity label) half (rs ++ more) (end + length bodies.now) (D.seen disk.new) × Only (D.seen disk.new) (D.may_leave disk.new)) }
    ensures any_moment { (label : List ℕ) (rs more : List Record) → AreBodies more bodies.now → IsResting (layout capacity label) half rs end (D.seen disk.old)
        → Only (D.seen disk.old) (D.may_leave disk.old)
        → LeavesOnly D.moment D.left_since disk.old disk.new (IsOneOf (layout capacity label) half rs more) }
    ensures durable { OnOk result (Only (D.seen disk.new) (D.may_leave disk.new)) }
    ensures stays { D.capacity disk.new ≡ D.capacity disk.old }
    ensures cause { HasCause (D.faults disk.old) (D.faults disk.new) result }
    ensures calls { AreCalls (D.tally disk.old).promise.writes 4 (length bodies.now + 1) (D.tally disk.old) (D.tally disk.new) result }
    ensures memory { UsesUp 4 (length bodies.now + 1) (half_at capacity half + end + 1 + length bodies.now) (D.spare disk.old) (D.spare disk.new) (D.refusals disk.old) (D.refusals disk.new) }
    ensures refusals { CountsRefusals D.tells_failures D.tally D.refusals disk.old disk.new result }
{
    let mark = base(capacity, half) + end;
    write_safely(disk, mark + 1, bodies)?;
    write_safely(disk, mark, &[COMMIT_MARK])?;
    Ok(())
}

/// Writes the bytes of a half over the half that is not current, the other one than `half`, and then makes it current, each made safe. It makes four calls of the
/// disk.
///
/// # Errors
/// `Failed` if one of them fails. Either half may then be current.
pub(crate) fn switch_halves<D: Disk>(
    disk: &mut D,
    capacity: u64,
    half: Half,
    piece: &[u8],
) -> Result<(), Failed>
    requires small { capacity ≤ D.capacity disk.old }
    requires some { 0 < length piece.now }
    requires room { length piece.now ≤ half_size capacity }
    ensures resting { (label : List ℕ) (r : Record) → IsPiece (layout capacity label) r piece.now → IsFronted capacity (D.seen disk.old)
        → OnOk result (IsResting (layout capacity label) (other_half half) (r ∷ []) (length piece.now - 1) (D.seen disk.new)) }
    ensures switched { (label : List ℕ) (rs : List Record) (r : Record) → IsPiece (layout capacity label) r piece.now → IsSettled (layout capacity label) half rs (D.seen disk.old)
        → OnOk result (IsResting (layout capacity label) (other_half half) (r ∷ []) (length piece.now - 1) (D.seen disk.new) × Only (D.seen disk.new) (D.may_leave disk.new)) }
    ensures any_moment { (label : List ℕ) (rs : List Record) (r : Record) → IsPiece (layout capacity label) r piece.now → IsSettled (layout capacity label) half rs (D.seen disk.old)
        → Only (D.seen disk.old) (D.may_leave disk.old)
        → LeavesOnly D.moment D.left_since disk.old disk.new (IsEither (layout capacity label) half rs r) }
    ensures durable { OnOk result (Only (D.seen disk.new) (D.may_leave disk.new)) }
    ensures stays { D.capacity disk.new ≡ D.capacity disk.old }
    ensures cause { HasCause (D.faults disk.old) (D.faults disk.new) result }
    ensures calls { AreCalls (D.tally disk.old).promise.writes 4 (length piece.now + 1) (D.tally disk.old) (D.tally disk.new) result }
    ensures memory { UsesUp 4 (length piece.now + 1) (half_at capacity (other_half half) + length piece.now) (D.spare disk.old) (D.spare disk.new) (D.refusals disk.old) (D.refusals disk.new) }
    ensures refusals { CountsRefusals D.tells_failures D.tally D.refusals disk.old disk.new result }
{
    let target = half.other();
    write_safely(disk, base(capacity, target), piece)?;
    write_safely(disk, 0, &[target.selector()])?;
    Ok(())
}
