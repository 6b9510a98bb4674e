//! One record: its bytes, and the four calls that write it.

ghost use Rattle.std.specs.Prelude.{◌≡◌, ◌+◌, ◌*◌, ◌^◌, ◌<◌, ◌≤◌, ◌++◌, ◌∷◌, [], List, ℕ, length, OnOk, OnErr, IfOk};
ghost use Rattle.crash_disk.specs.Calls.{AreCalls};
ghost use Rattle.crash_disk.specs.Disk.{Only, LeavesOnly};
ghost use Rattle.crash_disk.specs.Spare.{UsesUp};
ghost use Rattle.teb_io.specs.Faults.{HasCause};
ghost use Rattle.record_journal.specs.Format.{Record, ChangeFits, entry, recovered, Whole};
ghost use Rattle.record_journal.specs.Journal.{IsAtRest, IsBody, IsBeforeOrAfter};

use crate::Change;
use crash_disk::Disk;
use std::alloc::{AllocError, Global};
use teb_io::Failed;

/// Returns the bytes that add a record after a closed gate byte: the number of changes, each of them, and the next gate byte,
/// closed.
///
/// # Errors
/// `AllocError`: out of memory.
pub fn encode(alloc: Global, changes: &[Change]) -> Result<Vec<u8>, AllocError>
    requires { length changes.now < 2 ^ 32 }
    ensures is_body { IfOk result (λ bytes. IsBody changes.now bytes.items) }
    ensures length { IfOk result (λ bytes. length bytes.items ≡ 5 + 14 * length changes.now) }
{
    let mut bytes = Vec::new(alloc);
    bytes.extend_from_slice(&(changes.len() as u32).to_be_bytes())?;
    for change in changes {
        put_change(&mut bytes, *change)?;
    }
    bytes.push(0)?;
    Ok(bytes)
}

// Appends fourteen bytes: table, key, tag, value.
fn put_change(out: &mut Vec<u8>, change: Change) -> Result<(), AllocError>
    ensures put { OnOk result (out.new.items ≡ out.old.items ++ entry change) }
    ensures fits { ChangeFits change }
{
    out.push(change.cell.table.0)?;
    out.extend_from_slice(&change.cell.key.to_be_bytes())?;
    match change.value {
        None => {
            out.push(0)?;
            out.extend_from_slice(&[0, 0, 0, 0, 0, 0, 0, 0])?;
        }
        Some(value) => {
            out.push(1)?;
            out.extend_from_slice(&value.cast_unsigned().to_be_bytes())?;
        }
    }
    Ok(())
}

/// Writes a record after the closed gate byte at `end`: first its body with the next gate byte, then its own gate byte. A sync
/// makes each safe.
///
/// # Errors
/// `Failed` if one of these four calls fails. The disk may have the record or not.
pub fn write_record<D: Disk>(disk: &mut D, end: u64, body: &[u8]) -> Result<(), Failed>
    requires { end + 1 + length body.now ≤ D.capacity disk.old }

    // On a disk at rest it adds the record of the body. The room of the journal may be less than that of the disk.
    ensures added { (room : ℕ) (rs : List Record) (r : Record) → end + 1 + length body.now ≤ room → IsBody r body.now → IsAtRest room rs end (D.seen disk.old)
        → Only (D.seen disk.old) (D.may_leave disk.old)
        → OnOk result (IsAtRest room (rs ++ r ∷ []) (end + length body.now) (D.seen disk.new) × Only (D.seen disk.new) (D.may_leave disk.new)) }

    // A crash at any moment of the call leaves the earlier records, with the new one or without it.
    ensures any_moment { (room : ℕ) (rs : List Record) (r : Record) → end + 1 + length body.now ≤ room → IsBody r body.now → IsAtRest room rs end (D.seen disk.old)
        → Only (D.seen disk.old) (D.may_leave disk.old)
        → LeavesOnly D.moment D.left_since disk.old disk.new (IsBeforeOrAfter room rs r) }

    // If it fails, what was safe at the last good sync has only the earlier records.
    ensures not_added { (room : ℕ) (rs : List Record) (r : Record) → end + 1 + length body.now ≤ room → IsBody r body.now → IsAtRest room rs end (D.seen disk.old)
        → recovered room (D.safe disk.old) ≡ Whole rs
        → OnErr result (recovered room (D.safe disk.new) ≡ Whole rs) }

    ensures cause { HasCause (D.faults disk.old) (D.faults disk.new) result }
    ensures capacity { D.capacity disk.new ≡ D.capacity disk.old }
    ensures calls { AreCalls (D.tally disk.old).promise.writes 4 (length body.now + 1) (D.tally disk.old) (D.tally disk.new) result }
    ensures memory { UsesUp 4 (length body.now + 1) (end + 1 + length body.now) (D.spare disk.old) (D.spare disk.new) (D.refusals disk.old) (D.refusals disk.new) }
{
    disk.write_at(end + 1, body)?;
    disk.sync()?;
    disk.write_at(end, &[1])?;
    disk.sync()?;
    Ok(())
}
