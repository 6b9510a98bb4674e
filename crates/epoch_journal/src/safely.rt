//! One write, made safe.

ghost use Rattle.std.specs.Prelude.{◌≡◌, ◌+◌, ◌≤◌, length, OnOk, OnErr};
ghost use Rattle.crash_disk.specs.Calls.{AreCalls};
ghost use Rattle.crash_disk.specs.Disk.{Holds, IsTorn, LeavesOnly, Only};
ghost use Rattle.crash_disk.specs.Spare.{UsesUp};
ghost use Rattle.teb_io.specs.Faults.{HasCause};
ghost use Rattle.epoch_journal.specs.Refusals.{CountsRefusals};

use crash_disk::Disk;
use teb_io::Failed;

/// Writes bytes, and makes them safe. It makes two calls of the disk.
///
/// # Errors
/// `Failed` if a call of the disk fails. The range and what is past the old end may then hold any bytes.
pub(crate) fn write_safely<D: Disk>(disk: &mut D, at: u64, bytes: &[u8]) -> Result<(), Failed>
    requires { at + length bytes.now ≤ D.capacity disk.old }
    ensures written { OnOk result (Holds at bytes.now (D.seen disk.new)) }
    ensures torn { IsTorn at (length bytes.now) (D.seen disk.old) (D.seen disk.new) }
    ensures durable { OnOk result (Only (D.seen disk.new) (D.may_leave disk.new)) }

    // A crash at any moment of the call leaves the bytes from before it, but for the range and what is past their end.
    ensures any_moment { Only (D.seen disk.old) (D.may_leave disk.old)
        → LeavesOnly D.moment D.left_since disk.old disk.new (IsTorn at (length bytes.now) (D.seen disk.old)) }

    ensures stays { D.capacity disk.new ≡ D.capacity disk.old }
    ensures cause { HasCause (D.faults disk.old) (D.faults disk.new) result }
    ensures calls { AreCalls (D.tally disk.old).promise.writes 2 (length bytes.now) (D.tally disk.old) (D.tally disk.new) result }
    ensures memory { UsesUp 2 (length bytes.now) (at + length bytes.now) (D.spare disk.old) (D.spare disk.new) (D.refusals disk.old) (D.refusals disk.new) }
    ensures refusals { CountsRefusals D.tells_failures D.tally D.refusals disk.old disk.new result }
{
    disk.write_at(at, bytes)?;
    disk.sync()?;
    Ok(())
}
