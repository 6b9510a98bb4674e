//! Recovery of a disk after a crash.

ghost use Rattle.std.specs.Prelude.{◌≡◌, ◌+◌, ◌≤◌, List, ℕ, length, IfOk, IfErr, OnOk, IsErrOf};
ghost use Rattle.teb_io.specs.Faults.{Rose};
ghost use Rattle.teb_rules.specs.declared.names.Cell.{Cell as TheCell};
ghost use Rattle.teb_rules.specs.names.Rows.{row_of, IsAscending};
ghost use Rattle.teb_rules.specs.declared.history.Event.{Event};
ghost use Rattle.teb_rules.specs.Setup.{Store};
ghost use Rattle.teb_rules.specs.Accepted.{IsSound};
ghost use Rattle.teb_rules.specs.laws.Lawful.{Lawful};
ghost use Rattle.crash_disk.specs.Calls.{AreSure};
ghost use Rattle.crash_disk.specs.Disk.{IsQuiet, Only};
ghost use Rattle.crash_disk.specs.Sizes.{default_capacity};
ghost use Rattle.record_journal.specs.Format.{Record, recovered, Whole, Damaged};
ghost use Rattle.record_journal.specs.Journal.{after_records};
ghost use Rattle.commit_laws.specs.Commits.{commit_count, rows_after};
ghost use Rattle.commit_journal.specs.Whole.{HasFirst};

use crash_disk::Disk;
use record_journal::{RecoverError, Recovered, read_rows};
use std::alloc::Global;
use teb_rules::names::Rows;

/// Returns the rows after the commits of a disk, over the starting rows, and how many commits it has. It writes nothing.
///
/// A store that begins with these rows on the *same* disk loses them: its journal has only what is committed from then on.
///
/// # Errors
/// `Damaged` if the bytes are not a journal; `DiskFault` if a call of the disk fails; `OutOfMemory`. The bytes of the disk are
/// unchanged.
pub fn recover<D: Disk>(
    alloc: Global,
    disk: &mut D,
    start: &Rows,
) -> Result<Recovered, RecoverError>
    // The rows are those after all records that the bytes have.
    ensures found { IfOk result (λ found. (rs : List Record) × (recovered default_capacity (D.seen disk.old) ≡ Whole rs) × (found.commits ≡ length rs)
        × ((x : TheCell) → row_of found.rows.items x ≡ after_records rs (row_of start.now) x)) }

    ensures ascending { IfOk result (λ found. IsAscending found.rows.items) }

    // The place of the damage is that of the bytes.
    ensures damaged { (at : ℕ) → IsErrOf result (RecoverError.Damaged at) → recovered default_capacity (D.seen disk.old) ≡ Damaged at }

    // On an image that a crash leaves of a store on a disk, the rows are those after the first k commits, and k is at least the
    // number of acknowledged ones. There is no damage.
    ensures first { (X : Store) (H : List Event) (least : ℕ) → IsSound X.setup → Lawful X.setup H → X.rows ≡ start.now → HasFirst X H least (D.seen disk.old)
        → IfOk result (λ found. (least ≤ found.commits) × (found.commits ≤ commit_count H)
        × ((x : TheCell) → row_of found.rows.items x ≡ rows_after X H found.commits x)) }
    ensures no_damage { (X : Store) (H : List Event) (least at : ℕ) → HasFirst X H least (D.seen disk.old) → IsErrOf result (RecoverError.Damaged at) → ⊥ }

    // From then on a crash leaves what was read.
    ensures durable { OnOk result (Only (D.seen disk.old) (D.may_leave disk.new)) }
    ensures quiet { IsQuiet D.seen D.may_leave D.moment D.left_since D.faults D.capacity disk.old disk.new }
    ensures cause { IsErrOf result RecoverError.DiskFault → Rose (D.faults disk.old) (D.faults disk.new) }
    // If no call failed, no fault is counted.
    ensures no_fault { OnOk result (D.faults disk.new ≡ D.faults disk.old) }
    ensures no_other_fault { IfErr result (λ e. (e ≡ RecoverError.DiskFault → ⊥) → D.faults disk.new ≡ D.faults disk.old) }
    // It makes a sync, and then at most one call more than there are bytes.
    ensures sure { AreSure (D.tally disk.old).promise.writes 1 0 (D.tally disk.old) → AreSure (D.tally disk.old).promise.reads (default_capacity + 2) 0 (D.tally disk.old)
        → IsErrOf result RecoverError.DiskFault → ⊥ }
{
    read_rows(alloc, disk, start.rows())
}
