//! The rows on a disk, also after a crash.

ghost use Rattle.std.specs.Prelude.{◌≡◌, ◌+◌, ◌≤◌, List, ℕ, length, take, IfOk, IfErr, OnOk, IsErrOf};
ghost use Rattle.teb_rules.specs.declared.names.Cell.{Cell as TheCell};
ghost use Rattle.teb_rules.specs.names.Rows.{row_of, IsAscending};
ghost use Rattle.crash_disk.specs.Calls.{AreSure};
ghost use Rattle.crash_disk.specs.Disk.{IsQuiet, Only};
ghost use Rattle.crash_disk.specs.Sizes.{default_capacity};
ghost use Rattle.teb_io.specs.Faults.{Rose};
ghost use Rattle.record_journal.specs.Format.{Record, recovered, Whole, Damaged};
ghost use Rattle.record_journal.specs.Journal.{StandsFor, after_records};

use crate::RecoverError;
use crate::read::read_records;
use crate::rows::rows_after;
use crate::whole::read_whole;
use crash_disk::Disk;
use std::alloc::Global;
use teb_rules::names::Cell;

/// The result of the records of a journal.
#[derive(Debug, Drop)]
pub struct Recovered {
    /// The rows after all records, in ascending order of their cells.
    pub rows: Vec<(Cell, i64)>,
    /// How many records there are.
    pub commits: u32,
}

/// Returns the rows after the records of a disk, over some starting rows, and how many records it has. Of two starting rows of
/// one cell the first counts. It begins with a sync, and writes nothing.
///
/// # Errors
/// `DiskFault`: a call of the disk failed. `Damaged`: no record follows an open gate byte. `OutOfMemory`: out of memory. The
/// bytes of the disk are unchanged, and a fault is counted only with `DiskFault`.
pub fn read_rows<D: Disk>(
    alloc: Global,
    disk: &mut D,
    start: &[(Cell, i64)],
) -> Result<Recovered, RecoverError>
    // The rows are those after all records that the bytes have.
    ensures found { IfOk result (λ found. (rs : List Record) × (recovered default_capacity (D.seen disk.old) ≡ Whole rs) × (found.commits ≡ length rs)
        × ((x : TheCell) → row_of found.rows.items x ≡ after_records rs (row_of start.now) x)) }

    ensures ascending { IfOk result (λ found. IsAscending found.rows.items) }

    // The place of the damage is that of the bytes.
    ensures damaged { (at : ℕ) → IsErrOf result (RecoverError.Damaged at) → recovered default_capacity (D.seen disk.old) ≡ Damaged at }

    // On what a crash leaves of a journal of these records, the first k of them are found, and k is at least the number of
    // acknowledged ones. There is no damage.
    ensures first { (least : ℕ) (asked : List Record) → StandsFor default_capacity least asked (D.seen disk.old)
        → IfOk result (λ found. (least ≤ found.commits) × (found.commits ≤ length asked)
        × ((x : TheCell) → row_of found.rows.items x ≡ after_records (take found.commits asked) (row_of start.now) x)) }
    ensures no_damage { (least : ℕ) (asked : List Record) → StandsFor default_capacity least asked (D.seen disk.old) → (at : ℕ) → IsErrOf result (RecoverError.Damaged at) → ⊥ }

    // From then on a crash leaves what was read.
    ensures durable { OnOk result (Only (D.seen disk.old) (D.may_leave disk.new)) }
    ensures quiet { IsQuiet D.seen D.may_leave D.moment D.left_since D.faults D.capacity disk.old disk.new }
    ensures cause { IsErrOf result RecoverError.DiskFault → Rose (D.faults disk.old) (D.faults disk.new) }
    // If no call failed, no fault is counted.
    ensures no_fault { OnOk result (D.faults disk.new ≡ D.faults disk.old) }
    ensures no_other_fault { IfErr result (λ e. (e ≡ RecoverError.DiskFault → ⊥) → D.faults disk.new ≡ D.faults disk.old) }
    // It makes a sync, and then at most one call more than there are bytes.
    ensures sure { AreSure (D.tally disk.old).promise.writes 1 0 (D.tally disk.old) → AreSure (D.tally disk.old).promise.reads (default_capacity + 2) 0 (D.tally disk.old)
        → IsErrOf result RecoverError.DiskFault → ⊥ }
{
    disk.sync()?;
    let bytes = read_whole(alloc, disk)?;
    let records = match read_records(alloc, &bytes) {
        Ok(records) => records,
        Err(error) => return Err(error),
    };
    let commits = records.len() as u32;
    let rows = rows_after(alloc, start, &records)?;
    Ok(Recovered { rows, commits })
}
