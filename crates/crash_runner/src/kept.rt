//! What is recovered from the disk after a run.

ghost use Rattle.std.specs.Prelude.{◌≡◌, List, length, IfOk};
ghost use Rattle.teb_rules.specs.declared.names.Cell.{Cell};
ghost use Rattle.teb_rules.specs.names.Rows.{row_of, IsAscending};
ghost use Rattle.crash_disk.specs.Sizes.{default_capacity};
ghost use Rattle.record_journal.specs.Format.{Record, recovered, Whole};
ghost use Rattle.record_journal.specs.Journal.{after_records};
ghost use Rattle.crash_runner.specs.Underway.{HasRoom};

use commit_journal::recover;
use crash_disk::{Disk, MemDisk};
use record_journal::{RecoverError, Recovered};
use std::alloc::{AllocError, Global};
use teb_rules::names::Rows;

/// Returns the rows that the records of a disk leave over some starting rows, after everything that was not safe is lost.
pub(crate) fn recover_left(
    alloc: Global,
    disk: MemDisk,
    start: &Rows,
) -> Result<Recovered, AllocError>
    requires room { HasRoom (⟦<MemDisk as Disk>⟧.tally disk) }
    requires whole { (rs : List Record) × (recovered default_capacity (⟦<MemDisk as Disk>⟧.safe disk) ≡ Whole rs) }
    ensures found { IfOk result (λ found. (rs : List Record) → recovered default_capacity (⟦<MemDisk as Disk>⟧.safe disk) ≡ Whole rs
        → (found.commits ≡ length rs) × ((x : Cell) → row_of found.rows.items x ≡ after_records rs (row_of start.now) x)) }
    ensures ascending { IfOk result (λ found. IsAscending found.rows.items) }
{
    let mut left = disk.left();
    match recover(alloc, &mut left, start) {
        Ok(found) => Ok(found),
        Err(RecoverError::OutOfMemory) => Err(AllocError),
        Err(RecoverError::DiskFault | RecoverError::Damaged { .. }) => unreachable!(),
    }
}
