//! The life of a journal: records, checkpoints and openings, on any disk.

use crash_disk::Disk;
use epoch_journal::EpochJournal;
use record_journal::{Change, encode};
use std::alloc::{AllocError, Global};
use std::test::Fail;
use teb_rules::names::{Cell, Table};

/// How many bytes each disk can hold. A half has 150 bytes.
pub const CAPACITY: u64 = 313;

/// The label: the name of the one table.
const LABEL: [u8; 2] = *b"t\n";

/// How many records a life adds.
pub const RECORDS: u32 = 7;

/// How many calls of a disk in memory a life makes: 10 at the first opening, 4 for each record and each checkpoint, and 13 and 11 at
/// the other openings.
pub const CALLS: u32 = 78;

/// The steps of a life after its first opening.
const LIFE: [Step; 13] = [
    Step::Append(0),
    Step::Append(1),
    Step::Checkpoint,
    Step::Append(2),
    Step::Open,
    Step::Checkpoint,
    Step::Append(3),
    Step::Append(4),
    Step::Checkpoint,
    Step::Open,
    Step::Append(5),
    Step::Checkpoint,
    Step::Append(6),
];

#[derive(Clone, Copy)]
enum Step {
    /// Adds the record with this number, from 0.
    Append(u8),
    /// Begins the next epoch.
    Checkpoint,
    /// Hands the disk back, and opens it again.
    Open,
}

/// What a life has left.
#[derive(Drop)]
pub struct Lived<D> {
    pub disk: D,
    /// How many records were acknowledged.
    pub acknowledged: u32,
    /// Whether each call of the disk has succeeded.
    pub whole: bool,
}

fn cell(key: u32) -> Cell {
    Cell {
        table: Table(0),
        key,
    }
}

/// Returns the rows after `count` records: one that each record has moved to the next cell, and one that stays.
fn rows(count: u32) -> [(Cell, i64); 2] {
    [(cell(count), i64::from(count)), (cell(99), 1)]
}

/// Returns after how many records these are the rows.
fn count_of(rows: &[(Cell, i64)]) -> Option<u32> {
    match rows {
        [(moved, value), (still, 1)]
            if *moved == cell(moved.key) && i64::from(moved.key) == *value && *still == cell(99) =>
            { Some(moved.key) }
        _ => None,
    }
}

/// Returns the record with this number, which moves the row to the next cell.
fn record(number: u8) -> [Change; 2] {
    let next = u32::from(number) + 1;
    [
        Change {
            cell: cell(u32::from(number)),
            value: None,
        },
        Change {
            cell: cell(next),
            value: Some(i64::from(next)),
        },
    ]
}

/// Adds a record. Returns whether it is acknowledged.
fn append<D: Disk>(
    alloc: Global,
    journal: &mut EpochJournal<D>,
    number: u8,
) -> Result<bool, AllocError> {
    let body = encode(alloc, &record(number))?;
    if journal.is_stopped() || body.is_empty() || journal.left() <= body.len() as u64 {
        return Ok(false);
    }
    let memory = journal.reserve(alloc, body.len())?;
    Ok(journal.append(memory, &body).is_ok())
}

/// Begins the next epoch with the rows after `count` records. Returns whether it has begun.
fn checkpoint<D: Disk>(alloc: Global, journal: &mut EpochJournal<D>, count: u32) -> bool {
    !journal.is_stopped() && journal.checkpoint(alloc, &rows(count)).is_ok()
}

/// Opens a disk. Returns the journal, and after how many records its rows are those found: `None` if after no number. Returns the
/// disk if it is not opened.
fn opened<D: Disk + Drop>(alloc: Global, disk: D) -> Result<(EpochJournal<D>, Option<u32>), D> {
    match EpochJournal::open(alloc, disk, &LABEL, &rows(0)) {
        Ok((journal, found)) => Ok((journal, count_of(&found))),
        Err(back) => Err(back.disk),
    }
}

/// Returns what a life leaves that ends at a call of the disk.
fn broken<D>(disk: D, acknowledged: u32) -> Lived<D> {
    Lived {
        disk,
        acknowledged,
        whole: false,
    }
}

/// Opens a disk, and takes the steps of a life until a call of the disk fails.
///
/// # Errors
/// A `Fail`: out of memory for a record.
pub fn live<D: Disk + Drop>(alloc: Global, disk: D) -> Result<Lived<D>, Fail> {
    let mut acknowledged = 0;
    let mut journal = match opened(alloc, disk) {
        Ok((journal, _)) => journal,
        Err(disk) => return Ok(broken(disk, acknowledged)),
    };
    for step in LIFE {
        let whole = match step {
            Step::Append(number) => {
                let added = append(alloc, &mut journal, number)?;
                if added {
                    acknowledged = u32::from(number) + 1;
                }
                added
            }
            Step::Checkpoint => checkpoint(alloc, &mut journal, acknowledged),
            Step::Open => match opened(alloc, journal.into_disk()) {
                Ok((again, found)) => {
                    journal = again;
                    found == Some(acknowledged)
                }
                Err(disk) => return Ok(broken(disk, acknowledged)),
            },
        };
        if !whole {
            return Ok(broken(journal.into_disk(), acknowledged));
        }
    }
    Ok(Lived {
        disk: journal.into_disk(),
        acknowledged,
        whole: true,
    })
}

/// Opens a disk. Returns after how many records its rows are those found, or `None` if it is not opened or they are the rows after
/// no number.
pub fn find<D: Disk + Drop>(alloc: Global, disk: D) -> Option<u32> {
    match opened(alloc, disk) {
        Ok((_, found)) => found,
        Err(_) => None,
    }
}
