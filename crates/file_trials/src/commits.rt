//! What a file has after commits, whole or cut.

use commit_journal::{Durable, recover};
use engine_core::Engine;
use file_disk::FileDisk;
use record_journal::RecoverError;
use std::alloc::Global;
use std::fs;
use std::test::Fail;
use teb_rules::names::{Cell, Kind, Request, Session, Spot, Table};
use tree_toml::read_tree;
use version_chain::PlainChains;

const CELL: Cell = Cell {
    table: Table(0),
    key: 1,
};

/// How many bytes a record of one change has, with its gate byte.
const RECORD: usize = 19;

/// How many bytes two such records have.
const TWO_RECORDS: usize = 38;

/// Writes each value in a separate transaction.
fn write_values(alloc: Global, disk: FileDisk, values: &[i64]) -> Result<(), Fail> {
    let setup = read_tree(alloc, &[])?;
    let engine = Engine::new(alloc, setup, PlainChains::new(alloc))?;
    let Ok(mut durable) = Durable::create(engine, disk) else {
        return Err(Fail::from("no store"));
    };
    for value in values {
        let begin = Request::Begin(Spot {
            kind: Kind(0),
            instance: 0,
        });
        for request in [begin, Request::Write(CELL, *value), Request::Commit] {
            let _ = durable.ask(alloc, Session(1), request)?;
        }
    }
    Ok(())
}

/// Returns how many commits a file has and which value they leave, or what is wrong with its bytes.
fn read_value(
    rt: &HostRuntime,
    alloc: Global,
    path: &str,
) -> Result<Result<(u32, Option<i64>), RecoverError>, Fail> {
    let mut disk = FileDisk::open(rt, alloc, path)?;
    let start = read_tree(alloc, &[])?.rows;
    Ok(recover(alloc, &mut disk, &start).map(|found| (
        found.commits,
        found.rows.first().map(|row| row.1),
    )))
}

#[test]
fn a_cut_file_has_the_first_commits(rt: HostRuntime) -> Result<(), Fail> {
    let alloc = rt.alloc();
    let path = "file_trials_commits";
    let _ = fs::remove_file(&rt, path);
    write_values(alloc, FileDisk::open(&rt, alloc, path)?, &[5, 6])?;
    let mut bytes = fs::read(&rt, path)?;
    assert_eq!(rt; bytes.len(), TWO_RECORDS + 1);
    // A record is read whole, or the cut in it is reported.
    for len in 0..=TWO_RECORDS + 1 {
        fs::write(&rt, path, &bytes[..len])?;
        let want = match len {
            0 => Ok((0, None)),
            RECORD => Ok((1, Some(5))),
            TWO_RECORDS.. => Ok((2, Some(6))),
            _ => Err(RecoverError::Damaged {
                at: (len / RECORD * RECORD) as u64,
            }),
        };
        assert_eq!(rt; read_value(&rt, alloc, path)?, want, "cut at {len}");
    }
    // The second record does not count while its gate byte is closed.
    bytes[RECORD] = 0;
    for len in RECORD..=TWO_RECORDS + 1 {
        fs::write(&rt, path, &bytes[..len])?;
        assert_eq!(rt;
            read_value(&rt, alloc, path)?,
            Ok((1, Some(5))),
            "cut at {len}"
        );
    }
    fs::remove_file(&rt, path)?;
    Ok(())
}
