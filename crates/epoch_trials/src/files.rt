//! A file that is copied at each call of its disk, or cut, and opened again.

use crate::life::{CALLS, CAPACITY, RECORDS, find, live};
use crate::memory::{is_prefix, live_until};
use file_disk::{FileDisk, OpenError};
use std::alloc::Global;
use std::fs;
use std::test::Fail;

/// Opens a file with these bytes. Returns after how many records its rows are those found.
fn find_in(rt: &HostRuntime, alloc: Global, path: &str, bytes: &[u8]) -> Result<Option<u32>, Fail> {
    fs::write(rt, path, bytes)?;
    let disk = FileDisk::open_with_capacity(rt, alloc, path, CAPACITY)?;
    Ok(find(alloc, disk))
}

#[test]
fn a_file_is_copied_at_any_call(rt: HostRuntime) -> Result<(), Fail> {
    let (alloc, path) = (rt.alloc(), "epoch_trials_copied");
    let _ = fs::remove_file(&rt, path);
    let disk = FileDisk::open_with_capacity(&rt, alloc, path, CAPACITY)?;
    let lived = live(alloc, disk)?;
    assert_eq!(rt; (lived.whole, lived.acknowledged), (true, RECORDS));
    assert!(rt; matches!(FileDisk::open(&rt, alloc, path), Err(OpenError::Busy)));
    drop(lived);
    // A file has the bytes of a disk in memory.
    let bytes = fs::read(&rt, path)?;
    assert_eq!(rt; bytes.as_slice(), live_until(alloc, 0)?.disk.bytes());
    for stop in 1..=CALLS {
        let copy = live_until(alloc, stop)?;
        let found = find_in(&rt, alloc, path, copy.disk.bytes())?;
        assert!(rt;
            is_prefix(found, copy.acknowledged),
            "call {stop}: {found:?}"
        );
    }
    fs::remove_file(&rt, path)?;
    Ok(())
}

#[test]
fn a_file_is_cut_in_a_checkpoint(rt: HostRuntime) -> Result<(), Fail> {
    let (alloc, path) = (rt.alloc(), "epoch_trials_cut");
    // The first checkpoint follows the opening and two records, and goes past the end.
    let before = live_until(alloc, 19)?;
    let after = live_until(alloc, 20)?;
    let bytes = after.disk.bytes();
    for len in before.disk.bytes().len()..=bytes.len() {
        assert_eq!(rt;
            find_in(&rt, alloc, path, &bytes[..len])?,
            Some(2),
            "cut at {len}"
        );
    }
    fs::remove_file(&rt, path)?;
    Ok(())
}
