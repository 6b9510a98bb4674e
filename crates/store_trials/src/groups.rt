//! Commits that wait for the disk together: a disk in memory is stopped at each call of theirs, torn at each byte, and opened again.

use crate::life::{CELL, TrialStore, open, value};
use crash_disk::MemDisk;
use engine_store::{EngineGroup, EngineQueue, write_commits};
use epoch_store::AskError;
use std::alloc::Global;
use std::ops::RangeInclusive;
use std::test::Fail;
use teb_rules::names::{Kind, Reply, Request, Session, Spot};
use version_chain::PlainChains;

/// How many bytes each disk can hold.
const CAPACITY: u64 = 1_013;

/// How many calls the opening and the first commit make.
const CALLS_BEFORE: u32 = 14;

/// How many calls a group makes.
const CALLS_OF_GROUP: u32 = 4;

/// The commits of the group are those of the values 2 to 9.
const LAST: i64 = 9;

/// What is left of a store: the disk, and the value of the last commit that was acknowledged.
#[derive(Drop)]
struct Left {
    disk: MemDisk,
    acknowledged: i64,
}

/// What begins a transaction.
const BEGIN: Request = Request::Begin(Spot {
    kind: Kind(0),
    instance: 0,
});

/// Asks for a transaction that writes a value, and for its commit.
fn commit(
    alloc: Global,
    group: &mut EngineGroup<PlainChains, MemDisk>,
    value: i64,
) -> Result<Reply, AskError> {
    let _ = group.ask(alloc, Session(1), BEGIN)?;
    let _ = group.ask(alloc, Session(1), Request::Write(CELL, value))?;
    group.ask(alloc, Session(1), Request::Commit)
}

/// Asks the half of a store that answers for a transaction that writes a value, and for its commit.
fn commit_in(
    alloc: Global,
    queue: &mut EngineQueue<PlainChains>,
    value: i64,
) -> Result<Reply, AskError> {
    let _ = queue.ask(alloc, Session(1), BEGIN)?;
    let _ = queue.ask(alloc, Session(1), Request::Write(CELL, value))?;
    queue.ask(alloc, Session(1), Request::Commit)
}

/// Commits these values together, and answers how many commits waited, and whether they are acknowledged.
fn commit_together(
    alloc: Global,
    store: TrialStore,
    values: RangeInclusive<i64>,
) -> Result<(TrialStore, usize, bool), Fail> {
    if store.is_stopped() {
        return Err(Fail::from("stopped"));
    }
    let mut group = store.begin_group(alloc);
    for value in values {
        if commit(alloc, &mut group, value) != Ok(Reply::Committed) {
            let (_store, _written) = group.sync();
            return Err(Fail::from("not committed"));
        }
    }
    let waited = group.waiting();
    let (store, written) = group.sync();
    Ok((store, waited, written.is_ok()))
}

/// Commits the value 1, and then those of the group, on a disk that is stopped at a call; 0 names no call.
fn live(alloc: Global, stop: u32) -> Result<Left, Fail> {
    let disk = MemDisk::with_capacity(alloc, CAPACITY, stop);
    let store = match open(alloc, disk)? {
        Ok(store) => store,
        Err(disk) => return Ok(Left {
            disk,
            acknowledged: 0,
        }),
    };
    if store.is_stopped() {
        return Err(Fail::from("stopped"));
    }
    let (store, _, first) = commit_together(alloc, store, 1..=1)?;
    if !first {
        return Ok(Left {
            disk: store.into_disk(),
            acknowledged: 0,
        });
    }
    let (store, waited, written) = commit_together(alloc, store, 2..=LAST)?;
    if waited != 8 {
        return Err(Fail::from("not all wait"));
    }
    Ok(Left {
        disk: store.into_disk(),
        acknowledged: if written { LAST } else { 1 },
    })
}

/// Returns the value that an opening finds on a disk; 0 if there is none.
fn find(alloc: Global, disk: MemDisk) -> Result<i64, Fail> {
    let Ok(mut store) = open(alloc, disk)? else {
        return Err(Fail::from("not opened"));
    };
    Ok(value(alloc, &mut store)?.unwrap_or(0))
}

/// Returns true if a crash may leave this value: none of the group or all of it, and all that was acknowledged.
fn is_prefix(found: i64, acknowledged: i64) -> bool {
    acknowledged <= found && (found <= 1 || found == LAST)
}

#[test]
fn eight_commits_make_four_calls(rt: HostRuntime) -> Result<(), Fail> {
    let alloc = rt.alloc();
    let calls = CALLS_BEFORE + CALLS_OF_GROUP;
    for stop in CALLS_BEFORE + 1..=calls + 1 {
        let acknowledged = if stop > calls { LAST } else { 1 };
        assert_eq!(rt;
            live(alloc, stop)?.acknowledged,
            acknowledged,
            "call {stop}"
        );
    }
    Ok(())
}

#[test]
fn a_crash_at_any_call_leaves_a_prefix(rt: HostRuntime) -> Result<(), Fail> {
    let alloc = rt.alloc();
    for stop in 1..=CALLS_BEFORE + CALLS_OF_GROUP + 1 {
        let Left { disk, acknowledged } = live(alloc, stop)?;
        let found = find(alloc, disk.left())?;
        assert!(rt;
            is_prefix(found, acknowledged),
            "call {stop}: {found} for {acknowledged}"
        );
    }
    Ok(())
}

/// Returns a disk with the bytes of a write of which the first `len` bytes of the disk were reached.
fn torn(alloc: Global, before: &[u8], after: &[u8], len: usize) -> Result<MemDisk, Fail> {
    let mut bytes = Vec::new(alloc);
    bytes.extend_from_slice(&after[..len.min(after.len())])?;
    bytes.extend_from_slice(&before[len.min(before.len())..])?;
    if bytes.len() as u64 > CAPACITY {
        return Err(Fail::from("too long"));
    }
    Ok(MemDisk::of(alloc, bytes, CAPACITY)?)
}

#[test]
fn a_write_that_is_torn_at_any_byte_leaves_a_prefix(rt: HostRuntime) -> Result<(), Fail> {
    let alloc = rt.alloc();
    for stop in CALLS_BEFORE + 1..=CALLS_BEFORE + CALLS_OF_GROUP {
        let before = live(alloc, stop)?;
        let after = live(alloc, stop + 1)?;
        for len in 0..=after.disk.bytes().len() {
            let disk = torn(alloc, before.disk.bytes(), after.disk.bytes(), len)?;
            let found = find(alloc, disk)?;
            assert!(rt;
                is_prefix(found, before.acknowledged),
                "call {stop}, byte {len}: {found} for {}",
                before.acknowledged
            );
        }
    }
    Ok(())
}

#[test]
fn a_group_has_the_bytes_of_its_commits_one_by_one(rt: HostRuntime) -> Result<(), Fail> {
    let alloc = rt.alloc();
    let Ok(mut store) = open(alloc, MemDisk::with_capacity(alloc, CAPACITY, 0))? else {
        return Err(Fail::from("not opened"));
    };
    for value in 1..=LAST {
        let (next, _, written) = commit_together(alloc, store, value..=value)?;
        store = next;
        assert!(rt; written);
    }
    let together = live(alloc, 0)?;
    assert_eq!(rt; store.disk().bytes(), together.disk.bytes());
    Ok(())
}

#[test]
fn two_halves_write_the_bytes_of_a_group(rt: HostRuntime) -> Result<(), Fail> {
    let alloc = rt.alloc();
    let Ok(store) = open(alloc, MemDisk::with_capacity(alloc, CAPACITY, 0))? else {
        return Err(Fail::from("not opened"));
    };
    let (mut queue, mut journal) = store.split(alloc);
    for value in 1..=LAST {
        assert_eq!(rt; commit_in(alloc, &mut queue, value), Ok(Reply::Committed));
        if value == 1 || value == LAST {
            if journal.is_stopped() {
                return Err(Fail::from("stopped"));
            }
            let commits = queue.take(alloc);
            assert!(rt; write_commits(alloc, &mut journal, &commits).is_ok());
        }
    }
    let together = live(alloc, 0)?;
    assert_eq!(rt; journal.disk().bytes(), together.disk.bytes());
    Ok(())
}
