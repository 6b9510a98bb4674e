//! A store on a disk in memory that fails at each of its calls, and is opened again.

use crate::life::{COMMITS, Lived, live, open, value};
use crash_disk::MemDisk;
use std::test::Fail;

/// How many bytes each disk can hold.
const CAPACITY: u64 = 313;

/// How many calls a life makes.
const CALLS: u32 = 26;

#[test]
fn a_store_that_fails_at_any_call_is_opened_again(rt: HostRuntime) -> Result<(), Fail> {
    let alloc = rt.alloc();
    for stop in 1..=CALLS + 1 {
        let Lived { disk, answered } = live(alloc, MemDisk::with_capacity(alloc, CAPACITY, stop))?;
        assert!(rt;
            (answered == COMMITS) == (stop > CALLS),
            "call {stop}: {}",
            answered
        );
        let Ok(mut store) = open(alloc, disk.left())? else {
            return Err(Fail::from("not opened"));
        };
        let found = value(alloc, &mut store)?.unwrap_or(0);
        let further = found.saturating_sub(answered);
        assert!(rt;
            further == 0 || further == 1,
            "call {stop}: {found} for {answered}"
        );
    }
    Ok(())
}
