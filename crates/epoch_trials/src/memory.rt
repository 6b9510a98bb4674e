//! A disk in memory that is stopped at each of its calls, and opened again.

use crate::life::{CALLS, CAPACITY, Lived, find, live};
use crash_disk::MemDisk;
use std::alloc::Global;
use std::test::Fail;

/// Returns the result of a life on a disk in memory that fails from the call `stop` on; 0 names no call.
///
/// # Errors
/// That of `live`.
pub fn live_until(alloc: Global, stop: u32) -> Result<Lived<MemDisk>, Fail> {
    live(alloc, MemDisk::with_capacity(alloc, CAPACITY, stop))
}

/// Returns a disk with these bytes.
fn disk_of(alloc: Global, bytes: Vec<u8>) -> Result<MemDisk, Fail> {
    if bytes.len() as u64 > CAPACITY {
        return Err(Fail::from("too long"));
    }
    Ok(MemDisk::of(alloc, bytes, CAPACITY)?)
}

/// Returns whether the rows found are those after the acknowledged records, or after one more.
pub fn is_prefix(found: Option<u32>, acknowledged: u32) -> bool {
    match found {
        Some(count) => acknowledged <= count && count - acknowledged <= 1,
        None => false,
    }
}

#[test]
fn a_disk_that_fails_at_any_call_is_opened_again(rt: HostRuntime) -> Result<(), Fail> {
    let alloc = rt.alloc();
    for stop in 1..=CALLS + 1 {
        let Lived {
            disk,
            acknowledged,
            whole,
        } = live_until(alloc, stop)?;
        assert_eq!(rt; whole, stop > CALLS, "call {stop}");
        let found = find(alloc, disk.left());
        assert!(rt;
            is_prefix(found, acknowledged),
            "call {stop}: {found:?} for {acknowledged}"
        );
    }
    Ok(())
}

/// Returns the bytes after a write that reached only the first `len` bytes of the disk.
fn torn(alloc: Global, before: &[u8], after: &[u8], len: usize) -> Result<Vec<u8>, Fail> {
    let mut bytes = Vec::new(alloc);
    bytes.extend_from_slice(&after[..len.min(after.len())])?;
    bytes.extend_from_slice(&before[len.min(before.len())..])?;
    Ok(bytes)
}

#[test]
fn a_write_that_is_torn_at_any_byte_does_no_harm(rt: HostRuntime) -> Result<(), Fail> {
    let alloc = rt.alloc();
    for stop in 1..=CALLS {
        let before = live_until(alloc, stop)?;
        let after = live_until(alloc, stop + 1)?;
        for len in 0..=after.disk.bytes().len() {
            let bytes = torn(alloc, before.disk.bytes(), after.disk.bytes(), len)?;
            let found = find(alloc, disk_of(alloc, bytes)?);
            assert!(rt;
                is_prefix(found, before.acknowledged),
                "call {stop}, byte {len}: {found:?} for {}",
                before.acknowledged
            );
        }
    }
    Ok(())
}

#[test]
fn a_disk_has_these_bytes(rt: HostRuntime) -> Result<(), Fail> {
    let alloc = rt.alloc();
    // The first opening makes ten calls, and the first record four.
    let lived = live_until(alloc, 15)?;
    let want = b"\x01TEB1\0\0\0\0\0\0\x01\x39\0\0\0\x02t\n\
        \x01\0\0\0\x02\0\0\0\0\x63\x01\0\0\0\0\0\0\0\x01\0\0\0\0\0\x01\0\0\0\0\0\0\0\0\
        \x01\0\0\0\x02\0\0\0\0\0\0\0\0\0\0\0\0\0\0\0\0\0\0\x01\x01\0\0\0\0\0\0\0\x01\0";
    assert_eq!(rt; lived.disk.bytes(), want.as_slice());
    Ok(())
}
