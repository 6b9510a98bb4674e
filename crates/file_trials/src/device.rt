//! A file as a disk: what it keeps, and what is a fault.

ghost use Rattle.std.specs.Prelude.{◌≡◌, ◌≤◌, OnOk};
ghost use Rattle.crash_disk.specs.Disk.{Only};

use crash_disk::{Disk, Renew};
use file_disk::{FileDisk, OpenError};
use std::fs;
use std::test::Fail;
use teb_io::Failed;

#[test]
fn a_file_keeps_what_was_synced(rt: HostRuntime) -> Result<(), Fail> {
    let (alloc, path) = (rt.alloc(), "file_trials_device");
    let _ = fs::remove_file(&rt, path);
    let mut disk = FileDisk::open(&rt, alloc, path)?;
    disk.write_at(3, b"abc")?;
    disk.sync()?;
    assert!(rt; matches!(FileDisk::open(&rt, alloc, path), Err(OpenError::Busy)));
    drop(disk);
    let mut disk = FileDisk::open(&rt, alloc, path)?;
    let mut back = [9; 8];
    assert_eq!(rt; disk.len()?, 6);
    assert_eq!(rt; disk.read_at(1, &mut back)?, 5);
    assert_eq!(rt; back, *b"\0\0abc\x09\x09\x09");
    assert_eq!(rt; disk.read_at(6, &mut back)?, 0);
    fs::write(&rt, path, b"other!".as_slice())?;
    assert!(rt; disk.read_at(1, &mut back).is_err());
    assert!(rt; disk.sync().is_err());
    drop(disk);
    fs::write(&rt, path, vec![in alloc; 0u8; 1_048_577]?.as_slice())?;
    assert!(rt;
        matches!(
            FileDisk::open(&rt, alloc, path),
            Err(OpenError::TooLong {
                capacity: 1_048_576
            })
        )
    );
    fs::remove_file(&rt, path)?;
    assert!(rt;
        matches!(
            FileDisk::open(&rt, alloc, "/dev/null"),
            Err(OpenError::NotRegular)
        )
    );
    Ok(())
}

/// Writes 300 pages at the same place, a megabyte from the front, and syncs.
fn write_pages(disk: &mut FileDisk, byte: u8) -> Result<(), Failed>
    requires room { 1052672 ≤ ⟦<FileDisk as Disk>⟧.capacity disk.old }
    ensures capacity { ⟦<FileDisk as Disk>⟧.capacity disk.new ≡ ⟦<FileDisk as Disk>⟧.capacity disk.old }
    ensures safe { OnOk result (Only (⟦<FileDisk as Disk>⟧.seen disk.new) (⟦<FileDisk as Disk>⟧.may_leave disk.new)) }
{
    let page = [byte; 4096];
    for _ in 0..300 {
        disk.write_at(1_048_576, &page)?;
    }
    disk.sync()
}

#[test]
fn a_file_that_is_renewed_never_wears_out(rt: HostRuntime) -> Result<(), Fail> {
    let (alloc, path) = (rt.alloc(), "file_trials_wear");
    let _ = fs::remove_file(&rt, path);
    let mut disk = FileDisk::open_with_capacity(&rt, alloc, path, 4_294_967_296)?;
    for byte in 1..4 {
        write_pages(&mut disk, byte)?;
        let Ok(renewed) = disk.renew(alloc) else {
            return Err(Fail::from("out of memory"));
        };
        disk = renewed;
    }
    let mut back = [9; 3];
    assert_eq!(rt; disk.len()?, 1_052_672);
    assert_eq!(rt; disk.read_at(1_048_575, &mut back)?, 3);
    assert_eq!(rt; back, [0, 3, 3]);
    fs::remove_file(&rt, path)?;
    Ok(())
}
