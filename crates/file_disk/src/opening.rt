//! Opening a file as a disk.

ghost use Rattle.std.specs.Prelude.{◌≡◌, ◌≤◌, ◌<◌, ◌^◌, length, IfOk};
ghost use Rattle.crash_disk.specs.Sizes.{default_capacity};
ghost use Rattle.crash_disk.specs.Log.{contents, MayLeave};
ghost use Rattle.crash_disk.specs.Disk.{Only};

use crate::faults::Faults;
use crate::reads::read_whole;
use crate::{FileDisk, OpenError};
use crash_disk::{DEFAULT_CAPACITY, MemDisk};
use std::alloc::Global;
use std::fs::{File, Files, OpenOptions, TryLockError};
use std::io;
use std::path::Path;

impl FileDisk {
    /// Opens a file as a disk of `DEFAULT_CAPACITY` bytes; see `open_with_capacity`.
    ///
    /// # Errors
    /// Those of `open_with_capacity`.
    pub fn open<R: Files<File = File>>(
        rt: &R,
        alloc: Global,
        path: &str,
    ) -> Result<FileDisk, OpenError>
        ensures safe { IfOk result (λ disk. Only (contents disk.mirror.log.steps) (MayLeave disk.mirror.log.steps)) }
        ensures capacity { IfOk result (λ disk. disk.mirror.capacity ≡ default_capacity) }
        ensures faults { IfOk result (λ disk. disk.faults.count ≡ 0) }
        ensures refusals { IfOk result (λ disk. disk.mirror.counter.refusals ≡ 0) }
    {
        FileDisk::open_with_capacity(rt, alloc, path, DEFAULT_CAPACITY)
    }

    /// Opens a file as a disk that can hold `capacity` bytes, or makes an empty one, and locks it. Its contents are made safe,
    /// and its name in its folder too. The file is as long as what was written. Its bytes are also kept in memory.
    ///
    /// # Errors
    /// `NotRegular`: it is no regular file. `Busy`: it is locked. `TooLong`: it has more than `capacity` bytes. `Io`: it cannot be
    /// opened, locked, read or synced. `OutOfMemory`: out of memory. A file that was there is unchanged.
    pub fn open_with_capacity<R: Files<File = File>>(
        rt: &R,
        alloc: Global,
        path: &str,
        capacity: u64,
    ) -> Result<FileDisk, OpenError>
        requires some { 0 < capacity }
        requires small { capacity < 2 ^ 40 }
        ensures safe { IfOk result (λ disk. Only (contents disk.mirror.log.steps) (MayLeave disk.mirror.log.steps)) }
        ensures capacity { IfOk result (λ disk. disk.mirror.capacity ≡ capacity) }
        ensures faults { IfOk result (λ disk. disk.faults.count ≡ 0) }
        ensures refusals { IfOk result (λ disk. disk.mirror.counter.refusals ≡ 0) }
    {
        let file = OpenOptions::new()
            .read(true)
            .write(true)
            .create(true)
            .open(rt, path)?;
        require_regular(&file)?;
        lock(&file)?;
        let bytes = read_whole(alloc, &file, capacity)?;
        file.sync_all()?;
        sync_folder(rt, path)?;
        let mirror = MemDisk::of(alloc, bytes, capacity)?;
        Ok(FileDisk {
            file,
            mirror,
            faults: Faults::none(),
        })
    }
}

/// Refuses what is no regular file. A device has no length, so a store in it would seem to be new at each opening.
fn require_regular(file: &File) -> Result<(), OpenError> {
    if file.metadata()?.is_file() {
        Ok(())
    } else {
        Err(OpenError::NotRegular)
    }
}

/// Locks a file that is not locked yet. The error is `Busy` if it is locked, and otherwise `Io`.
fn lock(file: &File) -> Result<(), OpenError> {
    match file.try_lock() {
        Ok(()) => Ok(()),
        Err(TryLockError::WouldBlock) => Err(OpenError::Busy),
        Err(TryLockError::Error(error)) => Err(OpenError::Io(error)),
    }
}

/// Makes the names in the folder of a path safe.
fn sync_folder<R: Files<File = File>>(rt: &R, path: &str) -> io::Result<()> {
    let folder = match Path::new(path).parent() {
        Some(folder) if !folder.as_str().is_empty() => folder,
        _ => Path::new("."),
    };
    File::open(rt, folder)?.sync_all()
}
