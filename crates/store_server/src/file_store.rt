//! A store in a file, opened and shared in one call.

ghost use Rattle.std.specs.Prelude.{◌≡◌, ◌⊎◌, ◌<◌, ◌≤◌, ◌^◌, All, map, IfOk, IsErrOf};
ghost use Rattle.teb_rules.specs.history.Phases.{numbers};
ghost use Rattle.shared_store.specs.Sharing.{base_of, IsNew, number_of};
ghost use Rattle.store_server.specs.Opened.{IsOpened};
ghost use Rattle.store_server.specs.Refused.{IsFileRefused};
ghost use Rattle.store_server.specs.declared.error.OpenStoreError.{OpenStoreError as TheOpenError};
ghost use Rattle.store_server.specs.declared.error.OpenFileError.TheVariants as errors;

use crate::error::OpenFileError;
use crate::server::StoreServer;
use file_disk::FileDisk;
use shared_store::{Store, StoreSession};
use std::alloc::Global;
use std::fs::{File, Files};
use teb_rules::names::SESSIONS;

/// The server of a store in a file.
pub type FileServer = StoreServer<FileDisk>;

/// A file has fewer bytes than this.
const MOST_BYTES: u64 = 1 << 40;

/// Opens the store in a file under a tree text and shares it: returns the store, and the sessions 1 to `SESSIONS` in order. A file that is
/// not there is made. It is locked until `Store::close` has returned the log, and that is dropped.
///
/// `capacity` is the number of bytes that the file may have, 1 to 2^40 - 1. It is fixed when the store is made. Each half of it has to
/// hold all rows and the commits of one epoch.
///
/// # Errors
/// `BadCapacity` if the capacity is out of range; no file is touched. `File` if the file is in use, has more bytes than the capacity, or
/// cannot be opened, locked, read or synced, or memory is out; it is unchanged. `Store` if the tree text is refused, the file is no
/// store under these tables, a call on it fails, or memory is out; see `StoreServer::open`. `OutOfMemory` if there is no memory for the
/// sessions. After each error the file is unlocked, and may be opened again.
pub fn open_file<R: Files<File = File>>(
    rt: &R,
    alloc: Global,
    path: &str,
    capacity: u64,
    tree: Vec<u8>,
) -> Result<(Store<FileServer>, Vec<StoreSession<FileServer>>), OpenFileError>
    ensures opened { IfOk result (λ r. IsOpened capacity tree.items (base_of r.0)) }
    ensures sessions { IfOk result (λ r. All (IsNew r.0) r.1.items) }
    ensures numbers { IfOk result (λ r. map number_of r.1.items ≡ numbers SESSIONS) }
    ensures out_of_range { (capacity ≡ 0) ⊎ (2 ^ 40 ≤ capacity) → IsErrOf result errors.BadCapacity }
    ensures range { 0 < capacity → capacity < 2 ^ 40 → IsErrOf result errors.BadCapacity → ⊥ }
    ensures not_opened { (why : TheOpenError) → IsErrOf result (errors.Store why) → ∥ IsFileRefused capacity tree.items why ∥₁ }
{
    if capacity == 0 || MOST_BYTES <= capacity {
        return Err(OpenFileError::BadCapacity);
    }
    let disk = match FileDisk::open_with_capacity(rt, alloc, path, capacity) {
        Ok(disk) => disk,
        Err(why) => return Err(OpenFileError::File(why)),
    };
    let (server, log) = match StoreServer::open(alloc, disk, tree) {
        Ok(halves) => halves,
        Err(refused) => return Err(OpenFileError::Store(refused.why)),
    };
    match Store::new(alloc, server, log) {
        Ok(shared) => Ok(shared),
        Err(_halves) => Err(OpenFileError::OutOfMemory),
    }
}
