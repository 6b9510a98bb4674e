//! How a store is opened over the bytes of a file.

ghost use Rattle.std.specs.Prelude.{◌≡◌, ◌≢◌, ◌↔◌, ◌⊎◌, ◌<◌, ◌≤◌, [], false, length, IsSome, IfOk, IfErr};
ghost use Rattle.store_setup.specs.SetupView.{setup_view};
ghost use Rattle.store_setup.specs.Sound.{HasNames, IsNamed, IsWhole};
ghost use Rattle.tree_toml.specs.SetupText.{setup_of_text};
ghost use Rattle.engine_store.specs.declared.open_error.OpenError.TheVariants as errors;
ghost use Rattle.tebaldi_c.specs.Asking.{IfOpen};
ghost use Rattle.tebaldi_c.specs.Buffers.{IsTold};
ghost use Rattle.tebaldi_c.specs.Images.{IsReopened, IsReopenedOf, IfFiled, IsFault, IsFaultOf, IsOfImage, file_capacity};
ghost use Rattle.tebaldi_c.specs.Shelves.{DoesNotFail, calls, next_place};
ghost use Rattle.tebaldi_c.specs.Opening.{fault_line};

use crate::contents::Contents;
use crate::filed::FileStore;
use crate::opening::tell;
use crate::shelf::Shelf;
use crate::status::{
    BAD_TREE, DAMAGED, IS_OPEN, NO_ROOM, OK, OTHER_CAPACITY, OTHER_TABLES, OUT_OF_MEMORY, TOO_LONG,
};
use crate::store::StoreHandle;
use chain_pool::PooledChains;
use crash_disk::MemDisk;
use engine_store::{EngineStore, OpenError};
use grouped_store::GroupedStore;
use std::alloc::Global;
use store_setup::Setup;
use tree_toml::read_tree;

/// How many bytes a file can have.
const FILE_CAPACITY: u64 = 67_108_864;

/// Opens the store that the bytes of a file are, under a tree text with its tables, or begins one if there are no bytes. The rows of the
/// text count only if the bytes have none. The calls of the opening wait then, and the caller performs them before it asks anything.
///
/// # Errors
/// `IS_OPEN`; `BAD_TREE` as in `tebaldi_open`; `TOO_LONG` if there are more than 67,108,864 bytes; `DAMAGED` if they are no store, or a
/// damaged one: `place` is where; `OTHER_CAPACITY`; `OTHER_TABLES`; `NO_ROOM`; `OUT_OF_MEMORY`. At each of them the store is unchanged.
#[unsafe(no_mangle)]
pub extern "C" fn tebaldi_open_image(
    alloc: Global,
    store: &mut StoreHandle,
    image: &[u8],
    tree: &[u8],
    fault: &mut [u8],
    fault_len: &mut usize,
    place: &mut u64,
) -> u32
    ensures ok { result ≡ OK → IfOpen store.new.held.value (IsReopenedOf (setup_of_text tree.now) image.now) }
    ensures is_open { result ≡ IS_OPEN ↔ IsSome store.old.held.value }
    ensures stays { result ≢ OK → store.new.held.value ≡ store.old.held.value }
    ensures bad_tree { result ≡ BAD_TREE → IsTold (fault_line (setup_of_text tree.now)) fault.old fault.new fault_len.new }
    ensures no_fault { result ≢ BAD_TREE → (fault.new ≡ fault.old) × (fault_len.new ≡ fault_len.old) }
    ensures no_place { result ≢ DAMAGED → place.new ≡ place.old }
    ensures too_long { result ≡ TOO_LONG → file_capacity < length image.now }
    ensures damaged { result ≡ DAMAGED → IsFaultOf (setup_of_text tree.now) image.now (errors.Damaged place.new) }
    ensures other_capacity { result ≡ OTHER_CAPACITY → IsFaultOf (setup_of_text tree.now) image.now errors.OtherCapacity }
    ensures other_tables { result ≡ OTHER_TABLES → IsFaultOf (setup_of_text tree.now) image.now errors.OtherTables }
    ensures no_room { result ≡ NO_ROOM → IsFaultOf (setup_of_text tree.now) image.now errors.Full }
    ensures other { (result ≡ OK) ⊎ (result ≡ IS_OPEN) ⊎ (result ≡ BAD_TREE) ⊎ IsOfImage result }
{
    if let Some(shelf) = store.take(alloc) {
        store.put(shelf);
        return IS_OPEN;
    }
    if image.len() as u64 > FILE_CAPACITY {
        return TOO_LONG;
    }
    let setup = match read_tree(alloc, tree) {
        Ok(setup) => setup,
        Err(why) => return tell(alloc, &why, fault, fault_len),
    };
    match shelf_of(alloc, image, setup) {
        Ok(shelf) => {
            store.put(shelf);
            OK
        }
        Err(why) => tell_why(why, place),
    }
}

/// Tells where bytes are damaged, if they are, and returns the status.
fn tell_why(why: OpenError, place: &mut u64) -> u32
    ensures place { result ≢ DAMAGED → place.new ≡ place.old }
    ensures status { (result ≢ TOO_LONG) × IsOfImage result }
    ensures damaged { result ≡ DAMAGED → why ≡ errors.Damaged place.new }
    ensures other_capacity { result ≡ OTHER_CAPACITY → why ≡ errors.OtherCapacity }
    ensures other_tables { result ≡ OTHER_TABLES → why ≡ errors.OtherTables }
    ensures no_room { result ≡ NO_ROOM → why ≡ errors.Full }
{
    match why {
        OpenError::Full => NO_ROOM,
        OpenError::Damaged { at } => {
            *place = at;
            DAMAGED
        }
        OpenError::OtherCapacity => OTHER_CAPACITY,
        OpenError::OtherTables => OTHER_TABLES,
        OpenError::DiskFault | OpenError::OutOfMemory => OUT_OF_MEMORY,
    }
}

/// Returns the store of some bytes under a setup.
#[tactic(auto, using(crate::proofs::SetUps::set_up_reopened))]
fn shelf_of(alloc: Global, image: &[u8], setup: Setup) -> Result<Box<Shelf>, OpenError>
    requires whole { IsWhole (setup_view setup) }
    requires nodes { IsNamed (setup_view setup) }
    requires names { HasNames (setup_view setup) }
    requires fits { length image.now ≤ file_capacity }
    ensures ok { IfOk result (λ b. IfFiled b.value (IsReopened (setup_view setup) image.now)) }
    ensures refused { IfErr result (IsFault (setup_view setup) image.now) }
{
    let file = FileStore::open(alloc, image, setup)?;
    let contents = Contents::File(file);
    match Box::new(alloc, Shelf { contents }) {
        Ok(shelf) => Ok(shelf),
        Err(_) => Err(OpenError::OutOfMemory),
    }
}

impl FileStore {
    /// Opens the store that some bytes are under a setup. The calls of the opening wait.
    ///
    /// # Errors
    /// Those of `EngineStore::open`. Its disk fails only if memory is out.
    fn open(alloc: Global, image: &[u8], setup: Setup) -> Result<FileStore, OpenError>
        requires whole { IsWhole (setup_view setup) }
        requires fits { length image.now ≤ file_capacity }
        ensures ok { IfOk result (IsReopened (setup_view setup) image.now) }
        ensures refused { IfErr result (IsFault (setup_view setup) image.now) }
    {
        let bytes = Vec::from_slice(alloc, image)?;
        let disk = MemDisk::of(alloc, bytes, FILE_CAPACITY)?;
        let before = disk.call_count();
        match EngineStore::open(alloc, disk, setup, PooledChains::new(alloc)) {
            Ok(store) => Ok(FileStore::begun(alloc, store, before)),
            Err(back) => Err(back.why),
        }
    }

    /// Returns the store with the calls after the first `before` ones waiting.
    fn begun(alloc: Global, store: EngineStore<PooledChains, MemDisk>, before: usize) -> FileStore
        requires acknowledged { store.journal.acknowledged ≡ 0 }
        requires events { store.engine.events ≡ [] }
        requires disk { DoesNotFail store.journal.disk }
        ensures engine { result.engine ≡ store.engine }
        ensures journal { result.file.journal ≡ store.journal }
        ensures place { before ≤ length (calls result.file) → next_place result.file ≡ before }
        ensures running { result.file.failed ≡ false }
    {
        let store = GroupedStore::of(alloc, store);
        let noted = store.disk().byte_count();
        let waiting = store.disk().call_count().saturating_sub(before);
        FileStore {
            store,
            waiting,
            opened: waiting == 0,
            kept: 0,
            failed: false,
            noted,
        }
    }
}
