//! How a store is opened and closed.

ghost use Rattle.std.specs.Prelude.{◌≡◌, ◌≢◌, ◌↔◌, Err, None, IsSome, IfOk, IfErr};
ghost use Rattle.tree_toml.specs.SetupText.{setup_of_text};
ghost use Rattle.tree_toml.specs.declared.fault.TreeTextError.TheVariants as faults;
ghost use Rattle.tebaldi_c.specs.Asking.{IfOpen};
ghost use Rattle.tebaldi_c.specs.Buffers.{IsTold};
ghost use Rattle.tebaldi_c.specs.Opening.{IsNewOf, fault_line};

use crate::buffers::lay_over;
use crate::contents::Contents;
use crate::shelf::Shelf;
use crate::status::{BAD_TREE, IS_OPEN, OK, OUT_OF_MEMORY};
use crate::store::StoreHandle;
use chain_pool::PooledChains;
use engine_core::Engine;
use std::alloc::Global;
use tree_toml::{TreeTextError, put_fault, read_tree};

/// Room for this many events is made at the opening, so that their list need not move while they come. Room that is never written costs no
/// memory.
const EVENTS_AHEAD: usize = 16_384;

/// Opens the store of a tree text.
///
/// # Errors
/// `IS_OPEN` if the store is open. `BAD_TREE` if the text has a fault: as much of its line as fits is copied to `fault`, and
/// `fault_len` is the length of the line. `OUT_OF_MEMORY`. At each of them the store is unchanged.
#[unsafe(no_mangle)]
pub extern "C" fn tebaldi_open(
    alloc: Global,
    store: &mut StoreHandle,
    tree: &[u8],
    fault: &mut [u8],
    fault_len: &mut usize,
) -> u32
    ensures ok { result ≡ OK → IfOpen store.new.held.value (IsNewOf (setup_of_text tree.now)) }
    ensures is_open { result ≡ IS_OPEN ↔ IsSome store.old.held.value }
    ensures stays { result ≢ OK → store.new.held.value ≡ store.old.held.value }
    ensures bad_tree { result ≡ BAD_TREE → IsTold (fault_line (setup_of_text tree.now)) fault.old fault.new fault_len.new }
    ensures no_fault { result ≢ BAD_TREE → (fault.new ≡ fault.old) × (fault_len.new ≡ fault_len.old) }
    ensures other { result ≢ OK → result ≢ IS_OPEN → result ≢ BAD_TREE → result ≡ OUT_OF_MEMORY }
{
    if let Some(shelf) = store.take(alloc) {
        store.put(shelf);
        return IS_OPEN;
    }
    match shelf_of(alloc, tree) {
        Ok(shelf) => {
            store.put(shelf);
            OK
        }
        Err(why) => tell(alloc, &why, fault, fault_len),
    }
}

/// Closes a store, and frees its memory. A closed store stays closed.
#[unsafe(no_mangle)]
pub extern "C" fn tebaldi_close(alloc: Global, store: &mut StoreHandle)
    ensures { store.new.held.value ≡ None }
{
    let _shelf = store.take(alloc);
}

/// Returns the store of a tree text, with room for its first answers.
fn shelf_of(alloc: Global, tree: &[u8]) -> Result<Box<Shelf>, TreeTextError>
    ensures ok { IfOk result (λ b. IsNewOf (setup_of_text tree.now) b.value) }
    ensures err { IfErr result (λ why. why ≢ faults.OutOfMemory → setup_of_text tree.now ≡ Err why) }
{
    let setup = read_tree(alloc, tree)?;
    let mut engine = Engine::new(alloc, setup, PooledChains::new(alloc))?;
    engine.reserve_ahead(EVENTS_AHEAD)?;
    engine.ready()?;
    let shelf = Box::new(
        alloc,
        Shelf {
            contents: Contents::Memory(engine),
        },
    )?;
    Ok(shelf)
}

/// Copies as much of the line of a fault as fits, and returns the status.
pub fn tell(alloc: Global, why: &TreeTextError, fault: &mut [u8], fault_len: &mut usize) -> u32
    ensures told { result ≡ BAD_TREE → (why.now ≢ faults.OutOfMemory) × IsTold (fault_line (Err why.now)) fault.old fault.new fault_len.new }
    ensures other { result ≢ BAD_TREE → (result ≡ OUT_OF_MEMORY) × (fault.new ≡ fault.old) × (fault_len.new ≡ fault_len.old) }
{
    if matches!(why, TreeTextError::OutOfMemory) {
        return OUT_OF_MEMORY;
    }
    let mut line = Vec::new(alloc);
    if put_fault(&mut line, why).is_err() {
        return OUT_OF_MEMORY;
    }
    *fault_len = lay_over(fault, &line);
    BAD_TREE
}
