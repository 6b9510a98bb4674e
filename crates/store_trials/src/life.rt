//! The life of a store: two commits, the next epoch, and one more.

use crash_disk::MemDisk;
use engine_store::EngineStore;
use epoch_store::AskError;
use std::alloc::Global;
use std::test::Fail;
use teb_rules::names::{Cell, Kind, Reply, Request, Session, Spot, Table};
use tree_toml::read_tree;
use version_chain::PlainChains;

/// A store on a disk in memory.
pub type TrialStore = EngineStore<PlainChains, MemDisk>;

/// How many commits a life has.
pub const COMMITS: i64 = 3;

/// The cell of each commit.
pub const CELL: Cell = Cell {
    table: Table(0),
    key: 1,
};

/// The result of a life: the disk, and how many commits were answered.
#[derive(Drop)]
pub struct Lived {
    pub disk: MemDisk,
    pub answered: i64,
}

/// Opens the store of the plain tree on a disk. The inner result is the disk if it is not opened.
///
/// # Errors
/// A `Fail` if the plain tree is not read: out of memory.
pub fn open(alloc: Global, disk: MemDisk) -> Result<Result<TrialStore, MemDisk>, Fail> {
    let setup = read_tree(alloc, &[])?;
    Ok(
        match EngineStore::open(alloc, disk, setup, PlainChains::new(alloc)) {
            Ok(store) => Ok(store),
            Err(refused) => Err(refused.disk),
        },
    )
}

/// Makes one request in a separate transaction, and returns the reply to it.
fn ask_alone(alloc: Global, store: &mut TrialStore, request: Request) -> Result<Reply, AskError> {
    let begin = Request::Begin(Spot {
        kind: Kind(0),
        instance: 0,
    });
    let _ = store.ask(alloc, Session(1), begin)?;
    let reply = store.ask(alloc, Session(1), request)?;
    let _ = store.ask(alloc, Session(1), Request::Commit)?;
    Ok(reply)
}

/// Returns the committed value.
///
/// # Errors
/// Those of `EngineStore::ask`.
pub fn value(alloc: Global, store: &mut TrialStore) -> Result<Option<i64>, AskError> {
    match ask_alone(alloc, store, Request::Read(CELL))? {
        Reply::Value(value) => Ok(value),
        _ => Ok(None),
    }
}

/// Commits the values 1, 2 and 3, the last one in the next epoch, until a call fails.
///
/// # Errors
/// A `Fail` if the plain tree is not read, or if the store is stopped before its next epoch.
pub fn live(alloc: Global, disk: MemDisk) -> Result<Lived, Fail> {
    let mut store = match open(alloc, disk)? {
        Ok(store) => store,
        Err(disk) => return Ok(Lived { disk, answered: 0 }),
    };
    for answered in 0..COMMITS - 1 {
        let write = Request::Write(CELL, answered + 1);
        if ask_alone(alloc, &mut store, write).is_err() {
            return Ok(Lived {
                disk: store.into_disk(),
                answered,
            });
        }
    }
    live_on(alloc, store)
}

/// Commits the last value in the next epoch, unless a call fails.
fn live_on(alloc: Global, store: TrialStore) -> Result<Lived, Fail> {
    if store.is_stopped() {
        return Err(Fail::from("stopped"));
    }
    let setup = read_tree(alloc, &[])?;
    let mut store = match store.next_epoch(alloc, setup, PlainChains::new(alloc)) {
        Ok((store, _past)) => store,
        Err(refused) => {
            return Ok(Lived {
                disk: refused.store.into_disk(),
                answered: COMMITS - 1,
            });
        }
    };
    let answered = match ask_alone(alloc, &mut store, Request::Write(CELL, COMMITS)) {
        Ok(_) => COMMITS,
        Err(_) => COMMITS - 1,
    };
    Ok(Lived {
        disk: store.into_disk(),
        answered,
    })
}
