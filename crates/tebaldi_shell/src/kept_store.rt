//! The store on a disk, as the shell asks it.

ghost use Rattle.std.specs.Prelude.{◌≡◌, ◌≢◌};
ghost use Rattle.tebaldi_shell.specs.Kept.{IsEpochError};

use chain_pool::PooledChains;
use crash_disk::Renew;
use engine_store::{EngineStore, NextError, NotNext};
use epoch_store::AskError;
use serial_order::{order, tables};
use shell_lines::StoreReply;
use shell_runner::{EpochError, ShellStore};
use std::alloc::{AllocError, Global};
use std::marker::Model;
use store_setup::Setup;
use teb_rules::history::History;
use teb_rules::names::{Cell, NameBook, Request, Session, Txn};

/// A store on a disk. Contracts see what they see of an `EngineStore`.
#[derive(Drop)]
pub struct KeptStore<D: Renew + Drop> {
    store: EngineStore<PooledChains, D>,
}

impl<D: Renew + Drop> Model for KeptStore<D> {
    ghost use Rattle.tebaldi_shell.specs.Kept.{KeptModel};

    ghost Value = { KeptModel D };

    ghost view = { λ s. s.store };
}

impl<D: Renew + Drop> KeptStore<D> {
    /// Wraps a store.
    pub fn new(store: EngineStore<PooledChains, D>) -> KeptStore<D>
        ensures { result ≡ store }
    {
        KeptStore { store }
    }
}

impl<D: Renew + Drop> ShellStore for KeptStore<D> {
    ghost use Rattle.tebaldi_shell.specs.Kept.{IsSafe, stored_of};

    ghost stored = { stored_of };

    ghost safe = { IsSafe D.seen D.faults D.moment D.left_since };

    fn names(&self) -> &NameBook {
        &self.store.engine().setup().names
    }

    fn history(&self) -> &History {
        let engine = self.store.engine();
        // Its contract tells that the setup is whole: each node and table in the events has a name.
        let _setup = engine.setup();
        engine.history()
    }

    fn setup(&self) -> &Setup {
        self.store.engine().setup()
    }

    fn commits(&self) -> u64 {
        self.store.acknowledged()
    }

    fn left(&self) -> u64 {
        self.store.left()
    }

    fn rows(&self, alloc: Global) -> Result<Vec<(Cell, i64)>, AllocError> {
        let engine = self.store.engine();
        // Their contracts tell that some requests lead to the history, and that the setup is whole: each table in the rows has a name.
        let (_history, _setup) = (engine.history(), engine.setup());
        tables(alloc, engine)
    }

    fn order(&self, alloc: Global) -> Result<Vec<Txn>, AllocError> {
        order(alloc, self.store.engine())
    }

    fn ask(
        &mut self,
        alloc: Global,
        session: Session,
        request: Request,
    ) -> Result<StoreReply, AllocError> {
        let engine = self.store.engine();
        // Their contracts tell that some requests lead to the history, and that each table has a name: so has all that a reply names.
        let (_history, _setup) = (engine.history(), engine.setup());
        match self.store.ask(alloc, session, request) {
            Ok(reply) => Ok(StoreReply::Reply(reply)),
            Err(AskError::Full) => Ok(StoreReply::Full),
            Err(AskError::Unsure) => Ok(StoreReply::Unsure),
            Err(AskError::OutOfMemory) => Err(AllocError),
            Err(AskError::Stopped) => unreachable!(),
        }
    }

    fn next_epoch(self, alloc: Global, setup: Setup) -> (Self, Result<(), EpochError>) {
        match self
            .store
            .next_epoch(alloc, setup, PooledChains::new(alloc))
        {
            Ok((store, _past)) => (KeptStore { store }, Ok(())),
            Err(NotNext { store, why }) => (KeptStore { store }, Err(epoch_error(why))),
        }
    }
}

/// Returns the error for the shell. The store runs, and its tables stay the same.
fn epoch_error(why: NextError) -> EpochError
    requires running { why ≢ NextError.Stopped }
    requires tables { why ≢ NextError.OtherTables }
    ensures { IsEpochError why result }
{
    match why {
        NextError::Again(txn) => EpochError::Unfinished(txn),
        NextError::Untold(session) => EpochError::Untold(session),
        NextError::Full => EpochError::Full,
        NextError::DiskFault => EpochError::DiskFault,
        NextError::OutOfMemory => EpochError::OutOfMemory,
        NextError::Stopped | NextError::OtherTables => unreachable!(),
    }
}
