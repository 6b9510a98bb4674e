//! What a shared store serves.

ghost use Rattle.std.specs.Prelude.{◌≡◌, ◌⊎◌, List, true, false, IfOk, IsErrOf, Ok};
ghost use Rattle.std.proofs.Props.{props};
ghost use Rattle.teb_rules.specs.declared.history.Event.{Event};
ghost use Rattle.teb_rules.specs.history.Phases.{begun_count};
ghost use Rattle.store_setup.specs.SetupView.{setup_view};
ghost use Rattle.store_setup.specs.Sound.{HasNames, IsNamed, IsWhole};
ghost use Rattle.tree_toml.specs.SetupText.{setup_of_text};
ghost use Rattle.commit_journal.specs.Kept.{IsFull};
ghost use Rattle.engine_store.specs.Halves.{AreCommitsSince, KeepsCommits};
ghost use Rattle.engine_store.specs.Label.{label_of};
ghost use Rattle.shared_store.specs.Served.{IsServed};
ghost use Rattle.shared_store.specs.declared.error.UnaskedError.TheVariants as unasked;
ghost use Rattle.store_server.specs.Ending.{is_to_end};
ghost use Rattle.store_server.specs.Standings.{fault_of_next, fault_of_write, IsOfLog, standing_of};
ghost use Rattle.store_server.specs.Trees.{IsTreeOf, IsWellNamed};

use crate::obstacles::obstacle_in;
use chain_pool::PooledChains;
use crash_disk::Renew;
use engine_core::Engine;
use engine_store::{AskError, EngineQueue, EngineStore, NextError, WriteError, write_commits};
use epoch_journal::{EpochJournal, Group};
use shared_store::{EpochServer, Obstacle, UnaskedError};
use std::alloc::{AllocError, Global};
use std::marker::PhantomData;
use store_setup::Setup;
use teb_rules::names::{MOST_TXNS, Reply, Request, Session};
use tree_toml::read_tree;

/// An epoch is to end once less than one part in this many is left of the bytes that it had at its beginning.
const LEAST_PART: u64 = 8;

/// The half that answers of a store in epochs, all under one tree. The other half is the journal, which is its log. An epoch is to end once
/// 8,192 transactions have begun, little of its half of the disk is left, or a commit did not fit.
#[derive(Drop)]
pub struct StoreServer<D: Renew> {
    pub(crate) queue: EngineQueue<PooledChains>,
    pub(crate) tree: Vec<u8>,
    /// The epoch is to end once fewer than this many bytes are left.
    reserve: u64,
    /// True if a commit did not fit.
    is_full: bool,
    disk: PhantomData<D>,
    ghost under: { IsTreeOf tree.items queue.engine.store queue.engine.names },
    ghost named: { IsWellNamed queue.engine.store queue.engine.names } by { Prim.hlevel props },
}

impl<D: Renew> StoreServer<D> {
    /// Returns the half that answers, with its tree text.
    pub(crate) fn new(queue: EngineQueue<PooledChains>, tree: Vec<u8>) -> StoreServer<D>
        requires under { IsTreeOf tree.items queue.engine.store queue.engine.names }
        requires named { IsWellNamed queue.engine.store queue.engine.names }
        ensures queue { result.queue ≡ queue }
        ensures not_full { result.is_full ≡ false }
    {
        StoreServer {
            reserve: queue.left() / LEAST_PART,
            queue,
            tree,
            is_full: false,
            disk: PhantomData,
        }
    }

    /// Returns the engine of the present epoch.
    pub fn engine(&self) -> &Engine<PooledChains>
        ensures engine { result.now ≡ self.now.queue.engine }
        ensures named { IsWellNamed self.now.queue.engine.store self.now.queue.engine.names }
    {
        self.queue.engine()
    }

    /// Returns the store of both halves.
    pub fn into_store(self, log: EpochJournal<D>) -> EngineStore<PooledChains, D>
        requires kept { KeepsCommits D.seen D.may_leave self.queue.engine.store self.queue.engine.events log.acknowledged log }
        requires label { log.layout.label ≡ label_of self.queue.engine.names.tables }
        ensures { (result.engine ≡ self.queue.engine) × (result.journal ≡ log) }
    {
        let StoreServer { queue, .. } = self;
        EngineStore::join(queue, log)
    }
}

impl<D: Renew> EpochServer for StoreServer<D> {
    type Log = EpochJournal<D>;

    type Batch = Group;

    ghost standing = { λ s. standing_of s.queue.engine };

    ghost waits = { λ s H. AreCommitsSince s.queue.engine.store H s.queue.engine.events s.queue.waiting };

    ghost brings = { λ batch X H G. AreCommitsSince X H G batch.records };

    ghost keeps = { λ log X H n. KeepsCommits D.seen D.may_leave X H n log };

    ghost failed = { λ log. log.stopped };

    ghost ending = { λ s. is_to_end s.is_full s.queue.left s.reserve (begun_count s.queue.engine.events) };

    /// Answers a request. A commit waits.
    ///
    /// # Errors
    /// Each leaves the server where it was. `Full` if the bytes that are left may not hold the commit: the epoch is to end then.
    fn serve(
        &mut self,
        alloc: Global,
        session: Session,
        request: Request,
    ) -> Result<Reply, UnaskedError>
        ensures served { IsServed (standing_of self.old.queue.engine) (standing_of self.new.queue.engine) session request result }
        ensures waits { (H : List Event) → AreCommitsSince self.old.queue.engine.store H self.old.queue.engine.events self.old.queue.waiting
            → AreCommitsSince self.new.queue.engine.store H self.new.queue.engine.events self.new.queue.waiting }
        ensures full { IsErrOf result unasked.Full → is_to_end self.new.is_full self.new.queue.left self.new.reserve (begun_count self.new.queue.engine.events) ≡ true }

        // It is full only of a commit that may not fit, and the epoch is to end for want of room only after that.
        ensures no_room { IsErrOf result unasked.Full → IsFull self.old.queue.engine.events self.old.queue.left session request }
        ensures not_full { self.new.is_full ≡ true → (self.old.is_full ≡ true) ⊎ IsErrOf result unasked.Full }
        ensures reserve { self.new.reserve ≡ self.old.reserve }
        ensures runs { IsErrOf result unasked.Stopped → ⊥ }
    {
        match self.queue.ask(alloc, session, request) {
            Ok(reply) => Ok(reply),
            Err(AskError::Full) => {
                self.is_full = true;
                Err(UnaskedError::Full)
            }
            Err(AskError::OutOfMemory) => Err(UnaskedError::OutOfMemory),
            // A queue does not answer these.
            Err(AskError::Stopped | AskError::Unsure) => unreachable!(),
        }
    }

    fn is_ending(&self) -> bool {
        self.is_full
            || self.queue.left() < self.reserve
            || MOST_TXNS <= self.queue.engine().history().begun()
    }

    fn holds(&self, session: Session) -> bool {
        self.queue.engine().history().held(session).is_some()
    }

    fn obstacle(&self) -> Option<Obstacle> {
        if self.queue.is_drained() {
            return None;
        }
        obstacle_in(self.queue.engine())
    }

    fn take(&mut self, alloc: Global) -> Group {
        self.queue.take(alloc)
    }

    fn write(log: &mut EpochJournal<D>, alloc: Global, batch: Group) -> Result<(), UnaskedError> {
        match write_commits(alloc, log, &batch) {
            Ok(()) => Ok(()),
            Err(error) => Err(unwritten(error)),
        }
    }

    fn has_failed(log: &EpochJournal<D>) -> bool {
        log.is_stopped()
    }

    fn next_epoch(
        self,
        log: EpochJournal<D>,
        alloc: Global,
    ) -> (Self, EpochJournal<D>, Result<(), UnaskedError>) {
        let Ok(setup) = setup_of(alloc, &self.tree) else {
            return (self, log, Err(UnaskedError::OutOfMemory));
        };
        let StoreServer {
            queue,
            tree,
            reserve,
            is_full,
            disk,
        } = self;
        let (queue, log, begun) = queue.next_epoch(alloc, log, setup, PooledChains::new(alloc));
        match begun {
            Ok(_past) => (StoreServer::new(queue, tree), log, Ok(())),
            Err(why) => {
                let server = StoreServer {
                    queue,
                    tree,
                    reserve,
                    is_full,
                    disk,
                };
                (server, log, Err(not_begun(why)))
            }
        }
    }
}

/// Returns the setup of a tree text that was read before. It is read again, since an epoch takes its setup.
///
/// # Errors
/// `AllocError`: out of memory.
fn setup_of(alloc: Global, tree: &[u8]) -> Result<Setup, AllocError>
    ensures read { IfOk result (λ s. setup_of_text tree.now ≡ Ok (setup_view s)) }
    ensures whole { IfOk result (λ s. IsWhole (setup_view s)) }
    ensures nodes { IfOk result (λ s. IsNamed (setup_view s)) }
    ensures names { IfOk result (λ s. HasNames (setup_view s)) }
{
    match read_tree(alloc, tree) {
        Ok(setup) => Ok(setup),
        // The text was accepted before, so only memory can be out.
        Err(_) => Err(AllocError),
    }
}

fn unwritten(error: WriteError) -> UnaskedError
    ensures { result ≡ fault_of_write error }
{
    match error {
        WriteError::Full => UnaskedError::Full,
        WriteError::DiskFault => UnaskedError::Stopped,
        WriteError::OutOfMemory => UnaskedError::OutOfMemory,
    }
}

fn not_begun(why: NextError) -> UnaskedError
    requires { IsOfLog why }
    ensures { result ≡ fault_of_next why }
{
    match why {
        NextError::DiskFault => UnaskedError::Stopped,
        NextError::Full => UnaskedError::Full,
        NextError::OutOfMemory => UnaskedError::OutOfMemory,
        NextError::Stopped | NextError::Again(_) | NextError::Untold(_) | NextError::OtherTables =>
            unreachable!(),
    }
}
