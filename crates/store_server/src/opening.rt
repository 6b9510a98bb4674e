//! How a store is opened for sharing.

ghost use Rattle.std.specs.Prelude.{◌≡◌, [], false, IfErr, IfOk};
ghost use Rattle.engine_store.specs.Halves.{AreCommitsSince, KeepsCommits};
ghost use Rattle.engine_store.specs.Label.{label_of};
ghost use Rattle.store_server.specs.Found.{IsFound};
ghost use Rattle.store_server.specs.Refused.{IsNotOpened};

use crate::error::{NotOpened, OpenStoreError};
use crate::server::StoreServer;
use chain_pool::PooledChains;
use crash_disk::Renew;
use engine_store::EngineStore;
use epoch_journal::EpochJournal;
use std::alloc::Global;
use tree_toml::read_tree;

impl<D: Renew> StoreServer<D> {
    /// Opens the store that a disk has, under a tree text, and returns its halves: the server and its log. The tree may differ from the
    /// last one, but has the same tables.
    ///
    /// # Errors
    /// Each error returns the disk, which may be opened again. `BadTree` if the text is refused; then the disk is as it was.
    /// `Disk` for the causes of `EngineStore::open`; nothing was written, unless a call of the disk failed.
    pub fn open(
        alloc: Global,
        disk: D,
        tree: Vec<u8>,
    ) -> Result<(StoreServer<D>, EpochJournal<D>), NotOpened<D>>
        // The rows are those that the disk has, and nothing has happened.
        ensures found { IfOk result (λ o. IsFound D.seen D.may_leave (D.capacity disk) tree.items disk o.0.queue.engine) }
        ensures events { IfOk result (λ o. o.0.queue.engine.events ≡ []) }
        // No commit waits, and the log keeps all that there are: none.
        ensures waits { IfOk result (λ o. AreCommitsSince o.0.queue.engine.store [] o.0.queue.engine.events o.0.queue.waiting) }
        ensures kept { IfOk result (λ o. KeepsCommits D.seen D.may_leave o.0.queue.engine.store [] 0 o.1) }
        ensures running { IfOk result (λ o. o.1.stopped ≡ false) }
        ensures label { IfOk result (λ o. o.1.layout.label ≡ label_of o.0.queue.engine.names.tables) }
        // The error is the one that the tree text or the disk has.
        ensures refused { IfErr result (λ e. IsNotOpened D.seen D.may_leave D.moment D.left_since D.faults D.capacity tree.items disk e.disk e.why) }
    {
        let setup = match read_tree(alloc, &tree) {
            Ok(setup) => setup,
            Err(fault) => {
                return Err(NotOpened {
                    disk,
                    why: OpenStoreError::BadTree(fault),
                });
            }
        };
        match EngineStore::open(alloc, disk, setup, PooledChains::new(alloc)) {
            Ok(store) => {
                let (queue, log) = store.split(alloc);
                Ok((StoreServer::new(queue, tree), log))
            }
            Err(refused) => Err(NotOpened {
                disk: refused.disk,
                why: OpenStoreError::Disk(refused.why),
            }),
        }
    }
}
