//! A server that keeps the printed run of each epoch.

ghost use Rattle.std.specs.Prelude.{◌≡◌, ◌<◌, All, IfOk, OnOk, length, vec_capacity};
ghost use Rattle.teb_rules.specs.history.Phases.{begun_count};
ghost use Rattle.audit_check.specs.Audit.{IsAudited};
ghost use Rattle.engine_store.specs.Halves.{AreCommitsSince, KeepsCommits};
ghost use Rattle.store_server.specs.Ending.{is_to_end};
ghost use Rattle.store_server.specs.Standings.{standing_of};

use crash_disk::Renew;
use epoch_journal::{EpochJournal, Group};
use printed_run::printed_run;
use shared_store::{EpochServer, Obstacle, UnaskedError};
use std::alloc::{AllocError, Global};
use std::io::{self, Write};
use store_server::StoreServer;
use teb_rules::names::{Reply, Request, Session};

/// A server, and the printed run of each epoch that has ended. `audit` accepts each run.
#[derive(Drop)]
pub struct Recorded<D: Renew> {
    server: StoreServer<D>,
    runs: Vec<Vec<u8>>,
    ghost audited: { All (λ run. IsAudited run.items) runs.items },
}

impl<D: Renew> Recorded<D> {
    /// Returns a server of which no epoch has ended.
    pub fn new(alloc: Global, server: StoreServer<D>) -> Recorded<D>
        ensures { result.server ≡ server }
    {
        Recorded {
            server,
            runs: Vec::new(alloc),
        }
    }

    /// Prints the run of each epoch, the present one last. Each is preceded by the line `epoch`.
    ///
    /// # Errors
    /// A write fails, or memory is out for the run of the present epoch. The runs before it may have been printed.
    pub fn print(&self, rt: &impl Print, alloc: Global) -> anyhow::Result<()> {
        for run in &self.runs {
            print_run(rt, run)?;
        }
        let present = run_of(alloc, &self.server)?;
        print_run(rt, &present)
    }

    /// Returns the server alone.
    pub fn into_server(self) -> StoreServer<D>
        ensures { result ≡ self.server }
    {
        let Recorded { server, .. } = self;
        server
    }
}

impl<D: Renew> EpochServer for Recorded<D> {
    type Log = EpochJournal<D>;

    type Batch = Group;

    ghost standing = { λ s. standing_of s.server.queue.engine };

    ghost waits = { λ s H. AreCommitsSince s.server.queue.engine.store H s.server.queue.engine.events s.server.queue.waiting };

    ghost brings = { λ batch X H G. AreCommitsSince X H G batch.records };

    ghost keeps = { λ log X H n. KeepsCommits D.seen D.may_leave X H n log };

    ghost failed = { λ log. log.stopped };

    ghost ending = { λ s. is_to_end s.server.is_full s.server.queue.left s.server.reserve (begun_count s.server.queue.engine.events) };

    fn serve(
        &mut self,
        alloc: Global,
        session: Session,
        request: Request,
    ) -> Result<Reply, UnaskedError> {
        self.server.serve(alloc, session, request)
    }

    fn is_ending(&self) -> bool {
        self.server.is_ending()
    }

    fn holds(&self, session: Session) -> bool {
        self.server.holds(session)
    }

    fn obstacle(&self) -> Option<Obstacle> {
        self.server.obstacle()
    }

    fn take(&mut self, alloc: Global) -> Group {
        self.server.take(alloc)
    }

    fn write(log: &mut EpochJournal<D>, alloc: Global, batch: Group) -> Result<(), UnaskedError> {
        StoreServer::<D>::write(log, alloc, batch)
    }

    fn has_failed(log: &EpochJournal<D>) -> bool {
        StoreServer::<D>::has_failed(log)
    }

    /// Keeps the printed run of the epoch before the next one begins. If memory is out for it, the epoch does not end.
    fn next_epoch(
        self,
        log: EpochJournal<D>,
        alloc: Global,
    ) -> (Self, EpochJournal<D>, Result<(), UnaskedError>) {
        let Recorded { server, mut runs } = self;
        let Ok(run) = next_run(alloc, &server, &mut runs) else {
            return (
                Recorded { server, runs },
                log,
                Err(UnaskedError::OutOfMemory),
            );
        };
        let (server, log, begun) = server.next_epoch(log, alloc);
        match begun {
            Ok(()) => {
                runs.push_reserved(run);
                (Recorded { server, runs }, log, Ok(()))
            }
            Err(why) => (Recorded { server, runs }, log, Err(why)),
        }
    }
}

/// Returns the printed run of the present epoch, and makes room for it among the runs, which stay as they are.
///
/// # Errors
/// `AllocError`: out of memory.
fn next_run<D: Renew>(
    alloc: Global,
    server: &StoreServer<D>,
    runs: &mut Vec<Vec<u8>>,
) -> Result<Vec<u8>, AllocError>
    ensures audited { IfOk result (λ run. IsAudited run.items) }
    ensures same { runs.new.items ≡ runs.old.items }
    ensures room { OnOk result (length runs.new.items < vec_capacity runs.new) }
{
    let run = run_of(alloc, server)?;
    runs.reserve(1)?;
    Ok(run)
}

/// Returns the printed run of the present epoch.
///
/// # Errors
/// `AllocError`: out of memory.
#[tactic(auto, using(crate::proofs::Naming::named_by))]
fn run_of<D: Renew>(alloc: Global, server: &StoreServer<D>) -> Result<Vec<u8>, AllocError>
    ensures { IfOk result (λ run. IsAudited run.items) }
{
    printed_run(alloc, server.engine())
}

/// Prints a run after the line `epoch`.
fn print_run(rt: &impl Print, run: &[u8]) -> anyhow::Result<()> {
    println!(rt; "epoch")?;
    io::writer(rt).write_all(run)?;
    Ok(())
}
