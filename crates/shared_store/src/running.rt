//! How a log that has not failed writes what waits.

ghost use Rattle.std.specs.Prelude.{◌≡◌, ◌≤◌, false, true, IfOk, IfErr};
ghost use Rattle.commit_laws.specs.Commits.{commit_count};
ghost use Rattle.shared_store.specs.Holding.{IsKept};
ghost use Rattle.shared_store.specs.Hosting.{IsTaken};
ghost use Rattle.shared_store.specs.Lives.{taken_of};
ghost use Rattle.shared_store.specs.Stages.{first_stage};

use crate::error::UnaskedError;
use crate::hosted::Hosted;
use crate::server::EpochServer;
use std::alloc::Global;

/// A server with its life, and its log, which has not failed and keeps the first `total` commits of the life.
#[derive(Drop)]
pub(crate) struct RunningLog<S: EpochServer> {
    pub(crate) hosted: Hosted<S>,
    pub(crate) log: S::Log,
    pub(crate) total: u64,
    ghost running: { S.failed log ≡ false },
    ghost kept: { ∥ IsKept (S.keeps log) (first_stage (S.standing hosted.first.value)) false total hosted.entries.items ∥₁ },
}

/// A server with its life, and its log, which has not failed and keeps all commits of the life. None waits.
#[derive(Drop)]
pub(crate) struct WrittenLog<S: EpochServer> {
    pub(crate) hosted: Hosted<S>,
    pub(crate) log: S::Log,
    ghost running: { S.failed log ≡ false },
    ghost runs: { hosted.stopped ≡ false },
    ghost waits: { ∥ S.waits hosted.server (S.standing hosted.server).events ∥₁ },
    ghost kept: { ∥ S.keeps log (S.standing hosted.server).store (S.standing hosted.server).events (commit_count (S.standing hosted.server).events) ∥₁ },
    ghost taken: { taken_of hosted.entries.items ≡ hosted.entries.items },
}

/// A server with its life, and its log, which failed when it was to write what had waited. It keeps the first `total` commits of the life.
#[derive(Drop)]
pub(crate) struct FailedLog<S: EpochServer> {
    pub(crate) hosted: Hosted<S>,
    pub(crate) log: S::Log,
    pub(crate) total: u64,
    pub(crate) error: UnaskedError,
    ghost failed: { S.failed log ≡ true },
    ghost kept: { ∥ IsKept (S.keeps log) (first_stage (S.standing hosted.first.value)) true total hosted.entries.items ∥₁ },
    ghost taken: { taken_of hosted.entries.items ≡ hosted.entries.items },
}

impl<S: EpochServer> RunningLog<S> {
    /// Takes the commits that wait, and writes them.
    ///
    /// # Errors
    /// The write has failed, and with it the log. A crash may keep the commits that waited or not.
    pub(crate) fn write(self, alloc: Global) -> Result<WrittenLog<S>, FailedLog<S>>
        ensures written { IfOk result (λ w. IsTaken self.hosted w.hosted × (self.total ≤ w.hosted.commits)) }
        ensures failed { IfErr result (λ f. IsTaken self.hosted f.hosted × (f.total ≡ self.total)) }
    {
        let RunningLog {
            mut hosted,
            mut log,
            total,
        } = self;
        let batch = hosted.take(alloc);
        match S::write(&mut log, alloc, batch) {
            Ok(()) => {
                let written = WrittenLog { hosted, log };
                Ok(written)
            }
            Err(error) => {
                let failed = FailedLog {
                    hosted,
                    log,
                    total,
                    error,
                };
                Err(failed)
            }
        }
    }
}
