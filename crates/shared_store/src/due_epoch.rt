//! How an epoch ends.

ghost use Rattle.std.specs.Prelude.{◌≡◌, ◌≤◌, true, false, MatchResult};
ghost use Rattle.shared_store.specs.declared.entry.TheConstants.{LOG_SEAT};
ghost use Rattle.shared_store.specs.Ending.{AddsNoCalls};
ghost use Rattle.shared_store.specs.Holding.{IsKept};
ghost use Rattle.shared_store.specs.Lives.{taken_of};
ghost use Rattle.shared_store.specs.Reasons.{IsCause, IsCheckpointed};
ghost use Rattle.teb_rules.specs.Epochs.{IsDrained};
ghost use Rattle.shared_store.specs.Stages.{first_stage};
ghost use Rattle.shared_store.specs.Turning.{GrowsBy};

use crate::entry::LifeEntry;
use crate::error::UnaskedError;
use crate::hosted::Hosted;
use crate::running::{FailedLog, RunningLog, WrittenLog};
use crate::server::EpochServer;
use std::alloc::Global;

/// An epoch that is to end, with a log that has not failed. Nothing keeps it from its end.
#[derive(Drop)]
pub(crate) struct DueEpoch<S: EpochServer> {
    pub(crate) running: RunningLog<S>,
    ghost ending: { S.ending running.hosted.server ≡ true },
    ghost drained: { IsDrained (S.standing running.hosted.server).events },
}

/// An epoch that may end, with a log that has not failed and keeps all its commits.
#[derive(Drop)]
pub(crate) struct WrittenEpoch<S: EpochServer> {
    pub(crate) written: WrittenLog<S>,
    ghost drained: { IsDrained (S.standing written.hosted.server).events },
}

/// A server with its life, and its log, after the next epoch was to begin. The log keeps all commits of the life.
#[derive(Drop)]
pub(crate) struct NextEpoch<S: EpochServer> {
    pub(crate) hosted: Hosted<S>,
    pub(crate) log: S::Log,
    /// An error if the last epoch goes on. The log may have failed then.
    pub(crate) begun: Result<(), UnaskedError>,
    ghost kept: { ∥ IsKept (S.keeps log) (first_stage (S.standing hosted.first.value)) false hosted.commits hosted.entries.items ∥₁ },
    ghost taken: { taken_of hosted.entries.items ≡ hosted.entries.items },
}

/// A server with its life, and its log, after an epoch was to end.
#[derive(Drop)]
pub(crate) struct EndedEpoch<S: EpochServer> {
    pub(crate) hosted: Hosted<S>,
    pub(crate) log: S::Log,
    /// How many commits of the life the log keeps.
    pub(crate) total: u64,
    /// True if the log has failed.
    pub(crate) failed: bool,
    /// An error if the epoch could not be ended. It goes on then.
    pub(crate) ended: Result<(), UnaskedError>,
    ghost running: { S.failed log ≡ failed },
    ghost told: { failed ≡ true → hosted.stopped ≡ true },
    ghost kept: { ∥ IsKept (S.keeps log) (first_stage (S.standing hosted.first.value)) failed total hosted.entries.items ∥₁ },
}

impl<S: EpochServer> RunningLog<S> {
    /// Ends the epoch at the turn of the log's seat, if it is to end and nothing keeps it from its end.
    pub(crate) fn end_if_due(self, alloc: Global) -> EndedEpoch<S>
        ensures grows { GrowsBy LOG_SEAT self.hosted.entries.items result.hosted.entries.items }
        ensures first { result.hosted.first ≡ self.hosted.first }
        ensures more { self.total ≤ result.total }
    {
        if self.hosted.can_end() {
            let due = DueEpoch { running: self };
            return due.end(alloc);
        }
        let RunningLog { hosted, log, total } = self;
        EndedEpoch {
            hosted,
            log,
            total,
            failed: false,
            ended: Ok(()),
        }
    }
}

impl<S: EpochServer> DueEpoch<S> {
    /// Writes what waits, and ends the epoch. If the log fails, the front is told.
    fn end(self, alloc: Global) -> EndedEpoch<S>
        ensures grows { GrowsBy LOG_SEAT self.running.hosted.entries.items result.hosted.entries.items }
        ensures first { result.hosted.first ≡ self.running.hosted.first }
        ensures more { self.running.total ≤ result.total }
    {
        let DueEpoch { running } = self;
        let written = match running.write(alloc) {
            Ok(written) => written,
            Err(failed) => {
                let FailedLog {
                    mut hosted,
                    log,
                    total,
                    error,
                } = failed;
                hosted.stop();
                return EndedEpoch {
                    hosted,
                    log,
                    total,
                    failed: true,
                    ended: Err(error),
                };
            }
        };
        let total = written.hosted.commits;
        let epoch = WrittenEpoch { written };
        let NextEpoch {
            mut hosted,
            log,
            begun,
        } = epoch.begin_next(alloc);
        let failed = S::has_failed(&log);
        hosted.stop_if(failed);
        EndedEpoch {
            hosted,
            log,
            total,
            failed,
            ended: begun,
        }
    }
}

impl<S: EpochServer> WrittenEpoch<S> {
    /// Ends the epoch, and begins the next one.
    pub(crate) fn begin_next(self, alloc: Global) -> NextEpoch<S>
        ensures grows { GrowsBy LOG_SEAT self.written.hosted.entries.items result.hosted.entries.items }
        ensures calls { AddsNoCalls self.written.hosted.entries.items result.hosted.entries.items }
        ensures same { (result.hosted.first ≡ self.written.hosted.first) × (result.hosted.commits ≡ self.written.hosted.commits) }
        ensures begun { MatchResult result.begun (λ _. IsCheckpointed (S.keeps result.log) (S.failed result.log) (S.standing result.hosted.server))
            (IsCause (S.failed result.log) (S.standing result.hosted.server).events) }
    {
        let WrittenEpoch { written } = self;
        let WrittenLog { hosted, log } = written;
        let Hosted {
            server,
            mut entries,
            first,
            notices,
            past,
            commits,
            stopped,
        } = hosted;
        let (server, log, begun) = server.next_epoch(log, alloc);
        if let Err(error) = begun {
            let hosted = Hosted {
                server,
                entries,
                first,
                notices,
                past,
                commits,
                stopped,
            };
            return NextEpoch {
                hosted,
                log,
                begun: Err(error),
            };
        }
        entries.push(LifeEntry::EpochEnded);
        let hosted = Hosted {
            server,
            entries,
            first,
            notices,
            past: commits,
            commits,
            stopped,
        };
        NextEpoch {
            hosted,
            log,
            begun: Ok(()),
        }
    }
}
