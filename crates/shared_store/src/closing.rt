//! How the life of a store ends.

ghost use Rattle.std.specs.Prelude.{◌≡◌, ◌≤◌, false, MatchResult};
ghost use Rattle.teb_rules.specs.declared.names.TheConstants.{SESSIONS};
ghost use Rattle.shared_store.specs.Ending.{AddsNoCalls, IsKeptAfter, LeadsToServer};
ghost use Rattle.shared_store.specs.Holding.{IsKept};
ghost use Rattle.shared_store.specs.Lives.{taken_of};
ghost use Rattle.shared_store.specs.Reasons.{IsCheckpointed, IsReason};
ghost use Rattle.shared_store.specs.Stages.{first_stage};

use crate::close::Closed;
use crate::due_epoch::{NextEpoch, WrittenEpoch};
use crate::entry::LOG_SEAT;
use crate::error::UnaskedError;
use crate::hosted::Hosted;
use crate::no_checkpoint::NoCheckpoint;
use crate::running::{FailedLog, RunningLog, WrittenLog};
use crate::server::EpochServer;
use std::alloc::Global;
use teb_rules::names::{Reply, Request, SESSIONS, Session};

/// A server with its life, and its log, at the end of a closing.
#[derive(Drop)]
pub(crate) struct LastEpoch<S: EpochServer> {
    hosted: Hosted<S>,
    log: S::Log,
    /// `Ok` if the epoch has ended with a checkpoint. Else it goes on.
    checkpoint: Result<(), NoCheckpoint>,
    ghost taken: { S.failed log ≡ false → taken_of hosted.entries.items ≡ hosted.entries.items },
}

impl<S: EpochServer> Hosted<S> {
    /// The server, the log and the life at the end. Unless the log has failed, the transaction of each session that holds one is ended, what
    /// waits is written, and the epoch ends if the log can begin the next one. The log keeps the first `total` commits.
    pub(crate) fn finish(self, alloc: Global, log: S::Log, total: u64) -> Closed<S>
        requires kept { ∥ IsKept (S.keeps log) (first_stage (S.standing self.first.value)) (S.failed log) total self.entries.items ∥₁ }
        ensures life { LeadsToServer (first_stage (S.standing self.first.value)) (S.standing result.server) result.life.items }
        ensures more { AddsNoCalls self.entries.items result.life.items }
        ensures kept { IsKeptAfter (S.keeps result.log) (first_stage (S.standing self.first.value)) (S.failed result.log) total result.life.items }
        ensures all { S.failed result.log ≡ false → taken_of result.life.items ≡ result.life.items }
        ensures checkpoint { MatchResult result.checkpoint (λ _. IsCheckpointed (S.keeps result.log) (S.failed result.log) (S.standing result.server))
            (IsReason (S.failed result.log) (S.standing result.server).events) }
    {
        let LastEpoch {
            hosted,
            log,
            checkpoint,
        } = self.run_down(alloc, log, total);
        let Hosted {
            server,
            entries,
            ..
        } = hosted;
        Closed {
            server,
            log,
            life: entries,
            checkpoint,
        }
    }

    /// Ends the transaction of each session that holds one, writes what waits, and ends the epoch. If the log had failed before, nothing is
    /// asked or written. If the End of a transaction meets an error, the rest is done nevertheless, and what keeps the epoch from its end is told.
    fn run_down(self, alloc: Global, log: S::Log, total: u64) -> LastEpoch<S>
        requires kept { ∥ IsKept (S.keeps log) (first_stage (S.standing self.first.value)) (S.failed log) total self.entries.items ∥₁ }
        ensures first { result.hosted.first ≡ self.first }
        ensures more { AddsNoCalls self.entries.items result.hosted.entries.items }
        ensures kept { IsKeptAfter (S.keeps result.log) (first_stage (S.standing self.first.value)) (S.failed result.log) total result.hosted.entries.items }
        ensures checkpoint { MatchResult result.checkpoint (λ _. IsCheckpointed (S.keeps result.log) (S.failed result.log) (S.standing result.hosted.server))
            (IsReason (S.failed result.log) (S.standing result.hosted.server).events) }
    {
        let failed = S::has_failed(&log);
        if failed {
            return LastEpoch {
                hosted: self,
                log,
                checkpoint: Err(NoCheckpoint::Failed(UnaskedError::Stopped)),
            };
        }
        let mut hosted = self;
        let _ended = hosted.end_all(alloc);
        let running = RunningLog { hosted, log, total };
        running.write_and_end(alloc)
    }

    /// Ends the transaction of each session that holds one.
    ///
    /// # Errors
    /// The first that a request has. The transactions of this session and of those with greater numbers go on.
    fn end_all(&mut self, alloc: Global) -> Result<(), UnaskedError>
        ensures more { AddsNoCalls self.old.entries.items self.new.entries.items }
        ensures taken { taken_of self.new.entries.items ≡ taken_of self.old.entries.items }
        ensures first { self.new.first ≡ self.old.first }
    {
        for i in 0..SESSIONS {
            let session = Session(i + 1);
            if self.server.holds(session) {
                self.end_at_close(alloc, session)?;
            }
        }
        Ok(())
    }

    /// Ends the transaction of a session, at the turn of the log's seat.
    ///
    /// # Errors
    /// Nothing was asked.
    fn end_at_close(&mut self, alloc: Global, session: Session) -> Result<Reply, UnaskedError>
        requires { session.0 ≤ SESSIONS }
        ensures more { AddsNoCalls self.old.entries.items self.new.entries.items }
        ensures taken { taken_of self.new.entries.items ≡ taken_of self.old.entries.items }
        ensures first { self.new.first ≡ self.old.first }
    {
        self.put(alloc, Session(LOG_SEAT), session, Request::End)
    }
}

impl<S: EpochServer> RunningLog<S> {
    /// Writes what waits, and ends the epoch.
    fn write_and_end(self, alloc: Global) -> LastEpoch<S>
        ensures first { result.hosted.first ≡ self.hosted.first }
        ensures more { AddsNoCalls self.hosted.entries.items result.hosted.entries.items }
        ensures kept { IsKeptAfter (S.keeps result.log) (first_stage (S.standing self.hosted.first.value)) (S.failed result.log) self.total result.hosted.entries.items }
        ensures checkpoint { MatchResult result.checkpoint (λ _. IsCheckpointed (S.keeps result.log) (S.failed result.log) (S.standing result.hosted.server))
            (IsReason (S.failed result.log) (S.standing result.hosted.server).events) }
    {
        let written = match self.write(alloc) {
            Ok(written) => written,
            Err(failed) => {
                let FailedLog {
                    hosted,
                    log,
                    error,
                    ..
                } = failed;
                return LastEpoch {
                    hosted,
                    log,
                    checkpoint: Err(NoCheckpoint::Failed(error)),
                };
            }
        };
        written.end_epoch(alloc)
    }
}

impl<S: EpochServer> WrittenLog<S> {
    /// Ends the epoch, unless something keeps it from its end, or the next one does not begin.
    fn end_epoch(self, alloc: Global) -> LastEpoch<S>
        ensures first { result.hosted.first ≡ self.hosted.first }
        ensures more { AddsNoCalls self.hosted.entries.items result.hosted.entries.items }
        ensures kept { ∥ IsKept (S.keeps result.log) (first_stage (S.standing self.hosted.first.value)) false self.hosted.commits result.hosted.entries.items ∥₁ }
        ensures checkpoint { MatchResult result.checkpoint (λ _. IsCheckpointed (S.keeps result.log) (S.failed result.log) (S.standing result.hosted.server))
            (IsReason (S.failed result.log) (S.standing result.hosted.server).events) }
    {
        if let Some(obstacle) = self.hosted.server.obstacle() {
            let WrittenLog { hosted, log } = self;
            return LastEpoch {
                hosted,
                log,
                checkpoint: Err(NoCheckpoint::Held(obstacle)),
            };
        }
        let epoch = WrittenEpoch { written: self };
        let NextEpoch { hosted, log, begun } = epoch.begin_next(alloc);
        let checkpoint = match begun {
            Ok(()) => Ok(()),
            Err(error) => Err(NoCheckpoint::Failed(error)),
        };
        LastEpoch {
            hosted,
            log,
            checkpoint,
        }
    }
}
