//! One request of a run on a disk.

ghost use Rattle.std.specs.Prelude.{◌≡◌, ◌↔◌, ◌+◌, ◌≤◌, ◌++◌, ◌∷◌, [], true, IfErr, OnOk, IsErrOf};
ghost use Rattle.teb_rules.specs.Run.{history_after};
ghost use Rattle.crash_disk.specs.Sizes.{default_capacity};
ghost use Rattle.commit_journal.specs.Kept.{IsSameStore};
ghost use Rattle.script_runner.specs.replay.Logs.{Requests, log_of};
ghost use Rattle.crash_runner.specs.Underway.{IsUnderway, HasAsked, StopsAt, effects, weight};
ghost use Rattle.commit_journal.specs.declared.error.DurableError.TheVariants as errors;
ghost use Rattle.crash_runner.specs.declared.error.RunError.TheVariants as run_error;

use crate::error::RunError;
use commit_journal::{Durable, DurableError};
use crash_disk::Disk;
use script_text::{Answered, MOST_LINES};
use std::alloc::Global;
use teb_rules::names::{Request, Session};
use version_chain::Chains;

/// Asks one request, and logs the reply. If the disk fails, the request was a commit, and nothing is logged.
pub(crate) fn ask<C: Chains, D: Disk>(
    alloc: Global,
    durable: &mut Durable<C, D>,
    session: Session,
    request: Request,
    log: &mut Vec<Answered>,
) -> Result<(), RunError>
    requires underway { IsUnderway (D.tally durable.old.disk).promise D.tally D.safe durable.old log.old.items }
    requires wide { default_capacity ≤ D.capacity durable.old.disk }
    requires few { weight request + effects durable.old.events ≤ MOST_LINES }
    ensures store { IsSameStore durable.old durable.new }
    ensures capacity { D.capacity durable.new.disk ≡ D.capacity durable.old.disk }
    ensures underway { OnOk result (IsUnderway (D.tally durable.old.disk).promise D.tally D.safe durable.new log.new.items) }
    ensures asked { OnOk result (HasAsked durable.old.store ((session, request) ∷ []) log.old.items durable.old.events log.new.items durable.new.events) }
    ensures few { OnOk result (effects durable.new.events ≤ weight request + effects durable.old.events) }
    ensures one { OnOk result (effects durable.new.events ≤ 1 + effects durable.old.events) }
    // For any further requests.
    ensures stopped { (rest : Requests) → IsErrOf result run_error.DiskFault
        → StopsAt (D.tally durable.old.disk).promise durable.old.store (log.old.items ++ log_of durable.old.store durable.old.events ((session, request) ∷ rest))
        (history_after durable.old.store durable.old.events ((session, request) ∷ rest))
        log.new.items (D.tally durable.new.disk) (D.safe durable.new.disk) }
    ensures error { IfErr result (λ error. (error ≡ run_error.DiskFault) ↔ (durable.new.stopped ≡ true)) }
{
    match durable.ask(alloc, session, request) {
        Ok(reply) => {
            log.push(Answered { session, reply })?;
            Ok(())
        }
        Err(error) => Err(error_of(error)),
    }
}

// Returns why the run ends. A disk that has not failed before, and has room, can only fail now.
fn error_of(error: DurableError) -> RunError
    requires running { error ≡ errors.Stopped → ⊥ }
    requires room { error ≡ errors.Full → ⊥ }
    ensures { (result ≡ run_error.DiskFault) ↔ (error ≡ errors.DiskFault) }
{
    match error {
        DurableError::DiskFault => RunError::DiskFault,
        DurableError::OutOfMemory => RunError::OutOfMemory,
        DurableError::Stopped | DurableError::Full => unreachable!(),
    }
}
