//! End, asked on a disk for the sessions that hold a transaction.

ghost use Rattle.std.specs.Prelude.{◌≡◌, ◌↔◌, ◌≤◌, ◌++◌, map, true, IfErr, OnOk, IsErrOf};
ghost use Rattle.teb_rules.specs.Run.{history_after};
ghost use Rattle.crash_disk.specs.Sizes.{default_capacity};
ghost use Rattle.commit_journal.specs.Kept.{IsSameStore};
ghost use Rattle.script_runner.specs.replay.Holders.{end_of};
ghost use Rattle.script_runner.specs.replay.Logs.{Requests, log_of};
ghost use Rattle.crash_runner.specs.Underway.{IsUnderway, HasAsked, StopsAt, effects};
ghost use Rattle.crash_runner.specs.declared.error.RunError.TheVariants as run_error;

use crate::asking::ask;
use crate::error::RunError;
use commit_journal::Durable;
use crash_disk::Disk;
use script_text::{Answered, MOST_LINES};
use std::alloc::Global;
use teb_rules::names::{Request, Session};
use version_chain::Chains;

/// Asks End for each of the sessions, and logs the replies.
pub(crate) fn ask_ends<C: Chains, D: Disk>(
    alloc: Global,
    durable: &mut Durable<C, D>,
    holders: &[Session],
    log: &mut Vec<Answered>,
) -> Result<(), RunError>
    requires underway { IsUnderway (D.tally durable.old.disk).promise D.tally D.safe durable.old log.old.items }
    requires wide { default_capacity ≤ D.capacity durable.old.disk }
    requires few { effects durable.old.events ≤ MOST_LINES }
    ensures store { IsSameStore durable.old durable.new }
    ensures capacity { D.capacity durable.new.disk ≡ D.capacity durable.old.disk }
    ensures underway { OnOk result (IsUnderway (D.tally durable.old.disk).promise D.tally D.safe durable.new log.new.items) }
    ensures asked { OnOk result (HasAsked durable.old.store (map end_of holders.now) log.old.items durable.old.events log.new.items durable.new.events) }
    ensures few { OnOk result (effects durable.new.events ≤ MOST_LINES) }
    // For any further requests.
    ensures stopped { (rest : Requests) → IsErrOf result run_error.DiskFault
        → StopsAt (D.tally durable.old.disk).promise durable.old.store (log.old.items ++ log_of durable.old.store durable.old.events (map end_of holders.now ++ rest))
        (history_after durable.old.store durable.old.events (map end_of holders.now ++ rest))
        log.new.items (D.tally durable.new.disk) (D.safe durable.new.disk) }
    ensures error { IfErr result (λ error. (error ≡ run_error.DiskFault) ↔ (durable.new.stopped ≡ true)) }
{
    for session in holders {
        ask(alloc, durable, *session, Request::End, log)?;
    }
    Ok(())
}
