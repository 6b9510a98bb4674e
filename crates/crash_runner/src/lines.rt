//! The lines of a script, asked in order on a disk.

ghost use Rattle.std.specs.Prelude.{◌≡◌, ◌↔◌, ◌+◌, ◌≤◌, ◌++◌, length, true, IfErr, OnOk, IsErrOf};
ghost use Rattle.teb_rules.specs.Run.{history_after};
ghost use Rattle.crash_disk.specs.Sizes.{default_capacity};
ghost use Rattle.commit_journal.specs.Kept.{IsSameStore};
ghost use Rattle.script_runner.specs.replay.Logs.{Requests, log_of, requests_of};
ghost use Rattle.crash_runner.specs.Underway.{IsUnderway, HasAsked, StopsAt, effects};
ghost use Rattle.crash_runner.specs.declared.error.RunError.TheVariants as run_error;

use crate::asking::ask;
use crate::error::RunError;
use commit_journal::Durable;
use crash_disk::Disk;
use script_text::{Answered, Line, MOST_LINES};
use std::alloc::Global;
use version_chain::Chains;

/// Asks each line, and logs the replies, up to the first commit at which the disk fails.
pub(crate) fn ask_lines<C: Chains, D: Disk>(
    alloc: Global,
    durable: &mut Durable<C, D>,
    lines: &[Line],
    log: &mut Vec<Answered>,
) -> Result<(), RunError>
    requires underway { IsUnderway (D.tally durable.old.disk).promise D.tally D.safe durable.old log.old.items }
    requires wide { default_capacity ≤ D.capacity durable.old.disk }
    requires few { length lines.now + effects durable.old.events ≤ MOST_LINES }
    ensures store { IsSameStore durable.old durable.new }
    ensures capacity { D.capacity durable.new.disk ≡ D.capacity durable.old.disk }
    ensures underway { OnOk result (IsUnderway (D.tally durable.old.disk).promise D.tally D.safe durable.new log.new.items) }
    ensures asked { OnOk result (HasAsked durable.old.store (requests_of lines.now) log.old.items durable.old.events log.new.items durable.new.events) }
    ensures few { OnOk result (effects durable.new.events ≤ length lines.now + effects durable.old.events) }
    // For any further requests.
    ensures stopped { (rest : Requests) → IsErrOf result run_error.DiskFault
        → StopsAt (D.tally durable.old.disk).promise durable.old.store (log.old.items ++ log_of durable.old.store durable.old.events (requests_of lines.now ++ rest))
        (history_after durable.old.store durable.old.events (requests_of lines.now ++ rest))
        log.new.items (D.tally durable.new.disk) (D.safe durable.new.disk) }
    ensures error { IfErr result (λ error. (error ≡ run_error.DiskFault) ↔ (durable.new.stopped ≡ true)) }
{
    for line in lines {
        ask(alloc, durable, line.session, line.request, log)?;
    }
    Ok(())
}
