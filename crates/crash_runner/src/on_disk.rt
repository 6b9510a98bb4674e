//! A replay whose commits are kept on a disk.

ghost use Rattle.std.specs.Prelude.{◌≡◌, ◌↔◌, ◌≤◌, [], length, true, OnOk, IfErr, IfOk, IsErrOf};
ghost use Rattle.teb_rules.specs.Run.{history_after};
ghost use Rattle.store_setup.specs.SetupView.{setup_view};
ghost use Rattle.store_setup.specs.Sound.{IsWhole};
ghost use Rattle.store_setup.specs.Stores.{store_of_view};
ghost use Rattle.crash_disk.specs.Sizes.{default_capacity};
ghost use Rattle.commit_journal.specs.Kept.{IsSameStore};
ghost use Rattle.script_runner.specs.replay.Logs.{log_of, replayed};
ghost use Rattle.crash_runner.specs.Underway.{IsUnderway, HasAsked, StopsAt, IsRunOn, effects};
ghost use Rattle.crash_runner.specs.declared.error.RunError.TheVariants as run_error;

use crate::ends::ask_ends;
use crate::error::RunError;
use crate::lines::ask_lines;
use chain_pool::PooledChains;
use commit_journal::{CreateError, Durable};
use crash_disk::{Disk, MemDisk};
use engine_core::Engine;
use script_runner::replay::holding_sessions;
use script_text::{Answered, Line, MOST_LINES};
use std::alloc::{AllocError, Global};
use store_setup::Setup;
use version_chain::Chains;

/// The result of a run on a disk: the replies that were given, whether the disk has failed, and the disk.
#[derive(Drop)]
pub(crate) struct DiskRun<D> {
    pub(crate) given: Vec<Answered>,
    pub(crate) stopped: bool,
    pub(crate) disk: D,
}

/// Replays the lines over the store of a setup, on a disk in memory that fails from its call `stop` on; 0 names no call.
pub(crate) fn replay_on_disk(
    alloc: Global,
    stop: u32,
    setup: Setup,
    lines: &[Line],
) -> Result<DiskRun<MemDisk>, AllocError>
    requires whole { IsWhole (setup_view setup) }
    requires few { length lines.now ≤ MOST_LINES }
    ensures { IfOk result (λ run. IsRunOn stop (store_of_view (setup_view setup)) lines.now run.given.items run.stopped (⟦<MemDisk as Disk>⟧.tally run.disk) (⟦<MemDisk as Disk>⟧.safe run.disk)) }
{
    let engine = Engine::new(alloc, setup, PooledChains::new(alloc))?;
    let disk = MemDisk::new(alloc, stop)?;
    match Durable::create(engine, disk) {
        Ok(durable) => replay_durable(alloc, durable, lines),
        Err(CreateError::DiskFault(disk)) => Ok(DiskRun {
            given: Vec::new(alloc),
            stopped: true,
            disk,
        }),
        Err(CreateError::OutOfMemory) => Err(AllocError),
    }
}

fn replay_durable<C: Chains, D: Disk + Drop>(
    alloc: Global,
    durable: Durable<C, D>,
    lines: &[Line],
) -> Result<DiskRun<D>, AllocError>
    requires wide { default_capacity ≤ D.capacity durable.disk }
    requires underway { IsUnderway (D.tally durable.disk).promise D.tally D.safe durable [] }
    requires new { durable.events ≡ [] }
    requires few { length lines.now ≤ MOST_LINES }
    ensures { IfOk result (λ run. IsRunOn (D.tally durable.disk).promise.stop durable.store lines.now run.given.items run.stopped (D.tally run.disk) (D.safe run.disk)) }
{
    let mut durable = durable;
    let mut given = Vec::new(alloc);
    let stopped = match ask_all(alloc, &mut durable, lines, &mut given) {
        Ok(()) => false,
        Err(RunError::DiskFault) => true,
        Err(RunError::OutOfMemory) => return Err(AllocError),
    };
    Ok(DiskRun {
        given,
        stopped,
        disk: durable.into_disk(),
    })
}

// Asks the lines, and then End for each session that holds a transaction.
fn ask_all<C: Chains, D: Disk>(
    alloc: Global,
    durable: &mut Durable<C, D>,
    lines: &[Line],
    log: &mut Vec<Answered>,
) -> Result<(), RunError>
    requires wide { default_capacity ≤ D.capacity durable.old.disk }
    requires underway { IsUnderway (D.tally durable.old.disk).promise D.tally D.safe durable.old log.old.items }
    requires new { durable.old.events ≡ [] }
    requires none { log.old.items ≡ [] }
    requires few { length lines.now ≤ MOST_LINES }
    ensures store { IsSameStore durable.old durable.new }
    ensures capacity { D.capacity durable.new.disk ≡ D.capacity durable.old.disk }
    ensures underway { OnOk result (IsUnderway (D.tally durable.old.disk).promise D.tally D.safe durable.new log.new.items) }
    ensures few { OnOk result (effects durable.new.events ≤ MOST_LINES) }
    ensures asked { OnOk result (HasAsked durable.old.store (replayed durable.old.store [] lines.now) [] [] log.new.items durable.new.events) }
    ensures stopped { IsErrOf result run_error.DiskFault
        → StopsAt (D.tally durable.old.disk).promise durable.old.store (log_of durable.old.store [] (replayed durable.old.store [] lines.now))
        (history_after durable.old.store [] (replayed durable.old.store [] lines.now))
        log.new.items (D.tally durable.new.disk) (D.safe durable.new.disk) }
    ensures error { IfErr result (λ error. (error ≡ run_error.DiskFault) ↔ (durable.new.stopped ≡ true)) }
{
    ask_lines(alloc, durable, lines, log)?;
    let holders = holding_sessions(alloc, durable.engine().history())?;
    ask_ends(alloc, durable, &holders, log)
}
