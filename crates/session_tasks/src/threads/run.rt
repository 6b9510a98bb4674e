//! The run of all sessions.

ghost use Rattle.std.specs.Prelude.{◌≡◌, ◌≢◌, ◌≤◌, All, map, IfOk, IfErr};
ghost use Rattle.teb_rules.specs.history.Phases.{numbers};
ghost use Rattle.session_server.specs.Passes.{IsNew, number_of};
ghost use Rattle.session_tasks.specs.Scripted.{AreDistinct};
ghost use Rattle.session_tasks.specs.Errors.{IsFirstError};
ghost use Rattle.session_tasks.specs.Served.{IsServed, IsCause};
ghost use Rattle.session_tasks.specs.Tasks.{IsTask};
ghost use Rattle.session_tasks.specs.declared.error.RunError.TheVariants.{OutOfMemory};

use crate::threads::deal::deal;
use crate::threads::gather::gather;
use crate::threads::worker::work;
use crate::{Gate, Run, RunError, Start};
use script_text::Scripts;
use session_server::{Hall, Pass};
use std::alloc::Global;
use std::sync::Wait;
use std::thread::Threads;
use teb_rules::names::SESSIONS;
use version_chain::Chains;

/// Serves each session that has a script along it, on `workers` workers, at least one, each in a thread.
///
/// The workers take the scripts in turn: the one at place i, from 0, is served by worker i mod `workers`. If no thread can be
/// made, the workers run one after another. A worker whose session meets an error stops the others. If no session met one, the
/// caller goes on to serve the sessions that were stopped. `Ok` returns the passes of the sessions 1 to `SESSIONS` in order.
///
/// # Errors
/// The error of the lowest-numbered session that met one; `OutOfMemory` may also come in its place. `PassSpent` returns the pass
/// that has asked `MOST_ASKS` times. The other passes are gone, so the hall cannot be closed.
pub fn run_threads<C: Chains + Send, G: Gate + Sync, R: Threads + Wait + Sync>(
    rt: &R,
    alloc: Global,
    hall: &Hall<C>,
    passes: Vec<Pass<C>>,
    scripts: &Scripts,
    workers: u8,
    gate: &G,
) -> Result<Vec<Pass<C>>, RunError<C>>
    requires sessions { map number_of passes.items ≡ numbers SESSIONS }
    requires new { All (IsNew hall.now) passes.items }
    requires scripts { AreDistinct scripts.now }
    requires workers { 1 ≤ workers }
    ensures sessions { IfOk result (λ v. map number_of v.items ≡ numbers SESSIONS) }
    ensures served { IfOk result (λ v. All (IsServed hall.now scripts.now) v.items) }
    ensures cause { IfErr result (IsCause hall.now scripts.now) }
    ensures first { IfErr result (λ e. e ≢ OutOfMemory → IsFirstError (IsTask hall.now scripts.now) e) }
{
    let run = Run {
        hall,
        scripts,
        gate,
    };
    let start = Start { run: &run, passes };
    let Ok(mut hands) = deal(start, alloc, usize::from(workers)) else {
        return Err(RunError::OutOfMemory);
    };
    let Ok(room) = Vec::with_capacity(alloc, usize::from(SESSIONS)) else {
        return Err(RunError::OutOfMemory);
    };
    work(&run, rt, &mut hands);
    run.finish(rt, alloc, gather(&run, room, hands))
}
