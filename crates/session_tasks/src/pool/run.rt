//! The run of all sessions.

ghost use Rattle.std.specs.Prelude.{◌≡◌, ◌≢◌, ◌<◌, ◌≤◌, All, map, IfOk, IfErr};
ghost use Rattle.std.specs.VecDeque.{deque_len};
ghost use Rattle.teb_rules.specs.history.Phases.{numbers};
ghost use Rattle.session_server.specs.Passes.{IsNew, number_of};
ghost use Rattle.session_tasks.specs.Scripted.{AreDistinct};
ghost use Rattle.session_tasks.specs.Errors.{IsFirstError};
ghost use Rattle.session_tasks.specs.Served.{IsServed, IsCause};
ghost use Rattle.session_tasks.specs.declared.error.RunError.TheVariants.{OutOfMemory};
ghost use Rattle.session_tasks.specs.Tasks.{IsTask, AreTasks};
ghost use Rattle.session_tasks.specs.pool.Hands.{AreHands};
ghost use Rattle.session_tasks.specs.pool.Suits.{IsRosterOf};
ghost use Rattle.session_tasks.specs.pool.Taken.{AreTaken, numbers_in};
ghost use Rattle.session_tasks.specs.pool.Waits.{AreWaiting, scripted};

use crate::pool::divide::divide;
use crate::pool::filling::fill;
use crate::pool::order::{all_tasks, in_order, sessions_in};
use crate::pool::queue::{Roster, SessionQueue};
use crate::pool::rest::{dismiss, take_rest};
use crate::pool::serving::{hire, work};
use crate::pool::waiting::Waiting;
use crate::pool::worker_count::WorkerCount;
use crate::{Gate, Run, RunError, Start, Task, empty_hands};
use script_text::Scripts;
use session_server::{EngineServer, Hall, Pass, Server};
use std::alloc::{AllocError, Global};
use std::collections::VecDeque;
use std::marker::Brand;
use std::sync::Wait;
use std::thread::Threads;
use teb_rules::names::{SESSIONS, Session};
use version_chain::Chains;

/// The result of a run with a queue.
#[derive(Drop)]
pub struct Pooled<C: Chains>
where
    EngineServer<C>: Server,
{
    /// The passes of the sessions 1 to `SESSIONS`, in order.
    pub passes: Vec<Pass<C>>,
    /// The sessions that each worker took, in order.
    pub taken: Vec<Vec<Session>>,
}

/// Serves each session that has a script along it, on `workers` workers, at least one, each in a thread.
///
/// The sessions wait in a queue, in ascending order, and a worker takes the next one when it finishes one. If no thread can be
/// made, the workers run one after another. A worker whose session meets an error stops the others. If no session met one, the
/// caller goes on to serve the sessions that were stopped; then it takes and serves, as the first worker, what is left in the
/// queue. `Ok` returns the passes of the sessions 1 to `SESSIONS` in order, and the sessions that each worker took.
///
/// # Errors
/// The error of the lowest-numbered session that met one; `OutOfMemory` may also come in its place. `PassSpent` returns the pass
/// that has asked `MOST_ASKS` times. The other passes are gone, so the hall cannot be closed.
pub fn run_pool<C: Chains + Send, G: Gate + Sync, R: Threads + Wait + Sync>(
    rt: &R,
    alloc: Global,
    hall: &Hall<C>,
    passes: Vec<Pass<C>>,
    scripts: &Scripts,
    workers: u8,
    gate: &G,
) -> Result<Pooled<C>, RunError<C>>
    requires sessions { map number_of passes.items ≡ numbers SESSIONS }
    requires new { All (IsNew hall.now) passes.items }
    requires scripts { AreDistinct scripts.now }
    requires workers { 1 ≤ workers }
    ensures sessions { IfOk result (λ p. map number_of p.passes.items ≡ numbers SESSIONS) }
    ensures served { IfOk result (λ p. All (IsServed hall.now scripts.now) p.passes.items) }
    ensures taken { IfOk result (λ p. AreTaken scripts.now workers (numbers_in p.taken.items)) }
    ensures cause { IfErr result (IsCause hall.now scripts.now) }
    ensures first { IfErr result (λ e. e ≢ OutOfMemory → IsFirstError (IsTask hall.now scripts.now) e) }
{
    let run = Run {
        hall,
        scripts,
        gate,
    };
    let start = Start { run: &run, passes };
    let workers = WorkerCount { number: workers };
    let Ok((taken, tasks)) = serve_all(rt, alloc, start, workers) else {
        return Err(RunError::OutOfMemory);
    };
    let passes = run.finish(rt, alloc, tasks)?;
    Ok(Pooled { passes, taken })
}

/// Returns the sessions that each worker took, and the tasks of all sessions, in order.
fn serve_all<C: Chains + Send, G: Gate + Sync, R: Threads + Wait + Sync>(
    rt: &R,
    alloc: Global,
    start: Start<'_, C, G>,
    workers: WorkerCount,
) -> Result<(Vec<Vec<Session>>, Vec<Task<C>>), AllocError>
    ensures taken { IfOk result (λ r. AreTaken start.entry.run.now.scripts.now workers.number (numbers_in r.0.items)) }
    ensures tasks { IfOk result (λ r. AreTasks start.entry.run.now.hall.now start.entry.run.now.scripts.now (numbers SESSIONS) r.1.items) }
{
    let run = start.run;
    let divided = divide(start, alloc)?;
    let hands = fill_hands(rt, alloc, run, divided.waiting, workers)?;
    let taken = sessions_in(alloc, &hands)?;
    let tasks = all_tasks(divided.idle, hands)?;
    Ok((taken, in_order(tasks)))
}

/// Returns the hands of the workers, after all waiting sessions were taken.
fn fill_hands<C: Chains + Send, G: Gate + Sync, R: Threads + Wait + Sync>(
    rt: &R,
    alloc: Global,
    run: &Run<'_, C, G>,
    waiting: VecDeque<Waiting<C>>,
    workers: WorkerCount,
) -> Result<Vec<Vec<Task<C>>>, AllocError>
    requires { AreWaiting run.now.hall.now run.now.scripts.now waiting.items }
    ensures { IfOk result (λ v. AreHands run.now.hall.now run.now.scripts.now workers.number (scripted run.now.scripts.now) v.items) }
{
    if waiting.is_empty() {
        return empty_hands(alloc, usize::from(workers.number));
    }
    by_queue::<Brand, C, G, R>(rt, alloc, run, waiting, workers)
}

/// Returns the hands of the workers, after they took the waiting sessions from a queue.
fn by_queue<J, C, G, R>(
    rt: &R,
    alloc: Global,
    run: &Run<'_, C, G>,
    waiting: VecDeque<Waiting<C>>,
    workers: WorkerCount,
) -> Result<Vec<Vec<Task<C>>>, AllocError>
where
    C: Chains + Send,
    G: Gate + Sync,
    J: Roster + Send + Sync,
    R: Threads + Wait + Sync,
    requires some { 0 < deque_len waiting }
    requires roster { IsRosterOf run.now.hall.now waiting.items J.numbers J.hall }
    ensures { IfOk result (λ v. AreHands run.now.hall.now run.now.scripts.now workers.number J.numbers v.items) }
{
    let (line, mut token) = SessionQueue::<C, J>::ruled(alloc, waiting.len())?;
    fill(rt, &line, &mut token, waiting);
    let mut hired = hire(alloc, &line, &mut token, workers.number)?;
    work(rt, run, &line, &mut hired, workers);
    let mut hands = dismiss(alloc, &line, &mut token, hired)?;
    take_rest(rt, run, &line, &mut token, &mut hands[0]);
    Ok(hands)
}
