//! The workers.

ghost use Rattle.std.specs.Prelude.{◌≡◌, ◌-◌, ◌<◌, [], true, All, length, IfOk, IfSome, IfNone, OnOk, vec_len};
ghost use Rattle.crossbeam_queue.specs.Passes.{view, IsPassOf};
ghost use Rattle.session_tasks.specs.Tasks.{IsTask, number_in};
ghost use Rattle.session_tasks.specs.pool.HandedOut.{IsTaken};
ghost use Rattle.session_tasks.specs.pool.Suits.{Suits};
ghost use Rattle.session_tasks.specs.pool.Tallies.{tally, after_pop};
ghost use Rattle.session_tasks.specs.pool.Workers.{IsHired, IsAtWork};

use crate::pool::queue::{Roster, SessionQueue, Token};
use crate::pool::steps::{Part, Take};
use crate::pool::worker::Worker;
use crate::pool::worker_count::WorkerCount;
use crate::{Gate, Run, Stops, Task};
use std::alloc::{AllocError, Global};
use std::sync::Wait;
use std::sync::atomic::AtomicIn;
use std::thread;
use std::thread::Threads;
use teb_rules::names::SESSIONS;
use version_chain::Chains;

/// Returns workers with empty hands. The token gives a part to each.
pub(crate) fn hire<C: Chains, J: Roster>(
    alloc: Global,
    line: &SessionQueue<C, J>,
    token: &mut Token<C>,
    workers: u8,
) -> Result<Vec<Worker<C>>, AllocError>
    requires token { IsPassOf line.now token.old × (view token.old ≡ tally 256 true (length J.numbers) []) }
    ensures token { IsPassOf line.now token.new }
    ensures knows { OnOk result (view token.new ≡ tally (256 - workers) true (length J.numbers) []) }
    ensures count { IfOk result (λ v. vec_len v ≡ workers) }
    ensures workers { IfOk result (λ v. All (IsHired line.now) v.items) }
{
    let mut hired = Vec::with_capacity(alloc, usize::from(workers))?;
    for _ in 0..workers {
        let hand = Vec::with_capacity(alloc, usize::from(SESSIONS))?;
        let token = line.another::<Part>(token);
        hired.push_reserved(Worker { token, hand });
    }
    Ok(hired)
}

/// Has each worker take sessions and serve them, in its thread.
pub(crate) fn work<C, G, J, R>(
    rt: &R,
    run: &Run<'_, C, G>,
    line: &SessionQueue<C, J>,
    workers: &mut [Worker<C>],
    count: WorkerCount,
)
where
    C: Chains + Send,
    G: Gate + Sync,
    J: Roster + Send + Sync,
    R: Threads + Wait + Sync,
    requires suits { Suits run.now.hall.now J.numbers J.hall }
    requires workers { All (IsAtWork line.now run.now.hall.now run.now.scripts.now) workers.old }
    ensures { All (IsAtWork line.now run.now.hall.now run.now.scripts.now) workers.new }
{
    let stop = AtomicIn::<Stops>::new(0);
    let threads = usize::from(count.number);
    thread::for_each_mut(
        rt,
        workers,
        threads,
        &|_, worker| serve(rt, run, line, worker, &stop),
    );
}

/// Takes sessions from the queue and serves them, until none is left, or one is stopped or meets an error.
fn serve<C: Chains, G: Gate, J: Roster, R: Wait>(
    rt: &R,
    run: &Run<'_, C, G>,
    line: &SessionQueue<C, J>,
    worker: &mut Worker<C>,
    stop: &AtomicIn<Stops>,
)
    requires suits { Suits run.now.hall.now J.numbers J.hall }
    requires worker { IsAtWork line.now run.now.hall.now run.now.scripts.now worker.old }
    ensures { IsAtWork line.now run.now.hall.now run.now.scripts.now worker.new }
{
    while let Some(mut task) = take(rt, run, line, &mut worker.token) {
        let goes_on = run.serve(rt, &mut task, stop);
        worker.hand.push_reserved(task);
        if !goes_on {
            return;
        }
    }
}

/// Takes the next session from the queue, and begins it.
fn take<C: Chains, G: Gate, J: Roster, R: Wait>(
    rt: &R,
    run: &Run<'_, C, G>,
    line: &SessionQueue<C, J>,
    token: &mut Token<C>,
) -> Option<Task<C>>
    requires suits { Suits run.now.hall.now J.numbers J.hall }
    requires token { IsPassOf line.now token.old × (0 < (view token.old).parts) }
    ensures token { IsPassOf line.now token.new }
    ensures task { IfSome result (IsTask run.now.hall.now run.now.scripts.now) }
    ensures taken { IfSome result (λ t. (view token.new ≡ after_pop (view token.old) (number_in t)) × IsTaken SESSIONS (view token.old) (view token.new)) }
    ensures none { IfNone result (view token.new ≡ view token.old) }
{
    match line.pop_as::<Take<J>, R>(rt, token) {
        Some(next) => Some(run.begin(next.pass)),
        None => None,
    }
}
