//! Workers that serve the scripts of an input.

ghost use Rattle.std.specs.Prelude.{◌≡◌, ◌≢◌, ◌≤◌, [], All, map, IfOk, IfErr};
ghost use Rattle.teb_rules.specs.history.Phases.{numbers};
ghost use Rattle.teb_rules.specs.Driver.{Ascending};
ghost use Rattle.script_runner.specs.turns.Seats.{scripts_on};
ghost use Rattle.session_server.specs.Passes.{IsNew, number_of};
ghost use Rattle.session_tasks.specs.Scripted.{AreDistinct};
ghost use Rattle.session_tasks.specs.Served.{IsServed, IsCause};
ghost use Rattle.session_tasks.specs.Errors.{IsFirstError};
ghost use Rattle.session_tasks.specs.Tasks.{IsTask};
ghost use Rattle.session_tasks.specs.declared.error.RunError.TheVariants.{OutOfMemory};
ghost use Rattle.script_runner.specs.Runs.{IsSerialized};
ghost use Rattle.hall_runner.specs.Outcomes.{IsServedBy, IsServedOver, IsSerializedOver, AreSetUp, history_in};

use crate::closing::closed;
use crate::served::Served;
use chain_pool::PooledChains;
use engine_core::Engine;
use input_reader::Input;
use script_text::{Scripts, scripts_of};
use session_server::{Hall, Pass};
use session_tasks::pool::run_pool;
use session_tasks::threads::run_threads;
use session_tasks::{Gate, RunError};
use std::alloc::{AllocError, Global};
use std::sync::Wait;
use std::thread::Threads;
use teb_rules::names::SESSIONS;
use version_chain::Chains;

/// How the sessions get to the workers.
#[derive(Clone, Copy, Debug, PartialEq, Eq)]
enum Runner {
    /// They are dealt beforehand.
    Threads,
    /// They wait in a queue.
    Pool,
}

/// Serves the script of each session on this number of workers, among which the sessions are divided beforehand. The hook `gate`
/// is called before and after each request.
///
/// # Errors
/// `AllocError`: out of memory. The run is dropped.
pub fn serve_by_threads<R: Threads + Wait + Sync, G: Gate + Sync>(
    rt: &R,
    alloc: Global,
    input: Input,
    workers: u8,
    gate: &G,
) -> Result<Served, AllocError>
    requires workers { 1 ≤ workers }
    ensures served { IfOk result (IsServedBy input) }
    ensures serialized { IfOk result (λ s. IsSerialized (λ m. input.setup ≡ m) (history_in s)) }
{
    serve_input(rt, alloc, Runner::Threads, input, workers, gate)
}

/// Serves the script of each session on this number of workers, which take the sessions from a queue. The hook `gate` is called
/// before and after each request.
///
/// # Errors
/// `AllocError`: out of memory. The run is dropped.
pub fn serve_by_pool<R: Threads + Wait + Sync, G: Gate + Sync>(
    rt: &R,
    alloc: Global,
    input: Input,
    workers: u8,
    gate: &G,
) -> Result<Served, AllocError>
    requires workers { 1 ≤ workers }
    ensures served { IfOk result (IsServedBy input) }
    ensures serialized { IfOk result (λ s. IsSerialized (λ m. input.setup ≡ m) (history_in s)) }
{
    serve_input(rt, alloc, Runner::Pool, input, workers, gate)
}

/// Serves the script of each session.
fn serve_input<R: Threads + Wait + Sync, G: Gate + Sync>(
    rt: &R,
    alloc: Global,
    runner: Runner,
    input: Input,
    workers: u8,
    gate: &G,
) -> Result<Served, AllocError>
    requires workers { 1 ≤ workers }
    ensures served { IfOk result (IsServedBy input) }
    ensures serialized { IfOk result (λ s. IsSerialized (λ m. input.setup ≡ m) (history_in s)) }
{
    let (setup, lines) = input.into_parts();
    let scripts = scripts_of(alloc, &lines)?;
    let engine = Engine::new(alloc, setup, PooledChains::new(alloc))?;
    serve_scripts(rt, alloc, runner, engine, &scripts, workers, gate)
}

/// Serves the scripts in a hall over an engine with an empty history.
fn serve_scripts<R: Threads + Wait + Sync, G: Gate + Sync>(
    rt: &R,
    alloc: Global,
    runner: Runner,
    engine: Engine<PooledChains>,
    scripts: &Scripts,
    workers: u8,
    gate: &G,
) -> Result<Served, AllocError>
    requires workers { 1 ≤ workers }
    requires new { engine.events ≡ [] }
    requires setup { AreSetUp engine.store engine.names }
    requires ascending { Ascending 0 (scripts_on scripts.now) }
    ensures served { IfOk result (IsServedOver engine.store engine.names scripts.now) }
    ensures serialized { IfOk result (λ s. IsSerializedOver engine.store (history_in s)) }
{
    let Ok((hall, passes)) = Hall::make(alloc, engine) else {
        return Err(AllocError);
    };
    match serve_sessions(rt, alloc, runner, &hall, passes, scripts, workers, gate) {
        Ok(passes) => closed(alloc, hall, passes, scripts),
        Err(RunError::PassSpent(pass)) => Ok(Served::Spent(pass)),
        Err(RunError::OutOfMemory) => Err(AllocError),
    }
}

/// Serves the sessions, and returns their passes in order.
fn serve_sessions<C: Chains + Send, R: Threads + Wait + Sync, G: Gate + Sync>(
    rt: &R,
    alloc: Global,
    runner: Runner,
    hall: &Hall<C>,
    passes: Vec<Pass<C>>,
    scripts: &Scripts,
    workers: u8,
    gate: &G,
) -> Result<Vec<Pass<C>>, RunError<C>>
    requires sessions { map number_of passes.items ≡ numbers SESSIONS }
    requires new { All (IsNew hall.now) passes.items }
    requires scripts { AreDistinct scripts.now }
    requires workers { 1 ≤ workers }
    ensures sessions { IfOk result (λ v. map number_of v.items ≡ numbers SESSIONS) }
    ensures served { IfOk result (λ v. All (IsServed hall.now scripts.now) v.items) }
    ensures cause { IfErr result (IsCause hall.now scripts.now) }
    ensures first { IfErr result (λ e. e ≢ OutOfMemory → IsFirstError (IsTask hall.now scripts.now) e) }
{
    match runner {
        Runner::Threads => run_threads(rt, alloc, hall, passes, scripts, workers, gate),
        Runner::Pool => serve_from_queue(rt, alloc, hall, passes, scripts, workers, gate),
    }
}

/// Serves the sessions from a queue, and returns their passes in order.
fn serve_from_queue<C: Chains + Send, R: Threads + Wait + Sync, G: Gate + Sync>(
    rt: &R,
    alloc: Global,
    hall: &Hall<C>,
    passes: Vec<Pass<C>>,
    scripts: &Scripts,
    workers: u8,
    gate: &G,
) -> Result<Vec<Pass<C>>, RunError<C>>
    requires sessions { map number_of passes.items ≡ numbers SESSIONS }
    requires new { All (IsNew hall.now) passes.items }
    requires scripts { AreDistinct scripts.now }
    requires workers { 1 ≤ workers }
    ensures sessions { IfOk result (λ v. map number_of v.items ≡ numbers SESSIONS) }
    ensures served { IfOk result (λ v. All (IsServed hall.now scripts.now) v.items) }
    ensures cause { IfErr result (IsCause hall.now scripts.now) }
    ensures first { IfErr result (λ e. e ≢ OutOfMemory → IsFirstError (IsTask hall.now scripts.now) e) }
{
    Ok(run_pool(rt, alloc, hall, passes, scripts, workers, gate)?.passes)
}
