//! Which sessions wait, and which have nothing to do.

ghost use Rattle.std.specs.Prelude.{◌≡◌, ℕ, ◌+◌, All, map, IfOk};
ghost use Rattle.teb_rules.specs.history.Phases.{numbers};
ghost use Rattle.turn_lock.specs.Counts.{total};
ghost use Rattle.session_tasks.specs.Tasks.{IsTask, number_in};
ghost use Rattle.session_tasks.specs.pool.Waits.{AreWaiting, scripted};

use crate::pool::waiting::Waiting;
use crate::{Gate, Start, Task, place_in};
use session_server::{EngineServer, Pass, Server};
use std::alloc::{AllocError, Global};
use std::collections::VecDeque;
use teb_rules::names::SESSIONS;
use version_chain::Chains;

/// The sessions of a run, divided.
#[derive(Drop)]
pub(crate) struct Divided<C: Chains>
where
    EngineServer<C>: Server,
{
    /// The sessions with a script, in ascending order.
    pub waiting: VecDeque<Waiting<C>>,
    /// The others, each begun.
    pub idle: Vec<Task<C>>,
}

/// Divides the sessions into those with a script and those without.
pub(crate) fn divide<C: Chains, G: Gate>(
    start: Start<'_, C, G>,
    alloc: Global,
) -> Result<Divided<C>, AllocError>
    ensures waiting { IfOk result (λ d. AreWaiting start.entry.run.now.hall.now start.entry.run.now.scripts.now d.waiting.items) }
    ensures idle { IfOk result (λ d. All (IsTask start.entry.run.now.hall.now start.entry.run.now.scripts.now) d.idle.items) }
    ensures all { IfOk result (λ d. (weight : ℕ → ℕ) → total weight (map number_in d.idle.items) + total weight (scripted start.entry.run.now.scripts.now) ≡ total weight (numbers SESSIONS)) }
{
    let run = start.run;
    let mut passes = start.passes;
    let mut waiting = VecDeque::with_capacity(alloc, usize::from(SESSIONS))?;
    let mut idle = Vec::with_capacity(alloc, usize::from(SESSIONS))?;
    while let Some(pass) = passes.pop() {
        let session = pass.session();
        if place_in(run.scripts, session).is_some() {
            waiting.push_front_reserved(Waiting { session, pass });
        } else {
            idle.push_reserved(run.begin(pass));
        }
    }
    Ok(Divided { waiting, idle })
}
