//! Sessions that were stopped are served to their end.

ghost use Rattle.std.specs.Prelude.{◌≡◌, ◌≢◌, All, map, IfOk, IfErr};
ghost use Rattle.std.specs.List.{Contains};
ghost use Rattle.teb_rules.specs.history.Phases.{numbers};
ghost use Rattle.session_server.specs.Passes.{number_of};
ghost use Rattle.session_tasks.specs.Scripted.{AreDistinct};
ghost use Rattle.session_tasks.specs.Tasks.{IsTask, AreTasks};
ghost use Rattle.session_tasks.specs.Served.{IsServed, IsCause};
ghost use Rattle.session_tasks.specs.Errors.{error_of, HasFailed, IsFirstError};
ghost use Rattle.session_tasks.specs.declared.error.RunError.TheVariants.{OutOfMemory};
ghost use Rattle.session_tasks.specs.declared.task.Progress.TheVariants.{Failed, Through};

use crate::error::RunError;
use crate::gate::Gate;
use crate::run::Run;
use crate::stop::Stops;
use crate::task::{Progress, Task};
use session_server::{AskError, Pass};
use std::alloc::Global;
use std::collections::VecDeque;
use std::sync::Wait;
use teb_rules::names::SESSIONS;
use version_chain::Chains;

impl<C: Chains, G: Gate> Run<'_, C, G> {
    /// Serves each session to its end, in order, and returns their passes.
    ///
    /// # Errors
    /// The error of the first session that has met one, before any is served. If none has, the error of the first session that
    /// meets one; the sessions before it are served to their ends. `OutOfMemory` may also be returned before the first is served.
    pub fn finish<R: Wait>(
        &self,
        rt: &R,
        alloc: Global,
        tasks: Vec<Task<C>>,
    ) -> Result<Vec<Pass<C>>, RunError<C>>
        requires tasks { AreTasks self.now.hall.now self.now.scripts.now (numbers SESSIONS) tasks.items }
        requires scripts { AreDistinct self.now.scripts.now }
        ensures sessions { IfOk result (λ v. map number_of v.items ≡ numbers SESSIONS) }
        ensures served { IfOk result (λ v. All (IsServed self.now.hall.now self.now.scripts.now) v.items) }
        ensures cause { IfErr result (IsCause self.now.hall.now self.now.scripts.now) }
        ensures first { IfErr result (λ e. e ≢ OutOfMemory → IsFirstError (IsTask self.now.hall.now self.now.scripts.now) e) }
    {
        let mut tasks = self.none_failed(tasks)?;
        let Ok(mut passes) = Vec::with_capacity(alloc, usize::from(SESSIONS)) else {
            return Err(RunError::OutOfMemory);
        };
        while let Some(task) = tasks.pop_front() {
            passes.push_reserved(self.finish_task(rt, task)?);
        }
        Ok(passes)
    }

    /// Returns the tasks of all sessions, if none has met an error, or the error of the first session that has.
    fn none_failed(&self, mut tasks: Vec<Task<C>>) -> Result<VecDeque<Task<C>>, RunError<C>>
        requires { AreTasks self.now.hall.now self.now.scripts.now (numbers SESSIONS) tasks.items }
        ensures same { IfOk result (λ v. v.items ≡ tasks.items) }
        ensures cause { IfErr result (IsCause self.now.hall.now self.now.scripts.now) }
        ensures first { IfErr result (IsFirstError (λ t. IsTask self.now.hall.now self.now.scripts.now t × Contains tasks.items t)) }
    {
        for i in 0..tasks.len() {
            if let Progress::Failed(error) = tasks[i].progress {
                return Err(self.fail(tasks.swap_remove(i), error));
            }
        }
        Ok(VecDeque::from(tasks))
    }

    /// Serves a session to its end, and returns its pass.
    fn finish_task<R: Wait>(&self, rt: &R, mut task: Task<C>) -> Result<Pass<C>, RunError<C>>
        requires task { IsTask self.now.hall.now self.now.scripts.now task }
        requires scripts { AreDistinct self.now.scripts.now }
        ensures session { IfOk result (λ p. p.session ≡ task.pass.session) }
        ensures served { IfOk result (IsServed self.now.hall.now self.now.scripts.now) }
        ensures through { IfOk result (λ p. (t : _) × IsTask self.now.hall.now self.now.scripts.now t × (t.progress ≡ Through) × (t.pass ≡ p)) }
        ensures cause { IfErr result (IsCause self.now.hall.now self.now.scripts.now) }
        ensures failed { IfErr result (HasFailed (IsTask self.now.hall.now self.now.scripts.now) task.pass.session.0) }
    {
        self.advance::<Stops, R>(rt, &mut task, None);
        match task.progress {
            Progress::Through => Ok(task.pass),
            Progress::Failed(error) => Err(self.fail(task, error)),
            Progress::Open => unreachable!(),
        }
    }

    /// Returns the error of a run in which a session met this one: `PassSpent` with the pass, or `OutOfMemory`.
    pub fn fail(&self, task: Task<C>, error: AskError) -> RunError<C>
        requires task { IsTask self.now.hall.now self.now.scripts.now task }
        requires failed { task.progress ≡ Failed error }
        ensures error { result ≡ error_of task.pass error }
        ensures cause { IsCause self.now.hall.now self.now.scripts.now result }
    {
        match error {
            AskError::PassSpent => RunError::PassSpent(task.pass),
            AskError::OutOfMemory => RunError::OutOfMemory,
        }
    }
}
