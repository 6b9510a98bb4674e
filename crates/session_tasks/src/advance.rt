//! How a session is begun, and how it goes on.

ghost use Rattle.std.specs.Prelude.{◌≡◌, ◌≢◌, true};
ghost use Rattle.std.specs.Option.{IsSome};
ghost use Rattle.session_server.specs.Passes.{IsNew};
ghost use Rattle.session_tasks.specs.Stops.{FoundRaised, FoundClear};
ghost use Rattle.session_tasks.specs.Tasks.{IsTask, progress_at, progress_after};
ghost use Rattle.session_tasks.specs.declared.task.Progress.TheVariants.{Open, Through};

use crate::gate::Gate;
use crate::place::{lines_at, place_in};
use crate::run::Run;
use crate::serving::serve;
use crate::stop::Stops;
use crate::task::{Progress, Task};
use script_walk::Walker;
use session_server::{AskError, Pass};
use std::sync::Wait;
use std::sync::atomic::Ordering::SeqCst;
use std::sync::atomic::{AtomicIn, Rule};
use version_chain::Chains;

impl<C: Chains, G: Gate> Run<'_, C, G> {
    /// Returns a session before its first request.
    pub fn begin(&self, pass: Pass<C>) -> Task<C>
        requires { IsNew self.now.hall.now pass }
        ensures task { IsTask self.now.hall.now self.now.scripts.now result }
        ensures session { result.pass.session ≡ pass.session }
    {
        let place = place_in(self.scripts, pass.session());
        Task {
            place,
            pass,
            walker: Walker::new(),
            progress: progress_at(place),
        }
    }

    /// Serves a session from its present line, if it is open; else nothing changes. It stays open only if there is a stop word.
    pub fn advance<S: Rule, R: Wait>(&self, rt: &R, task: &mut Task<C>, stop: Option<&AtomicIn<S>>)
        requires { IsTask self.now.hall.now self.now.scripts.now task.old }
        ensures task { IsTask self.now.hall.now self.now.scripts.now task.new }
        ensures session { task.new.pass.session ≡ task.old.pass.session }
        ensures stopped { task.new.progress ≡ Open → IsSome stop.entry }
        ensures found { task.new.progress ≡ Open → FoundRaised S.invariant }
        ensures looked { IsSome stop.entry → task.new.pass.asks ≢ task.old.pass.asks → FoundClear S.invariant }
        ensures done { task.old.progress ≢ Open → task.new ≡ task.old }
    {
        if task.progress != Progress::Open {
            return;
        }
        let lines = lines_at(self.scripts, task.place);
        let answer = serve(
            rt,
            self.hall,
            &mut task.pass,
            lines,
            &mut task.walker,
            stop,
            self.gate,
        );
        task.progress = progress_after(answer);
    }

    /// Serves a session in a worker, and returns whether the worker goes on: false if the session was stopped, or meets an error,
    /// which raises the stop word.
    pub fn serve<R: Wait>(&self, rt: &R, task: &mut Task<C>, stop: &AtomicIn<Stops>) -> bool
        requires { IsTask self.now.hall.now self.now.scripts.now task.old }
        ensures task { IsTask self.now.hall.now self.now.scripts.now task.new }
        ensures session { task.new.pass.session ≡ task.old.pass.session }
        ensures through { result ≡ true → task.new.progress ≡ Through }
        ensures goes_on { task.new.progress ≡ Through → result ≡ true }
    {
        self.advance(rt, task, Some(stop));
        match task.progress {
            Progress::Through => true,
            Progress::Open => false,
            Progress::Failed(_) => {
                stop.store(1, SeqCst);
                false
            }
        }
    }
}

/// Returns how far a session has come before its first request: one without a script is done.
fn progress_at(place: Option<usize>) -> Progress
    ensures { result ≡ progress_at place }
{
    match place {
        Some(_) => Progress::Open,
        None => Progress::Through,
    }
}

/// Returns how far a session has come, after it was served.
fn progress_after(answer: Result<bool, AskError>) -> Progress
    ensures { result ≡ progress_after answer }
{
    match answer {
        Ok(true) => Progress::Through,
        Ok(false) => Progress::Open,
        Err(error) => Progress::Failed(error),
    }
}
