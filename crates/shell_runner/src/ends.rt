//! The end of the sessions that hold a transaction.

ghost use Rattle.std.specs.Prelude.{◌≡◌, ◌≢◌, ◌≤◌, ◌⊎◌, Err, IfErr, IfOk, IsTrue, List, MatchResult, Ok, Option, is_some, ℕ};
ghost use Rattle.teb_io.specs.Faults.{Rose};
ghost use Rattle.teb_rules.specs.declared.names.Request.TheVariants as requests;
ghost use Rattle.teb_rules.specs.history.Phases.{held};
ghost use Rattle.shell_lines.specs.declared.line.ShellLine.TheVariants as lines;
ghost use Rattle.shell_runner.specs.States.{IsReached, IsReady};
ghost use Rattle.shell_runner.specs.Holders.{IsReleased};
ghost use Rattle.shell_runner.specs.Runs.{Answers, EndsAtEnd, EndsIfHeld, HasEnded, HasRead, IsSafely, StopsAt, state_of};
ghost use Rattle.shell_runner.specs.declared.shell.Shell.{Shell as TheShell};
ghost use Rattle.shell_runner.specs.declared.step.After.{After as TheAfter};
ghost use Rattle.shell_runner.specs.declared.step.After.TheVariants as afters;

use crate::ended::{EndStatus, Ended, RunError};
use crate::requests::ask_store;
use crate::step::After;
use crate::writing::write_step;
use crate::{Shell, ShellStore};
use std::alloc::Global;
use teb_io::Sink;
use teb_rules::names::{Request, SESSIONS, Session};

/// Ends each session that holds a transaction, in ascending number, and writes the answers.
pub(crate) fn end_sessions<T: ShellStore, K: Sink>(
    alloc: Global,
    shell: Shell<T>,
    tree: &[u8],
    any_bad: bool,
    out: &mut K,
) -> Ended<T>
    requires { IsReady tree.now (T.stored shell.store) }
    ensures ended { (first : TheShell T) (left before : Option (List ℕ)) → HasRead T.stored T.safe first left before any_bad shell (K.written out.old)
        → HasEnded T.stored T.safe first left before result.status result.shell (K.written out.new) }
    ensures read { result.status ≢ EndStatus.Failed RunError.ReadFault }
    ensures write_fault { result.status ≡ EndStatus.Failed RunError.WriteFault → Rose (K.faults out.old) (K.faults out.new) }
{
    let mut last = shell;
    for number in 1..SESSIONS + 1 {
        let (next, ended) = end_if_held(alloc, last, tree, Session(number), out);
        last = next;
        match ended {
            Ok(()) => {}
            Err(error) => return Ended {
                shell: last,
                status: EndStatus::Failed(error),
            },
        }
    }
    Ended {
        shell: last,
        status: EndStatus::Done { any_bad },
    }
}

/// Ends a session, if it holds a transaction, and writes the answer. Then it holds none.
///
/// # Errors
/// Why the run ends early.
fn end_if_held<T: ShellStore, K: Sink>(
    alloc: Global,
    shell: Shell<T>,
    tree: &[u8],
    session: Session,
    out: &mut K,
) -> (Shell<T>, Result<(), RunError>)
    requires ready { IsReady tree.now (T.stored shell.store) }
    ensures ended { MatchResult result.1 (λ _. EndsIfHeld T.stored T.safe session shell result.0 (K.written out.old) (K.written out.new))
        (λ why. EndsAtEnd T.stored T.safe session why shell result.0 (K.written out.old) (K.written out.new)) }
    ensures released { IfOk result.1 (λ _. IsReleased session.0 (T.stored shell.store).events (T.stored result.0.store).events) }
    ensures ready { IfOk result.1 (λ _. IsReady tree.now (T.stored result.0.store)) }
    ensures read { IfErr result.1 (λ why. why ≢ RunError.ReadFault) }
    ensures write_fault { IfErr result.1 (λ why. why ≡ RunError.WriteFault → Rose (K.faults out.old) (K.faults out.new)) }
    ensures writes { K.faults out.old ≤ K.faults out.new }
{
    match shell.store.history().held(session) {
        Some(_) => {
            let (shell, after) = end_session(alloc, shell, tree, session, out);
            (shell, goes_on(after))
        }
        None => (shell, Ok(())),
    }
}

/// Goes on after a session was ended.
///
/// # Errors
/// Why the run ends early; `DiskFault` after `Stopped`.
fn goes_on(after: Result<After, RunError>) -> Result<(), RunError>
    ensures { MatchResult result (λ _. (a : TheAfter) × (after ≡ Ok a) × (a ≡ afters.Stopped → ⊥)) (λ why. (after ≡ Err why) ⊎ ((after ≡ Ok afters.Stopped) × (why ≡ RunError.DiskFault))) }
{
    match after {
        Ok(After::Stopped) => Err(RunError::DiskFault),
        Ok(After::Next) => Ok(()),
        Ok(After::Bad) => Ok(()),
        Ok(After::Quit) => Ok(()),
        Err(error) => Err(error),
    }
}

/// Ends a session, and writes the answer.
///
/// # Errors
/// Why the run ends early: `WriteFault` or `OutOfMemory`.
fn end_session<T: ShellStore, K: Sink>(
    alloc: Global,
    shell: Shell<T>,
    tree: &[u8],
    session: Session,
    out: &mut K,
) -> (Shell<T>, Result<After, RunError>)
    requires ready { IsReady tree.now (T.stored shell.store) }
    ensures step { MatchResult result.1
        (λ after. Answers 1 (state_of T.stored shell) (lines.Ask session requests.End) after (state_of T.stored result.0) (K.written out.old) (K.written out.new))
        (λ why. StopsAt 1 (state_of T.stored shell) (lines.Ask session requests.End) why (state_of T.stored result.0) (K.written out.old) (K.written out.new)) }
    ensures released { IsReached (T.stored shell.store) → IsTrue (is_some (held (T.stored shell.store).events session.0))
        → IfOk result.1 (λ _. IsReleased session.0 (T.stored shell.store).events (T.stored result.0.store).events) }
    ensures ready { IfOk result.1 (λ after. (after ≡ afters.Stopped → ⊥) → IsReady tree.now (T.stored result.0.store)) }
    ensures safe { IsSafely T.safe shell result.0 }
    ensures format { result.0.format ≡ shell.format }
    ensures write_fault { IfErr result.1 (λ why. why ≡ RunError.WriteFault → Rose (K.faults out.old) (K.faults out.new)) }
    ensures read { IfErr result.1 (λ why. why ≢ RunError.ReadFault) }
    ensures writes { K.faults out.old ≤ K.faults out.new }
{
    let mut text = Vec::new(alloc);
    let (shell, after) = ask_store(alloc, shell, tree, session, Request::End, &mut text);
    (shell, write_step(out, after, &text))
}
