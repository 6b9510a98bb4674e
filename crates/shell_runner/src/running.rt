//! The loop over the lines.

ghost use Rattle.std.specs.Prelude.{◌≡◌, ◌≢◌, ◌+◌, ◌≤◌, ◌⊎◌, Bool, Err, IfErr, IfOk, List, MatchResult, Ok, OnOk, Option, ℕ};
ghost use Rattle.teb_io.specs.Faults.{Rose};
ghost use Rattle.line_reader.specs.Lines.{ahead};
ghost use Rattle.shell_runner.specs.States.{IsReady};
ghost use Rattle.shell_runner.specs.Runs.{Answers, GoesOn, HasEnded, HasRead, HasRun, IsSafely, StopsAt, state_of};
ghost use Rattle.shell_runner.specs.declared.shell.Shell.{Shell as TheShell};
ghost use Rattle.shell_runner.specs.Flows.{after_of};
ghost use Rattle.shell_runner.specs.declared.step.After.TheVariants as afters;

use crate::asking::{Asked, next_asked};
use crate::ended::{EndStatus, Ended, RunError};
use crate::ends::end_sessions;
use crate::files::show_prompt;
use crate::step::{After, answer};
use crate::writing::write_step;
use crate::{Host, Shell, ShellStore};
use line_reader::LineReader;
use std::alloc::Global;
use teb_io::{Sink, Source};

/// Reads, answers and writes each line before the next one, until the end of the input or `.quit`; then ends the sessions that hold a
/// transaction, in ascending number. It ends early if a read, a write or the disk fails, if a line is too long, or if it is out of memory.
pub fn run<T: ShellStore, H: Host, S: Source, K: Sink>(
    alloc: Global,
    shell: Shell<T>,
    tree: &[u8],
    host: &mut H,
    input: &mut S,
    out: &mut K,
) -> Ended<T>
    requires ready { IsReady tree.now (T.stored shell.store) }
    ensures ended { HasEnded T.stored T.safe shell (S.left input.old) (K.written out.old) result.status result.shell (K.written out.new) }
    ensures read_fault { result.status ≡ EndStatus.Failed RunError.ReadFault → Rose (S.faults input.old) (S.faults input.new) }
    ensures no_read_fault { result.status ≢ EndStatus.Failed RunError.ReadFault → S.faults input.new ≡ S.faults input.old }
    ensures write_fault { result.status ≡ EndStatus.Failed RunError.WriteFault → Rose (K.faults out.old) (K.faults out.new) }
{
    let (shell, lines) = run_lines(alloc, shell, tree, host, input, out);
    match lines {
        Ok(any_bad) => end_sessions(alloc, shell, tree, any_bad, out),
        Err(error) => Ended {
            shell,
            status: EndStatus::Failed(error),
        },
    }
}

/// Reads, answers and writes each line, until the end of the input or `.quit`. Returns whether a line was bad.
///
/// # Errors
/// Why the run ends early.
fn run_lines<T: ShellStore, H: Host, S: Source, K: Sink>(
    alloc: Global,
    shell: Shell<T>,
    tree: &[u8],
    host: &mut H,
    input: &mut S,
    out: &mut K,
) -> (Shell<T>, Result<bool, RunError>)
    requires ready { IsReady tree.now (T.stored shell.store) }
    ensures read { IfOk result.1 (λ any_bad. HasRead T.stored T.safe shell (S.left input.old) (K.written out.old) any_bad result.0 (K.written out.new)) }
    ensures ready { IfOk result.1 (λ any_bad. IsReady tree.now (T.stored result.0.store)) }
    ensures ended { IfErr result.1 (λ why. HasEnded T.stored T.safe shell (S.left input.old) (K.written out.old) (EndStatus.Failed why) result.0 (K.written out.new)) }
    ensures read_fault { IfErr result.1 (λ why. why ≡ RunError.ReadFault → Rose (S.faults input.old) (S.faults input.new)) }
    ensures no_read_fault { OnOk result.1 (S.faults input.new ≡ S.faults input.old) }
    ensures no_other_fault { IfErr result.1 (λ why. why ≢ RunError.ReadFault → S.faults input.new ≡ S.faults input.old) }
    ensures write_fault { IfErr result.1 (λ why. why ≡ RunError.WriteFault → Rose (K.faults out.old) (K.faults out.new)) }
    ensures later { K.faults out.old ≤ K.faults out.new }
{
    let mut last = shell;
    let mut reader = LineReader::new(alloc);
    let mut any_bad = false;
    for number in 1..u64::MAX {
        let (next, step) = next_step(alloc, last, tree, number, host, &mut reader, input, out);
        last = next;
        match step {
            Ok(Flow::Next) => {}
            Ok(Flow::Bad) => any_bad = true,
            Ok(Flow::End) => return (last, Ok(any_bad)),
            Err(error) => return (last, Err(error)),
        }
    }
    (last, Ok(any_bad))
}

/// Whether a line follows.
#[derive(Clone, Copy)]
pub(crate) enum Flow {
    Next,
    /// The same; this line was bad.
    Bad,
    End,
}

/// Reads, answers and writes the next line.
///
/// # Errors
/// Why the run ends early.
fn next_step<T: ShellStore, H: Host, S: Source, K: Sink>(
    alloc: Global,
    shell: Shell<T>,
    tree: &[u8],
    number: u64,
    host: &mut H,
    reader: &mut LineReader,
    input: &mut S,
    out: &mut K,
) -> (Shell<T>, Result<Flow, RunError>)
    requires ready { IsReady tree.now (T.stored shell.store) }
    ensures next { (first : TheShell T) (left before : Option (List ℕ)) (n : ℕ) (any_bad : Bool) → number ≡ n + 1
        → HasRun T.stored T.safe first left before n any_bad shell (ahead reader.old (S.left input.old)) (K.written out.old)
        → MatchResult result.1 (λ flow. GoesOn T.stored T.safe first left before number any_bad flow result.0 (ahead reader.new (S.left input.new)) (K.written out.new))
        (λ why. HasEnded T.stored T.safe first left before (EndStatus.Failed why) result.0 (K.written out.new)) }
    ensures ready { IfOk result.1 (λ flow. IsReady tree.now (T.stored result.0.store)) }
    ensures read_fault { IfErr result.1 (λ why. why ≡ RunError.ReadFault → Rose (S.faults input.old) (S.faults input.new)) }
    ensures no_read_fault { OnOk result.1 (S.faults input.new ≡ S.faults input.old) }
    ensures no_other_fault { IfErr result.1 (λ why. why ≢ RunError.ReadFault → S.faults input.new ≡ S.faults input.old) }
    ensures write_fault { IfErr result.1 (λ why. why ≡ RunError.WriteFault → Rose (K.faults out.old) (K.faults out.new)) }
    ensures reads { S.faults input.old ≤ S.faults input.new }
    ensures writes { K.faults out.old ≤ K.faults out.new }
{
    show_prompt(alloc, host, shell.store.history());
    let asked = match next_asked(
        alloc,
        host,
        shell.store.names(),
        shell.format,
        reader,
        input,
    ) {
        Ok(Some(asked)) => asked,
        Ok(None) => return (shell, Ok(Flow::End)),
        Err(error) => return (shell, Err(error)),
    };
    let (shell, after) = take_line(alloc, shell, tree, number, asked, out);
    (shell, flow_of(after))
}

/// Answers and writes a line.
///
/// # Errors
/// Why the run ends early: `WriteFault` or `OutOfMemory`.
fn take_line<T: ShellStore, K: Sink>(
    alloc: Global,
    shell: Shell<T>,
    tree: &[u8],
    number: u64,
    asked: Asked,
    out: &mut K,
) -> (Shell<T>, Result<After, RunError>)
    requires { IsReady tree.now (T.stored shell.store) }
    ensures step { MatchResult result.1
        (λ after. Answers number (state_of T.stored shell) asked.asks after (state_of T.stored result.0) (K.written out.old) (K.written out.new))
        (λ why. StopsAt number (state_of T.stored shell) asked.asks why (state_of T.stored result.0) (K.written out.old) (K.written out.new)) }
    ensures ready { IfOk result.1 (λ after. (after ≡ afters.Stopped → ⊥) → IsReady tree.now (T.stored result.0.store)) }
    ensures safe { IsSafely T.safe shell result.0 }
    ensures write_fault { IfErr result.1 (λ why. why ≡ RunError.WriteFault → Rose (K.faults out.old) (K.faults out.new)) }
    ensures writes { K.faults out.old ≤ K.faults out.new }
{
    let mut text = Vec::new(alloc);
    let (shell, after) = answer(alloc, shell, tree, number, asked, &mut text);
    (shell, write_step(out, after, &text))
}

/// Returns what follows a line that was answered.
///
/// # Errors
/// Why the run ends early; `DiskFault` after `Stopped`.
fn flow_of(after: Result<After, RunError>) -> Result<Flow, RunError>
    ensures { MatchResult result (λ flow. (after ≡ Ok (after_of flow))) (λ why. (after ≡ Err why) ⊎ ((after ≡ Ok afters.Stopped) × (why ≡ RunError.DiskFault))) }
{
    match after {
        Ok(After::Next) => Ok(Flow::Next),
        Ok(After::Bad) => Ok(Flow::Bad),
        Ok(After::Quit) => Ok(Flow::End),
        Ok(After::Stopped) => Err(RunError::DiskFault),
        Err(error) => Err(error),
    }
}
