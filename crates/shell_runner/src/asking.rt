//! What the next line asks.

ghost use Rattle.std.specs.Prelude.{◌≡◌, ◌≢◌, ◌↔◌, ◌<◌, ◌≤◌, ◌^◌, ◌++◌, IfErr, IfOk, IfSome, List, MatchOption, OnOk, length, ℕ};
ghost use Rattle.std.specs.Io.KnownBytes.{IsAtEnd};
ghost use Rattle.script_text.specs.Lines.{lines_of};
ghost use Rattle.teb_io.specs.Faults.{Rose};
ghost use Rattle.teb_io.specs.declared.source.ReadError.TheVariants as reads;
ghost use Rattle.line_reader.specs.Lines.{IsTooLong, ahead};
ghost use Rattle.shell_lines.specs.Lines.{shell_line};
ghost use Rattle.shell_runner.specs.Runs.{AsksNext, Brings, IsUnread};

use crate::Host;
use crate::ended::RunError;
use crate::files::bring_file;
use line_reader::LineReader;
use shell_lines::{ShellLine, Unable, parse_line};
use std::alloc::{AllocError, Global};
use teb_io::{ReadError, Source};
use teb_rules::names::NameBook;

/// What a line asks, and why the file that it names was not read, if so.
#[derive(Clone, Copy)]
pub(crate) struct Asked {
    pub asks: ShellLine,
    pub unread: Option<Unable>,
}

/// Reads the next line, and the file that it names. Returns `None` at the end of the input.
///
/// # Errors
/// Why the run ends early: `ReadFault`, `TooLong` or `OutOfMemory`.
#[tactic(auto, using(crate::proofs::FewLines::few_lines))]
pub(crate) fn next_asked<H: Host, S: Source>(
    alloc: Global,
    host: &mut H,
    names: &NameBook,
    format: u8,
    reader: &mut LineReader,
    input: &mut S,
) -> Result<Option<Asked>, RunError>
    ensures next { IfOk result (λ o. MatchOption o (IsAtEnd (ahead reader.old (S.left input.old)))
        (λ asked. AsksNext names.now format asked.asks (ahead reader.old (S.left input.old)) (ahead reader.new (S.left input.new)))) }
    ensures unread { IfErr result IsUnread }
    ensures too_long { IfErr result (λ why. why ≡ RunError.TooLong → IfSome (ahead reader.old (S.left input.old)) IsTooLong) }
    ensures fault { IfErr result (λ why. why ≡ RunError.ReadFault → Rose (S.faults input.old) (S.faults input.new)) }
    ensures no_fault { OnOk result (S.faults input.new ≡ S.faults input.old) }
    ensures no_other_fault { IfErr result (λ why. why ≢ RunError.ReadFault → S.faults input.new ≡ S.faults input.old) }
    ensures later { S.faults input.old ≤ S.faults input.new }
{
    let line = match reader.next_line(alloc, input) {
        Ok(Some(line)) => line,
        Ok(None) => return Ok(None),
        Err(error) => return Err(run_error(error)),
    };
    let asked = read_asked(alloc, host, names, format, reader, &line)?;
    Ok(Some(asked))
}

/// Returns what a line asks, and brings the file that it names.
///
/// # Errors
/// `OutOfMemory`.
fn read_asked<H: Host>(
    alloc: Global,
    host: &mut H,
    names: &NameBook,
    format: u8,
    reader: &mut LineReader,
    line: &[u8],
) -> Result<Asked, RunError>
    requires { length (lines_of line.now) < 2 ^ 32 }
    ensures asks { IfOk result (λ asked. asked.asks ≡ shell_line names.now format line.now) }
    ensures brings { IfOk result (λ asked. (file : List ℕ) × Brings asked.asks file × (reader.new ≡ file ++ reader.old)) }
    ensures memory { IfErr result (λ why. why ≡ RunError.OutOfMemory) }
{
    match parsed(alloc, host, names, format, reader, line) {
        Ok(asked) => Ok(asked),
        Err(_) => Err(RunError::OutOfMemory),
    }
}

/// Returns what a line asks, and brings the file that it names.
fn parsed<H: Host>(
    alloc: Global,
    host: &mut H,
    names: &NameBook,
    format: u8,
    reader: &mut LineReader,
    line: &[u8],
) -> Result<Asked, AllocError>
    requires { length (lines_of line.now) < 2 ^ 32 }
    ensures asks { IfOk result (λ asked. asked.asks ≡ shell_line names.now format line.now) }
    ensures brings { IfOk result (λ asked. (file : List ℕ) × Brings asked.asks file × (reader.new ≡ file ++ reader.old)) }
{
    let asks = parse_line(alloc, names, format, line)?;
    let unread = bring_file(alloc, host, reader, asks, line)?;
    Ok(Asked { asks, unread })
}

fn run_error(error: ReadError) -> RunError
    ensures fault { (result ≡ RunError.ReadFault) ↔ (error ≡ reads.ReadFault) }
    ensures too_long { (result ≡ RunError.TooLong) ↔ (error ≡ reads.TooLong) }
    ensures unread { IsUnread result }
{
    match error {
        ReadError::ReadFault => RunError::ReadFault,
        ReadError::TooLong => RunError::TooLong,
        ReadError::OutOfMemory => RunError::OutOfMemory,
    }
}
