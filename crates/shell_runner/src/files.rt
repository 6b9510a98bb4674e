//! The lines of files, and the prompt.

ghost use Rattle.std.specs.Prelude.{◌≡◌, ◌++◌, ◌≤◌, IfOk, List, Option, ℕ};
ghost use Rattle.shell_lines.specs.declared.line.ShellLine.{ShellLine as TheLine};
ghost use Rattle.shell_runner.specs.Runs.{Brings};

use crate::host::{FileError, Host};
use line_reader::LineReader;
use shell_lines::{ShellLine, Unable, put_prompt, second_word};
use std::alloc::{AllocError, Global};
use teb_rules::history::History;

/// If a line reads a file, puts the lines of the file before those that are not yet taken. Returns why it can't. A file that is read has no line that reads a
/// file.
pub(crate) fn bring_file<H: Host>(
    alloc: Global,
    host: &mut H,
    reader: &mut LineReader,
    asks: ShellLine,
    line: &[u8],
) -> Result<Option<Unable>, AllocError>
    ensures { IfOk result (λ _. (file : List ℕ) × Brings asks file × (reader.new ≡ file ++ reader.old)) }
{
    match asks {
        ShellLine::Read => read_named(alloc, host, reader, line),
        _ => Ok(None),
    }
}

/// Puts the lines of the file that a line names before those that are not yet taken. Returns why it can't.
fn read_named<H: Host>(
    alloc: Global,
    host: &mut H,
    reader: &mut LineReader,
    line: &[u8],
) -> Result<Option<Unable>, AllocError>
    ensures { IfOk result (λ _. (file : List ℕ) × (reader.new ≡ file ++ reader.old)) }
{
    if reader.was_ahead() {
        return Ok(Some(Unable::Nested));
    }
    let name = second_word(alloc, line)?;
    match host.read_file(alloc, &name) {
        Ok(text) => {
            put_lines(alloc, reader, text)?;
            Ok(None)
        }
        Err(FileError::Unreadable) => Ok(Some(Unable::Unreadable)),
        Err(FileError::TooLong) => Ok(Some(Unable::TooLong)),
        Err(FileError::OutOfMemory) => Err(AllocError),
    }
}

/// Puts the lines of a text before those that are not yet taken. Its last line needs no line feed.
fn put_lines(alloc: Global, reader: &mut LineReader, text: Vec<u8>) -> Result<(), AllocError>
    ensures { IfOk result (λ _. (file : List ℕ) × (reader.new ≡ file ++ reader.old)) }
{
    let mut text = text;
    if !ends_with_feed(&text) {
        text.push(b'\n')?;
    }
    reader.put_ahead(alloc, &text)
}

/// True if a text is empty, or its last line has its line feed.
fn ends_with_feed(text: &[u8]) -> bool {
    match text {
        [] | [.., b'\n'] => true,
        _ => false,
    }
}

/// Shows the prompt, if someone sees it. Out of memory, it is left out.
pub(crate) fn show_prompt<H: Host>(alloc: Global, host: &mut H, history: &History) {
    if !host.is_prompted() {
        return;
    }
    let mut text = Vec::new(alloc);
    if put_prompt(&mut text, history).is_ok() {
        host.prompt(&text);
    }
}
