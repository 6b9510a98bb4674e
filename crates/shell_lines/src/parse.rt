//! The parser of one line.

ghost use Rattle.std.specs.Prelude.{◌≡◌, ◌<◌, ◌^◌, ◌==◌, IfOk, filter, length, not};
ghost use Rattle.std.specs.List.{slice_split};
ghost use Rattle.std.specs.Str.Lines.{strip_carriage_return};
ghost use Rattle.script_text.specs.Lines.{lines_of};
ghost use Rattle.script_text.specs.Words.{is_blank, nows, words_of};
ghost use Rattle.shell_lines.specs.Lines.{asked, first_byte, line_words, second_word, shell_line};

use crate::ShellLine;
use crate::commands::command_of;
use script_text::{LineWhy, ScriptError, parse_script};
use std::alloc::{AllocError, Global};
use teb_rules::names::NameBook;

/// Returns what a line asks, without its line feed. `format` is that of the tree, as in scripts.
///
/// # Errors
/// `AllocError`: out of memory. A bad line is no error: it is a `ShellLine`.
pub fn parse_line(
    alloc: Global,
    names: &NameBook,
    format: u8,
    text: &[u8],
) -> Result<ShellLine, AllocError>
    requires { length (lines_of text.now) < 2 ^ 32 }
    ensures { IfOk result (λ line. line ≡ shell_line names.now format text.now) }
{
    let words = words_in(alloc, without_return(text))?;
    if begins_with_dot(&words) {
        return Ok(command_of(names, &words));
    }
    asked(alloc, names, format, text)
}

/// Returns the second word of a line, without its line feed; nothing if it has none.
///
/// # Errors
/// `AllocError`: out of memory.
pub fn second_word(alloc: Global, text: &[u8]) -> Result<Vec<u8>, AllocError>
    ensures { IfOk result (λ word. word.items ≡ second_word (line_words text.now)) }
{
    let words = words_in(alloc, without_return(text))?;
    second_of(&words).to_vec(alloc)
}

/// Returns the second of the words; nothing if there is none.
fn second_of<'a>(words: &[&'a [u8]]) -> &'a [u8]
    ensures { result.now ≡ second_word (nows words.now) }
{
    match words {
        [_, second, ..] => second,
        _ => b"",
    }
}

/// Returns what a line of a script asks.
fn asked(alloc: Global, names: &NameBook, format: u8, text: &[u8]) -> Result<ShellLine, AllocError>
    requires { length (lines_of text.now) < 2 ^ 32 }
    ensures { IfOk result (λ line. line ≡ asked names.now format text.now) }
{
    match parse_script(alloc, text, names, format) {
        Ok(lines) => match lines.as_slice() {
            [] => Ok(ShellLine::Nothing),
            [line, ..] => Ok(ShellLine::Ask {
                session: line.session,
                request: line.request,
            }),
        },
        Err(ScriptError::BadLine { number: _, why }) => Ok(ShellLine::Bad(why)),
        Err(ScriptError::OutOfMemory) => Err(AllocError),
    }
}

/// Returns the words of a line.
#[tactic(auto, unfolding(script_text::specs::Words::words_of))]
fn words_in(alloc: Global, line: &[u8]) -> Result<Vec<&[u8]>, AllocError>
    ensures { IfOk result (λ words. nows words.items ≡ words_of line.now) }
{
    let parts = parts_of(alloc, line)?;
    filled(alloc, &parts)
}

/// Returns what is between spaces and tabs.
fn parts_of(alloc: Global, line: &[u8]) -> Result<Vec<&[u8]>, AllocError>
    ensures { IfOk result (λ parts. nows parts.items ≡ slice_split is_blank line.now) }
{
    line.split(|b| is_blank(*b)).collect(alloc)
}

fn is_blank(b: u8) -> bool
    ensures { result ≡ is_blank b }
{
    b == b' ' || b == b'\t'
}

/// Those of these parts that are not empty.
fn filled<'a>(alloc: Global, parts: &[&'a [u8]]) -> Result<Vec<&'a [u8]>, AllocError>
    ensures { IfOk result (λ words. nows words.items ≡ filter (λ w. not (length w == 0)) (nows parts.now)) }
{
    let mut words = Vec::new(alloc);
    for part in parts {
        if !part.is_empty() {
            words.push(*part)?;
        }
    }
    Ok(words)
}

/// True if the first of the words begins with a dot.
fn begins_with_dot(words: &[&[u8]]) -> bool
    ensures { result ≡ (first_byte (nows words.now) == 46) }
{
    match words {
        [[b'.', ..], ..] => true,
        _ => false,
    }
}

/// Returns the line without the one carriage return at its end.
fn without_return(line: &[u8]) -> &[u8]
    ensures { result.now ≡ strip_carriage_return line.now }
{
    match line {
        [front @ .., b'\r'] => front,
        _ => line,
    }
}
