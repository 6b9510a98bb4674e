//! What a line of a script asks.

ghost use Rattle.std.specs.Prelude.{◌≡◌, ◌==◌, slice_index};
ghost use Rattle.script_text.specs.Fronts.{HasMask};
ghost use Rattle.script_text.specs.Words.{nows, words_of};
ghost use Rattle.script_text.specs.Numbers.{number_from_one};
ghost use Rattle.script_text.specs.Grammar.{verb_of, number_at, session_at, value_at, cell_at, cell_in, cell_and_value_in, cell_and_count_in, spot_in, nothing_in, arguments, after_session, line_in};

use super::fronts::Front;
use super::names::{BookAtHand, NamesAtHand};
use super::numbers::{integer, number, small_number};
use super::verbs::{
    is_abort, is_add, is_begin, is_commit, is_delete, is_prepare, is_read, is_scan, is_write,
};
use super::words::first_words;
use crate::{Line, LineWhy};
use teb_rules::names::{Cell, Kind, Request, SESSIONS, Session, Spot, Table};

/// The words that may follow a session.
#[derive(Clone, Copy)]
pub enum Verb {
    Begin,
    Read,
    Write,
    Add,
    Prepare,
    Commit,
    Abort,
    Delete,
    Scan,
}

/// Returns what a line asks: nothing if it is blank or a comment. Its first words are left in `words`.
///
/// # Errors
/// The first fault: `Session`, then `Verb`, then `Count`, and then `Name` or `Number` at the first of the words that follow.
#[tactic(auto, using(crate::proofs::LineWords::line_of_first))]
pub fn parse_line<'a>(
    names: &BookAtHand,
    format: u8,
    number: u32,
    front: &Front<'a>,
    words: &mut [&'a [u8]; 6],
) -> Result<Option<Line>, LineWhy>
    requires { HasMask front.now }
    ensures { result ≡ line_in names.now format number (words_of front.now.line.now) }
{
    let len = first_words(front, words);
    line_in(names, format, number, &words[..len])
}

#[tactic(auto, unfolding(crate::specs::Grammar::line_in))]
fn line_in(
    names: &BookAtHand,
    format: u8,
    number: u32,
    words: &[&[u8]],
) -> Result<Option<Line>, LineWhy>
    ensures { result ≡ line_in names.now format number (nows words.now) }
{
    match words {
        [] => Ok(None),
        [first, rest @ ..] => {
            if is_comment(first) {
                return Ok(None);
            }
            let session = session(first)?;
            let request = request(names, format, rest)?;
            Ok(Some(Line {
                number,
                session,
                request,
            }))
        }
    }
}

fn is_comment(word: &[u8]) -> bool
    ensures { result ≡ (slice_index word.now 0 == 35) }
{
    !word.is_empty() && word[0] == b'#'
}

fn session(word: &[u8]) -> Result<Session, LineWhy>
    ensures { result ≡ session_at word.now }
{
    match number_from_one(word, SESSIONS) {
        None => Err(LineWhy::Session),
        Some(n) => Ok(Session(n)),
    }
}

#[tactic(auto, unfolding(crate::specs::Numbers::number_from_one))]
fn number_from_one(word: &[u8], most: u8) -> Option<u8>
    ensures { result ≡ number_from_one most word.now }
{
    match small_number(word, most) {
        None => None,
        Some(0) => None,
        Some(n) => Some(n),
    }
}

fn request(names: &BookAtHand, format: u8, words: &[&[u8]]) -> Result<Request, LineWhy>
    ensures { result ≡ after_session names.now format (nows words.now) }
{
    match words {
        [] => Err(LineWhy::Verb),
        [word, rest @ ..] => match verb_in(format, word) {
            None => Err(LineWhy::Verb),
            Some(verb) => arguments(names, format, verb, rest),
        },
    }
}

#[tactic(auto, unfolding(crate::specs::Grammar::verb_of))]
fn verb_in(format: u8, word: &[u8]) -> Option<Verb>
    ensures { result ≡ verb_of format word.now }
{
    if is_begin(word) {
        Some(Verb::Begin)
    } else if is_read(word) {
        Some(Verb::Read)
    } else if is_write(word) {
        Some(Verb::Write)
    } else if is_add(word) {
        Some(Verb::Add)
    } else if is_prepare(word) {
        Some(Verb::Prepare)
    } else if is_commit(word) {
        Some(Verb::Commit)
    } else if is_abort(word) {
        Some(Verb::Abort)
    } else if format >= 3 && is_delete(word) {
        Some(Verb::Delete)
    } else if format >= 3 && is_scan(word) {
        Some(Verb::Scan)
    } else {
        None
    }
}

fn arguments(
    names: &BookAtHand,
    format: u8,
    verb: Verb,
    words: &[&[u8]],
) -> Result<Request, LineWhy>
    ensures { result ≡ arguments names.now format verb (nows words.now) }
{
    match verb {
        Verb::Begin => Ok(Request::Begin(spot(&names.types, format, words)?)),
        Verb::Read => Ok(Request::Read(cell(&names.tables, words)?)),
        Verb::Write => {
            let (cell, value) = cell_and_value(&names.tables, words)?;
            Ok(Request::Write(cell, value))
        }
        Verb::Add => {
            let (cell, value) = cell_and_value(&names.tables, words)?;
            Ok(Request::Add(cell, value))
        }
        Verb::Prepare => {
            nothing(words)?;
            Ok(Request::Prepare)
        }
        Verb::Commit => {
            nothing(words)?;
            Ok(Request::Commit)
        }
        Verb::Abort => {
            nothing(words)?;
            Ok(Request::Abort)
        }
        Verb::Delete => Ok(Request::Delete(cell(&names.tables, words)?)),
        Verb::Scan => {
            let (cell, count) = cell_and_count(&names.tables, words)?;
            Ok(Request::Scan { cell, count })
        }
    }
}

#[tactic(auto, unfolding(crate::specs::Grammar::spot_in))]
fn spot(types: &NamesAtHand, format: u8, words: &[&[u8]]) -> Result<Spot, LineWhy>
    ensures { result ≡ spot_in types.now format (nows words.now) }
{
    match words {
        [kind] => {
            let kind = Kind(types.number(kind)?);
            Ok(Spot { kind, instance: 0 })
        }
        [kind, instance] if format >= 2 => {
            let kind = Kind(types.number(kind)?);
            let instance = number_below(instance)?;
            Ok(Spot { kind, instance })
        }
        _ => Err(LineWhy::Count),
    }
}

#[inline(always)]
#[tactic(auto, unfolding(crate::specs::Grammar::cell_in))]
fn cell(tables: &NamesAtHand, words: &[&[u8]]) -> Result<Cell, LineWhy>
    ensures { result ≡ cell_in tables.now (nows words.now) }
{
    match words {
        [table, key] => cell_at(tables, table, key),
        _ => Err(LineWhy::Count),
    }
}

#[inline(always)]
#[tactic(auto, unfolding(crate::specs::Grammar::cell_and_value_in))]
fn cell_and_value(tables: &NamesAtHand, words: &[&[u8]]) -> Result<(Cell, i64), LineWhy>
    ensures { result ≡ cell_and_value_in tables.now (nows words.now) }
{
    match words {
        [table, key, value] => {
            let cell = cell_at(tables, table, key)?;
            let value = value_at(value)?;
            Ok((cell, value))
        }
        _ => Err(LineWhy::Count),
    }
}

#[inline(always)]
#[tactic(auto, unfolding(crate::specs::Grammar::cell_and_count_in))]
fn cell_and_count(tables: &NamesAtHand, words: &[&[u8]]) -> Result<(Cell, u8), LineWhy>
    ensures { result ≡ cell_and_count_in tables.now (nows words.now) }
{
    match words {
        [table, key, count] => {
            let cell = cell_at(tables, table, key)?;
            match number_from_one(count, 16) {
                None => Err(LineWhy::Number),
                Some(count) => Ok((cell, count)),
            }
        }
        _ => Err(LineWhy::Count),
    }
}

#[tactic(auto, unfolding(crate::specs::Grammar::nothing_in))]
fn nothing(words: &[&[u8]]) -> Result<(), LineWhy>
    ensures { result ≡ nothing_in (nows words.now) }
{
    if words.is_empty() {
        Ok(())
    } else {
        Err(LineWhy::Count)
    }
}

#[inline(always)]
#[tactic(auto, unfolding(crate::specs::Grammar::cell_at))]
fn cell_at(tables: &NamesAtHand, table: &[u8], key: &[u8]) -> Result<Cell, LineWhy>
    ensures { result ≡ cell_at tables.now table.now key.now }
{
    let table = Table(tables.number(table)?);
    let key = number_below(key)?;
    Ok(Cell { table, key })
}

#[tactic(auto, unfolding(crate::specs::Grammar::number_at))]
fn number_below(word: &[u8]) -> Result<u32, LineWhy>
    ensures { result ≡ number_at word.now }
{
    match number(word, 4_294_967_295) {
        None => Err(LineWhy::Number),
        Some(n) => Ok(n as u32),
    }
}

#[inline(always)]
#[tactic(auto, unfolding(crate::specs::Grammar::value_at))]
fn value_at(word: &[u8]) -> Result<i64, LineWhy>
    ensures { result ≡ value_at word.now }
{
    match integer(word) {
        None => Err(LineWhy::Number),
        Some(n) => Ok(n),
    }
}
