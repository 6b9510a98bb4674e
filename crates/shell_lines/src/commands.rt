//! The lines that begin with a dot.

ghost use Rattle.std.specs.Prelude.{◌≡◌, codes, Some};
ghost use Rattle.std.specs.Str.{bytes_eq};
ghost use Rattle.script_text.specs.Grammar.{number_at};
ghost use Rattle.script_text.specs.Words.{nows};
ghost use Rattle.teb_rules.specs.names.Names.{number_of};
ghost use Rattle.shell_lines.specs.Commands.{arguments_of, command_of, dot_of, lone, range_of, table_at, with_file};

use crate::{RowRange, ShellLine};
use script_text::{LineWhy, number};
use teb_rules::names::{NameBook, Names, Table};

/// The words that may begin such a line.
#[derive(Clone, Copy)]
pub(crate) enum Dot {
    Rows,
    Order,
    Epoch,
    Checkpoint,
    Tables,
    Types,
    Tree,
    Guarantees,
    Sessions,
    Dump,
    Read,
    Help,
    Quit,
}

/// Returns what a line of these words asks, of which the first begins with a dot.
pub(crate) fn command_of(names: &NameBook, words: &[&[u8]]) -> ShellLine
    ensures { result ≡ command_of names.now (nows words.now) }
{
    match words {
        [] => ShellLine::Nothing,
        [word, rest @ ..] => match dot_of(word) {
            Some(dot) => arguments_of(names, dot, rest),
            None => ShellLine::Bad(LineWhy::Verb),
        },
    }
}

#[tactic(auto, unfolding(crate::specs::Commands::dot_of))]
fn dot_of(word: &[u8]) -> Option<Dot>
    ensures { result ≡ dot_of word.now }
{
    if is_word(word, b".rows") {
        Some(Dot::Rows)
    } else if is_word(word, b".order") {
        Some(Dot::Order)
    } else if is_word(word, b".epoch") {
        Some(Dot::Epoch)
    } else if is_word(word, b".checkpoint") {
        Some(Dot::Checkpoint)
    } else if is_word(word, b".tables") {
        Some(Dot::Tables)
    } else if is_word(word, b".types") {
        Some(Dot::Types)
    } else if is_word(word, b".tree") {
        Some(Dot::Tree)
    } else if is_word(word, b".guarantees") {
        Some(Dot::Guarantees)
    } else if is_word(word, b".sessions") {
        Some(Dot::Sessions)
    } else if is_word(word, b".dump") {
        Some(Dot::Dump)
    } else if is_word(word, b".read") {
        Some(Dot::Read)
    } else if is_word(word, b".help") {
        Some(Dot::Help)
    } else if is_word(word, b".quit") {
        Some(Dot::Quit)
    } else {
        None
    }
}

fn is_word(word: &[u8], other: &[u8]) -> bool
    ensures { result ≡ bytes_eq word.now other.now }
{
    word == other
}

fn arguments_of(names: &NameBook, dot: Dot, words: &[&[u8]]) -> ShellLine
    ensures { result ≡ arguments_of names.now dot (nows words.now) }
{
    match dot {
        Dot::Rows => match range_of(&names.tables, words) {
            Ok(range) => ShellLine::Rows(range),
            Err(why) => ShellLine::Bad(why),
        },
        Dot::Order => lone(ShellLine::Order, words),
        Dot::Epoch => lone(ShellLine::Epoch, words),
        Dot::Checkpoint => lone(ShellLine::Checkpoint, words),
        Dot::Tables => lone(ShellLine::Tables, words),
        Dot::Types => lone(ShellLine::Types, words),
        Dot::Tree => lone(ShellLine::Tree, words),
        Dot::Guarantees => lone(ShellLine::Guarantees, words),
        Dot::Sessions => lone(ShellLine::Sessions, words),
        Dot::Dump => lone(ShellLine::Dump, words),
        Dot::Read => with_file(words),
        Dot::Help => lone(ShellLine::Help, words),
        Dot::Quit => lone(ShellLine::Quit, words),
    }
}

/// Returns the line, if no word follows.
fn lone(line: ShellLine, words: &[&[u8]]) -> ShellLine
    ensures { result ≡ lone line (nows words.now) }
{
    match words {
        [] => line,
        _ => ShellLine::Bad(LineWhy::Count),
    }
}

/// Returns a line that reads a file, if one word follows.
fn with_file(words: &[&[u8]]) -> ShellLine
    ensures { result ≡ with_file (nows words.now) }
{
    match words {
        [_] => ShellLine::Read,
        _ => ShellLine::Bad(LineWhy::Count),
    }
}

#[tactic(auto, unfolding(crate::specs::Commands::range_of))]
fn range_of(tables: &Names, words: &[&[u8]]) -> Result<RowRange, LineWhy>
    ensures { result ≡ range_of tables.now (nows words.now) }
{
    match words {
        [] => Ok(RowRange {
            table: None,
            from: 0,
            count: None,
        }),
        [table] => {
            let table = table_at(tables, table)?;
            Ok(RowRange {
                table: Some(table),
                from: 0,
                count: None,
            })
        }
        [table, from] => {
            let table = table_at(tables, table)?;
            let from = number_at(from)?;
            Ok(RowRange {
                table: Some(table),
                from,
                count: None,
            })
        }
        [table, from, count] => {
            let table = table_at(tables, table)?;
            let from = number_at(from)?;
            let count = number_at(count)?;
            Ok(RowRange {
                table: Some(table),
                from,
                count: Some(count),
            })
        }
        _ => Err(LineWhy::Count),
    }
}

#[tactic(auto, unfolding(crate::specs::Commands::table_at))]
fn table_at(tables: &Names, word: &[u8]) -> Result<Table, LineWhy>
    ensures { result ≡ table_at tables.now word.now }
{
    match place_of(tables, word) {
        Some(n) => Ok(Table(n)),
        None => Err(LineWhy::Name),
    }
}

/// Returns the place of a word among names.
fn place_of(names: &Names, word: &[u8]) -> Option<u8>
    ensures { result ≡ number_of names.now word.now }
{
    for i in 0..names.len() {
        if is_word(word, names.name(i).as_bytes()) {
            return Some(i);
        }
    }
    None
}

#[tactic(auto, unfolding(script_text::specs::Grammar::number_at))]
fn number_at(word: &[u8]) -> Result<u32, LineWhy>
    ensures { result ≡ number_at word.now }
{
    match number(word, 4_294_967_295) {
        None => Err(LineWhy::Number),
        Some(n) => Ok(n as u32),
    }
}
