//! Words of a line.

ghost use Rattle.std.specs.Prelude.{◌≡◌, ◌<◌, length, ◌++◌, ◌∷◌, codes, is_ok, if◌then◌else◌, map, take};
ghost use Rattle.script_text.specs.Texts.{cell_words, line_text, name_of};
ghost use Rattle.script_text.specs.Named.{CellNamed, NodeNamed};
ghost use Rattle.script_text.specs.Puts.{Puts, spaced, spaced_words, word_text};

use super::tail::Tail;
use std::alloc::AllocError;
use teb_rules::names::{Cell, Kind, NameBook, Node, Session, Table, Txn};

/// A word of a line.
#[derive(Clone, Copy)]
pub enum Word<'a> {
    Text(&'a str),
    Session(Session),
    Txn(Txn),
    Natural(u32),
    Value(Option<i64>),
}

/// Returns the name of a node.
pub fn node<'a>(names: &'a NameBook, node: Node) -> Word<'a>
    requires { NodeNamed names.now node }
    ensures { word_text result ≡ name_of names.now.nodes node.0 }
{
    Word::Text(names.nodes.name(node.0))
}

/// Returns the name of a table.
pub fn table<'a>(names: &'a NameBook, table: Table) -> Word<'a>
    requires { table.0 < length names.now.tables }
    ensures { word_text result ≡ name_of names.now.tables table.0 }
{
    Word::Text(names.tables.name(table.0))
}

/// Returns the name of a type.
pub fn kind<'a>(names: &'a NameBook, kind: Kind) -> Word<'a>
    requires { kind.0 < length names.now.types }
    ensures { word_text result ≡ name_of names.now.types kind.0 }
{
    Word::Text(names.types.name(kind.0))
}

/// Appends words, each after a space.
///
/// # Errors
/// `AllocError`: out of memory. A part of the words may be appended.
pub fn put_words(out: &mut Vec<u8>, words: &[Word]) -> Result<(), AllocError>
    ensures { Puts out.old.items (spaced_words words.now) out.new.items result }
{
    for word in words {
        put_spaced(out, word)?;
    }
    Ok(())
}

/// Appends the words of a cell, each after a space: the name of its table, and its key.
///
/// # Errors
/// `AllocError`: out of memory. A part of the words may be appended.
pub fn put_cell(out: &mut Vec<u8>, names: &NameBook, cell: Cell) -> Result<(), AllocError>
    requires { CellNamed names.now cell }
    ensures { Puts out.old.items (spaced (cell_words names.now cell)) out.new.items result }
{
    put_words(out, &[table(names, cell.table), Word::Natural(cell.key)])
}

/// Appends a line: a first word, and others after it.
///
/// # Errors
/// `AllocError`: out of memory. A part of the line may be appended.
pub fn put_line<'a>(
    out: &mut Vec<u8>,
    first: &'a str,
    words: &'a [Word<'a>],
) -> Result<(), AllocError>
    ensures { Puts out.old.items (line_text (first.now ∷ map word_text words.now)) out.new.items result }
{
    put_text(out, first)?;
    put_words(out, words)?;
    put_feed(out)
}

/// Appends a space and a word.
///
/// # Errors
/// `AllocError`: out of memory. The space may be appended, and no more.
pub fn put_spaced(out: &mut Vec<u8>, word: &Word) -> Result<(), AllocError>
    ensures { Puts out.old.items (codes " " ++ word_text word.now) out.new.items result }
{
    let mut tail = Tail::<72>::new();
    match word {
        Word::Text(text) => {
            out.push(b' ')?;
            return put_text(out, text);
        }
        Word::Session(session) => tail.put_natural(u32::from(session.0)),
        Word::Natural(n) => tail.put_natural(*n),
        Word::Txn(txn) => {
            tail.put_natural(txn.0);
            tail.put(b"t");
        }
        Word::Value(None) => tail.put(b"none"),
        Word::Value(Some(value)) => tail.put_integer(*value),
    }
    tail.put(b" ");
    out.extend_from_slice(tail.as_bytes())
}

/// Appends a line feed.
///
/// # Errors
/// `AllocError`: out of memory. Nothing is appended.
pub fn put_feed(out: &mut Vec<u8>) -> Result<(), AllocError>
    ensures { Puts out.old.items (codes "\n") out.new.items result }
{
    out.push(b'\n')?;
    Ok(())
}

/// Appends a text.
///
/// # Errors
/// `AllocError`: out of memory. Nothing is appended.
pub fn put_text(out: &mut Vec<u8>, text: &str) -> Result<(), AllocError>
    ensures { Puts out.old.items text.now out.new.items result }
{
    out.extend_from_slice(text.as_bytes())
}

/// Returns the result of writing a text that began at this length.
///
/// # Errors
/// `AllocError` if the writing ran out of memory. What it wrote is removed.
pub fn whole(
    out: &mut Vec<u8>,
    start: usize,
    written: Result<(), AllocError>,
) -> Result<(), AllocError>
    ensures same { result ≡ written }
    ensures out { out.new.items ≡ (if is_ok written then out.old.items else take start out.old.items) }
{
    if written.is_err() {
        out.truncate(start);
    }
    written
}
