//! Lines of words: one space between two words, and a line feed after the last one.
//!
//! `tree_report`, `tree_writer` and `shell_lines` write their texts with these calls. A [`Word`] is a text, a number, a
//! transaction, or a value with its sign.
//!
//! ```text
//!   put_line(out, &Word::Text("session"), &[Word::Natural(2), Word::Txn(Txn(1)), Word::Text("active")])
//!
//!   session 2 t1 active
//! ```
//!
//! **What is proved.** Each call appends the text of its words (`word_text` in `specs/Words.antt`, `line_text` of
//! `script_text`). [`name_at`] returns the name with a number, or an empty text. [`control_word`] returns the word of a control.
//!
//! **Not claimed**: what is appended once memory runs out. It may be a part of the words.
#![tactic(auto)]

ghost use Rattle.std.specs.Prelude.{◌≡◌, ◌++◌, ◌∷◌, OnOk, codes, map};
ghost use Rattle.script_text.specs.Texts.{line_text, name_of};
ghost use Rattle.script_text.specs.Puts.{spaced};
ghost use Rattle.line_words.specs.Words.{control_word, word_text};

use itoa::Buffer;
use std::alloc::AllocError;
use teb_rules::names::{ControlKind, Names, Txn};

/// A word of a line.
#[derive(Clone, Copy)]
pub enum Word<'a> {
    Text(&'a str),
    /// In decimal.
    Natural(u64),
    /// `t` and the number.
    Txn(Txn),
    /// In decimal, with its sign if it is negative.
    Value(i64),
}

/// Appends a line of words.
///
/// # Errors
/// `AllocError`: out of memory. A part of the line may be appended.
#[tactic(auto, using(crate::proofs::Joined::one_line))]
pub fn put_line(out: &mut Vec<u8>, first: &Word, rest: &[Word]) -> Result<(), AllocError>
    ensures { OnOk result (out.new.items ≡ out.old.items ++ line_text (word_text first.now ∷ map word_text rest.now)) }
{
    put_word(out, first)?;
    put_spaced(out, rest)?;
    out.push(b'\n')?;
    Ok(())
}

/// Appends words, each after a space.
///
/// # Errors
/// `AllocError`: out of memory. A part of the words may be appended.
pub fn put_spaced(out: &mut Vec<u8>, words: &[Word]) -> Result<(), AllocError>
    ensures { OnOk result (out.new.items ≡ out.old.items ++ spaced (map word_text words.now)) }
{
    for word in words {
        put_next(out, word)?;
    }
    Ok(())
}

/// Appends a space and a word.
///
/// # Errors
/// `AllocError`: out of memory. The space and a part of the word may be appended.
pub fn put_next(out: &mut Vec<u8>, word: &Word) -> Result<(), AllocError>
    ensures { OnOk result (out.new.items ≡ out.old.items ++ (codes " " ++ word_text word.now)) }
{
    out.push(b' ')?;
    put_word(out, word)
}

/// Appends a word.
///
/// # Errors
/// `AllocError`: out of memory. A part of the word may be appended.
pub fn put_word(out: &mut Vec<u8>, word: &Word) -> Result<(), AllocError>
    ensures { OnOk result (out.new.items ≡ out.old.items ++ word_text word.now) }
{
    match word {
        Word::Text(text) => out.extend_from_slice(text.as_bytes()),
        Word::Natural(n) => out.extend_from_slice(Buffer::new().format(*n).as_bytes()),
        Word::Txn(txn) => {
            out.push(b't')?;
            out.extend_from_slice(Buffer::new().format(txn.0).as_bytes())
        }
        Word::Value(value) => out.extend_from_slice(Buffer::new().format(*value).as_bytes()),
    }
}

/// Returns the name with this number, or an empty text if there is none.
pub fn name_at(names: &Names, number: u8) -> &str
    ensures { result.now ≡ name_of names.now number }
{
    if number < names.len() {
        names.name(number)
    } else {
        ""
    }
}

/// Returns the word of a control: `locks`, `pipeline`, `timestamp` or `snapshot`.
pub fn control_word(control: ControlKind) -> &'static str
    ensures { result.now ≡ control_word control }
{
    match control {
        ControlKind::Locks => "locks",
        ControlKind::Pipeline => "pipeline",
        ControlKind::Timestamp => "timestamp",
        ControlKind::Snapshot => "snapshot",
    }
}
