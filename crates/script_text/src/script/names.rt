//! Names in a script.

ghost use Rattle.std.specs.Prelude.{◌≡◌, IsTrue, MatchOption, length, true, false};
ghost use Rattle.teb_rules.specs.names.Names.{is_name};
ghost use Rattle.script_text.specs.Grammar.{name_at};
ghost use Rattle.script_text.specs.Words.{nows};
ghost use Rattle.script_text.specs.AtHand.{AreNumbered};

use crate::LineWhy;
use std::marker::Model;
use teb_rules::names::{NameBook, Names, is_name};

/// How many names of a list are kept at hand.
const FEW: usize = 4;

/// The names of a list, the first of them at hand: most scripts name no others. Contracts see the names.
#[derive(Drop)]
pub struct NamesAtHand<'a> {
    all: &'a Names,
    /// The first of them, up to one that no script can name; the rest is empty.
    first: [&'a [u8]; 4],
}

impl<'a> Model for NamesAtHand<'a> {
    ghost use Rattle.std.specs.Prelude.{◌≡◌, List, ℕ, length};
    ghost use Rattle.script_text.specs.Words.{nows};
    ghost use Rattle.script_text.specs.AtHand.{AreNumbered};

    ghost Value = { List (List ℕ) };

    ghost view = { λ s. s.all.now };

    ghost invariant = { λ s. (length s.first ≡ 4) × AreNumbered s.all.now (nows s.first) };
}

impl<'a> NamesAtHand<'a> {
    pub fn new(all: &'a Names) -> NamesAtHand<'a>
        ensures { result ≡ all.now }
    {
        let mut first: [&[u8]; 4] = [b""; 4];
        for i in 0..usize::from(all.len()).min(FEW) {
            let name = all.name(i as u8).as_bytes();
            if !is_name(name) {
                break;
            }
            first[i] = name;
        }
        NamesAtHand { all, first }
    }

    /// Returns the number of a name, or 255 if it is not in the list.
    ///
    /// # Errors
    /// `Name` if the word is not a name.
    #[inline(always)]
    #[tactic(auto, unfolding(crate::specs::Grammar::name_at))]
    pub fn number(&self, word: &[u8]) -> Result<u8, LineWhy>
        ensures { result ≡ name_at self.now word.now }
    {
        if !word.is_empty() {
            for i in 0..FEW {
                if is_same(self.first[i], word) {
                    return Ok(i as u8);
                }
            }
        }
        self.later_number(word)
    }

    /// The same, searched among all names. It is a separate call, so that finding one of the first names stays cheap.
    #[inline(never)]
    #[tactic(auto, unfolding(crate::specs::Grammar::name_at))]
    fn later_number(&self, word: &[u8]) -> Result<u8, LineWhy>
        ensures { result ≡ name_at self.now word.now }
    {
        match name_text(word) {
            None => Err(LineWhy::Name),
            Some(text) => match self.all.number(text) {
                None => Ok(255),
                Some(n) => Ok(n),
            },
        }
    }
}

/// The names of a tree, the first of each list at hand. Contracts see the book of them.
#[derive(Drop)]
pub struct BookAtHand<'a> {
    book: &'a NameBook,
    pub tables: NamesAtHand<'a>,
    pub types: NamesAtHand<'a>,
}

impl<'a> Model for BookAtHand<'a> {
    ghost use Rattle.std.specs.Prelude.{◌≡◌};
    ghost use Rattle.teb_rules.specs.declared.names.naming.NameBook.{NameBook};

    ghost Value = { NameBook };

    ghost view = { λ s. s.book.now };

    ghost invariant = { λ s. (s.tables ≡ s.book.now.tables) × (s.types ≡ s.book.now.types) };
}

impl<'a> BookAtHand<'a> {
    pub fn new(book: &'a NameBook) -> BookAtHand<'a>
        ensures { result ≡ book.now }
    {
        BookAtHand {
            book,
            tables: NamesAtHand::new(&book.tables),
            types: NamesAtHand::new(&book.types),
        }
    }
}

/// Returns whether two words are the same. They are short, so a loop costs less than a call.
fn is_same(a: &[u8], b: &[u8]) -> bool
    ensures { IsTrue result → a.now ≡ b.now }
{
    if a.len() != b.len() {
        return false;
    }
    for i in 0..a.len() {
        if a[i] != b[i] {
            return false;
        }
    }
    true
}

/// Returns the word as a text, if it is a name.
fn name_text(word: &[u8]) -> Option<&str>
    ensures { MatchOption result (is_name word.now ≡ false) (λ s. (s.now ≡ word.now) × (is_name word.now ≡ true)) }
{
    if !is_name(word) {
        return None;
    }
    match std::str::from_utf8(word) {
        Ok(text) => Some(text),
        Err(_) => None,
    }
}
