//! The words of the command line, and the command that they ask for.
//!
//! ```text
//!   replay  turns  audit  phases     one word
//!   threads N   pool N               N from 1 to 16
//!   crash K                          K from 0 to 2^31 - 1; 0 names no call of the disk
//!   load N S                         N from 0 to 2^31 - 1, S from 1 to 2,000
//! ```
//!
//! `tebaldi` calls [`words_of`], and then [`command_of`]. The words of `tebaldi_shell` are read with [`words_of`] too.
//!
//! **What is proved.** [`command_of`] returns the command of the words, or `None` if there is none (`command_of` in
//! `specs/Commands.antt`), and its numbers are within their limits (clause `within`). A number is one to ten digits.
//! [`words_of`] returns the words after the program's name.
//!
//! **Not claimed**: why words are bad. If one of the words is no text, [`words_of`] returns none, as if there were none.
#![tactic(auto)]

mod command;

ghost use Rattle.std.specs.Prelude.{◌≡◌, drop, IfOk};
ghost use Rattle.std.specs.Vec.Iter.{into_iter_items};
ghost use Rattle.command_words.specs.Words.{words_in};

pub use command::{Command, command_of};
use std::alloc::{AllocError, Global};
use std::env::Args;
use std::io::{self, ErrorKind};

/// Returns the words after the program's name, or none if one of them is not text.
///
/// # Errors
/// `AllocError`: out of memory.
pub fn words_of(alloc: Global, args: io::Result<Args>) -> Result<Vec<String>, AllocError>
    ensures { IfOk result (λ words. words.items ≡ words_in args) }
{
    match args {
        Ok(args) => behind_first(alloc, args),
        Err(error) if error.kind() == ErrorKind::OutOfMemory => Err(AllocError),
        Err(_) => Ok(Vec::new(alloc)),
    }
}

/// Returns all but the first.
fn behind_first(alloc: Global, args: Args) -> Result<Vec<String>, AllocError>
    ensures { IfOk result (λ words. words.items ≡ drop 1 (into_iter_items args)) }
{
    let mut words = Vec::new(alloc);
    for word in args {
        words.push(word)?;
    }
    if !words.is_empty() {
        words.remove(0);
    }
    Ok(words)
}
