//! The accesses of a transaction, each with the transactions that it may conflict with.

use crate::book::AccessBook;
use std::marker::Model;
use teb_rules::names::Txn;

/// An access of a transaction, and the transactions that have accessed the same cell in the other way.
#[derive(Clone, Copy)]
pub enum Access<'a> {
    /// The transaction has read a cell, and these have put it.
    Read { writers: &'a [Txn] },
    /// The transaction has put a cell, and these have read it.
    Put { readers: &'a [Txn] },
}

/// The kind of an access, and the place of its cell.
#[derive(Clone, Copy)]
pub(crate) enum Touch {
    Read(usize),
    Put(usize),
}

/// The remaining accesses of a transaction, the newest first.
#[derive(Drop)]
pub struct Accesses<'a> {
    pub(crate) book: &'a AccessBook,
    pub(crate) left: &'a [Touch],
}

impl<'a> Model for Accesses<'a> {
    ghost use Rattle.access_book.specs.Books.{Walk};
    ghost use Rattle.access_book.specs.Places.{all_touched, AreKnown};
    ghost use Rattle.std.specs.Prelude.{length};

    ghost Value = { Walk };

    ghost view = { λ it. record { book = it.book.now; left = all_touched it.book.now.cells it.left.now } };

    ghost invariant = { λ it. AreKnown (length it.book.now.cells) it.left.now };
}

impl<'a> Iterator for Accesses<'a> {
    ghost use Rattle.std.specs.Iterator.{item_count};
    ghost use Rattle.access_book.specs.Books.{Steps};

    type Item = Access<'a>;

    ghost next_gives = { Steps };

    ghost remaining = { item_count (λ s. s.left) };

    #[inline(always)]
    fn next(&mut self) -> Option<Access<'a>> {
        match self.left {
            [] => None,
            [left @ .., newest] => {
                self.left = left;
                Some(self.book.access(*newest))
            }
        }
    }
}
