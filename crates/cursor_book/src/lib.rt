//! The cursor of each transaction: the step of its profile at which it is.
//!
//! A transaction begins at step 0. An access of a table moves it to the first step, from there on, that has the table
//! (`store_setup::profile`). A pipeline needs the cursor to tell which ranks a transaction has passed; the engine needs it to refuse accesses
//! that the profile does not have.
//!
//! ```text
//!   transaction   1   2   3
//!   cursor        2   0   1      one byte each; the next transaction that begins is 4
//! ```
//!
//! **What is proved.** Contracts see the list of cursors, that of transaction 1 first. [`Cursors::begin`] appends 0, and
//! [`Cursors::access`] moves one cursor (`moved` of `specs/Cursors`). `CursorsOf` says that they are those of a history (`cursor` of
//! `teb_rules`).
//!
//! Each call costs one look. [`Cursors::reserve`] makes room, so `begin` takes no memory.
//!
//! **Not claimed**: that an access fits the profile. If no further step has the table, the cursor stays.
#![tactic(auto)]

ghost use Rattle.std.specs.Prelude.{◌≡◌, ◌<◌, ◌≤◌, ◌+◌, ◌∷◌, ◌++◌, [], length, OnOk, OnErr};
ghost use Rattle.cursor_book.specs.Cursors.{cursor_in, moved};

use std::alloc::{AllocError, Global};
use std::marker::Model;
use store_setup::profile::Profile;
use teb_rules::names::{Table, Txn};

/// Room is made for this many transactions more than are asked for.
const AHEAD: usize = 256;

/// The cursor of each transaction that has begun, by its number. Contracts see the list of them, that of transaction 1
/// first, and for how many more there is room.
#[derive(Drop)]
pub struct Cursors {
    cursors: Vec<u8>,
    spare: usize,
}

impl Model for Cursors {
    ghost use Rattle.std.specs.Prelude.{vec_len, vec_capacity, ◌+◌, ◌≤◌};
    ghost use Rattle.cursor_book.specs.Cursors.{Kept};

    ghost Value = { Kept };

    ghost view = { λ c. record { cursors = c.cursors.items; spare = c.spare } };

    ghost invariant = { λ c. vec_len c.cursors + c.spare ≤ vec_capacity c.cursors };
}

impl Cursors {
    /// Returns an empty list of cursors. Takes no memory.
    pub fn new(alloc: Global) -> Cursors
        ensures { result.cursors ≡ [] }
    {
        Cursors {
            cursors: Vec::new(alloc),
            spare: 0,
        }
    }

    /// Makes room for n more transactions, and for some more if it has to allocate.
    ///
    /// # Errors
    /// Out of memory. Everything is unchanged.
    pub fn reserve(&mut self, n: usize) -> Result<(), AllocError>
        ensures cursors { self.new.cursors ≡ self.old.cursors }
        ensures ok { OnOk result (n ≤ self.new.spare) }
        ensures err { OnErr result (self.new ≡ self.old) }
        ensures kept { self.old.spare ≤ self.new.spare }
    {
        if n <= self.spare {
            return Ok(());
        }
        let room = n.saturating_add(AHEAD);
        self.cursors.reserve(room)?;
        self.spare = room;
        Ok(())
    }

    /// Notes that the next transaction begins: its cursor is 0.
    pub fn begin(&mut self)
        requires { 0 < self.old.spare }
        ensures cursors { self.new.cursors ≡ self.old.cursors ++ 0 ∷ [] }
        ensures spare { self.new.spare + 1 ≡ self.old.spare }
    {
        self.cursors.push_reserved(0);
        self.spare -= 1;
    }

    /// Notes an access of a table: the transaction's cursor moves to the least step, from there on, that has the table.
    pub fn access(&mut self, t: Txn, table: Table, profile: &Profile)
        requires above { 0 < t.0 }
        requires begun { t.0 ≤ length self.old.cursors }
        ensures cursors { self.new.cursors ≡ moved self.old.cursors t.0 profile.now table.0 }
        ensures spare { self.new.spare ≡ self.old.spare }
    {
        let at = self.cursor(t);
        let i = (t.0 - 1) as usize;
        self.cursors[i] = profile.cursor_after(at, table).unwrap_or(at);
    }

    /// Returns the cursor of a transaction.
    pub fn cursor(&self, t: Txn) -> u8
        requires above { 0 < t.0 }
        requires begun { t.0 ≤ length self.now.cursors }
        ensures { result ≡ cursor_in self.now.cursors t.0 }
    {
        self.cursors[(t.0 - 1) as usize]
    }
}
