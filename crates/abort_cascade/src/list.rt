//! The transactions that fall with another.

ghost use Rattle.std.specs.Prelude.{◌≡◌, ◌<◌, ◌++◌, ◌∷◌, [], length, slice_get, Some};
ghost use Rattle.abort_cascade.specs.Rounds.{is_member};

use std::marker::Model;
use teb_rules::names::{SESSIONS, Txn};

/// At most this many fall with another: each session holds at most one unfinished transaction.
pub(crate) const MOST_FALLEN: usize = SESSIONS as usize;

/// At most `MOST_FALLEN` transactions, each with the one that it is blamed on.
#[derive(Drop)]
pub struct CascadeList {
    pairs: [(Txn, Txn); MOST_FALLEN],
    len: usize,
}

impl Model for CascadeList {
    ghost use Rattle.std.specs.Prelude.{List, ◌≡◌, ◌≤◌, take, length};
    ghost use Rattle.teb_rules.specs.declared.names.Txn.{Txn};
    ghost use Rattle.abort_cascade.specs.declared.list.TheConstants.{MOST_FALLEN};

    ghost Value = { List (Txn × Txn) };

    ghost view = { λ l. take l.len l.pairs };

    ghost invariant = { λ l. (l.len ≤ MOST_FALLEN) × (length l.pairs ≡ MOST_FALLEN) };
}

impl CascadeList {
    pub(crate) fn new() -> Self
        ensures { result ≡ [] }
    {
        CascadeList {
            pairs: [(Txn(0), Txn(0)); MOST_FALLEN],
            len: 0,
        }
    }

    /// Returns how many there are, at most `MOST_FALLEN`.
    pub fn len(&self) -> usize
        ensures { result ≡ length self.now }
    {
        self.len
    }

    /// Returns the transaction at a place, from 0, and the one that it is blamed on.
    pub fn at(&self, i: usize) -> (Txn, Txn)
        requires { i < length self.now }
        ensures { slice_get self.now i ≡ Some result }
    {
        self.pairs[..self.len][i]
    }

    pub(crate) fn contains(&self, t: Txn) -> bool
        ensures { result ≡ is_member self.now t.0 }
    {
        self.pairs[..self.len].iter().any(|pair| pair.0 == t)
    }

    pub(crate) fn push(&mut self, t: Txn, blamed: Txn)
        requires { length self.old < MOST_FALLEN }
        ensures { self.new ≡ self.old ++ (t, blamed) ∷ [] }
    {
        self.pairs[self.len] = (t, blamed);
        self.len += 1;
    }
}
