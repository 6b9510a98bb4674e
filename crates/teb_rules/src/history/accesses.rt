//! What a transaction has read and put, by a walk over its own events.

ghost use Rattle.std.specs.Prelude.{◌≡◌};
ghost use Rattle.teb_rules.specs.history.Accesses.{wrote, got, last_put, last_got, read_from};

use super::History;
use crate::names::{Cell, Txn};

/// Each call goes through the transaction's own events.
impl History {
    /// Returns whether a transaction has put a cell.
    pub fn wrote(&self, t: Txn, cell: Cell) -> bool
        ensures { result ≡ wrote self.now.events t.0 cell }
    {
        self.own_events(t).any(|event| event.put_in(cell).is_some())
    }

    /// Returns whether a transaction has read a cell.
    pub fn got(&self, t: Txn, cell: Cell) -> bool
        ensures { result ≡ got self.now.events t.0 cell }
    {
        self.own_events(t).any(|event| event.got_in(cell).is_some())
    }

    /// Returns whether a transaction has read from u, another one.
    #[tactic(auto, using(crate::proofs::lemmas::history::OwnWalks::read_from_own))]
    pub fn read_from(&self, t: Txn, u: Txn) -> bool
        ensures { result ≡ read_from self.now.events t.0 u.0 }
    {
        t != u && self.own_events(t).any(|event| event.is_from(u))
    }

    /// Returns the value of a transaction's last Put of a cell. The value is `None` if the row was deleted.
    #[tactic(auto, using(crate::proofs::lemmas::history::OwnWalks::last_put_own))]
    pub fn last_put(&self, t: Txn, cell: Cell) -> Option<Option<i64>>
        ensures { result ≡ last_put self.now.events t.0 cell }
    {
        for event in self.own_events(t) {
            if let Some(value) = event.put_in(cell) {
                return Some(value);
            }
        }
        None
    }

    /// Returns what a transaction last read in a cell. The value is `None` if there was no row.
    #[tactic(auto, using(crate::proofs::lemmas::history::OwnWalks::last_got_own))]
    pub fn last_got(&self, t: Txn, cell: Cell) -> Option<Option<i64>>
        ensures { result ≡ last_got self.now.events t.0 cell }
    {
        for event in self.own_events(t) {
            if let Some(value) = event.got_in(cell) {
                return Some(value);
            }
        }
        None
    }
}
