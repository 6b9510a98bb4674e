//! What an event says of its transaction.

ghost use Rattle.std.specs.Prelude.{◌≡◌};
ghost use Rattle.teb_rules.specs.history.OwnEvents.{event_txn, put_in, got_in, gets_from};
ghost use Rattle.teb_rules.specs.history.Written.{is_begin};

use super::Event;
use crate::names::{Cell, Txn};

impl Event {
    /// Returns the transaction that the event is of.
    pub fn txn(&self) -> Txn
        ensures { result ≡ event_txn self.now }
    {
        match *self {
            Event::Began { txn, .. }
            | Event::Got { txn, .. }
            | Event::Put { txn, .. }
            | Event::Ready(txn)
            | Event::Done(txn)
            | Event::Gone { txn, .. }
            | Event::Told(txn) => txn,
        }
    }

    /// Returns whether the event is a Began.
    pub fn is_begin(&self) -> bool
        ensures { result ≡ is_begin self.now }
    {
        matches!(self, Event::Began { .. })
    }

    // Returns the value of a Put of the cell.
    pub(crate) fn put_in(&self, cell: Cell) -> Option<Option<i64>>
        ensures { result ≡ put_in cell self.now }
    {
        match self {
            Event::Put { cell: x, value, .. } if *x == cell => Some(*value),
            _ => None,
        }
    }

    // Returns what a Got of the cell read.
    pub(crate) fn got_in(&self, cell: Cell) -> Option<Option<i64>>
        ensures { result ≡ got_in cell self.now }
    {
        match self {
            Event::Got { cell: x, value, .. } if *x == cell => Some(*value),
            _ => None,
        }
    }

    // Returns whether the event is a Got from u.
    pub(crate) fn is_from(&self, u: Txn) -> bool
        ensures { result ≡ gets_from u.0 self.now }
    {
        matches!(self, Event::Got { from, .. } if *from == u)
    }
}
