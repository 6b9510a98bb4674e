//! Which transaction each session began last.

ghost use Rattle.std.specs.Prelude.{◌≡◌, ◌∷◌, [], List};
ghost use Rattle.teb_rules.specs.declared.history.Event.{Event};
ghost use Rattle.engine_core.specs.Latest.{AreLatest, listed};

use std::marker::Model;
use teb_rules::history::Event;
use teb_rules::names::{Session, Txn};

/// For each session the transaction that it began last, or 0 if it began none. Contracts see their list.
#[derive(Drop)]
pub struct LatestTxns {
    // By the session's number.
    txns: [Txn; 256],
}

impl Model for LatestTxns {
    ghost use Rattle.std.specs.Prelude.{List};
    ghost use Rattle.teb_rules.specs.declared.names.Txn.{Txn};

    ghost Value = { List Txn };

    ghost view = { λ l. l.txns };
}

impl LatestTxns {
    /// Returns the list in which no session has begun a transaction.
    pub fn new() -> Self
        ensures { AreLatest result [] }
    {
        LatestTxns {
            txns: [Txn(0); 256],
        }
    }

    /// Returns the transaction that a session began last, or 0.
    pub fn of(&self, session: Session) -> Txn
        ensures { result ≡ listed self.now session.0 }
    {
        self.txns[usize::from(session.0)]
    }

    /// Notes an event.
    #[inline(always)]
    pub fn note(&mut self, event: Event)
        ensures { (H : List Event) → AreLatest self.old H → AreLatest self.new (event ∷ H) }
    {
        if let Event::Began { txn, session, .. } = event {
            self.txns[usize::from(session.0)] = txn;
        }
    }
}
