//! The list of events so far, with what is kept of each transaction.

ghost use Rattle.std.specs.Prelude.{◌≡◌, ◌<◌, ◌≤◌, ◌+◌, ◌-◌, ◌^◌, ◌∷◌, [], length, slice_get, reverse, ◌↔◌, Some, IsTrue, OnOk, OnErr};

use super::ascending::{find_standing, keep_txn, note_event};
use super::own_events::OwnEvents;
use super::standing::Standing;
use super::{Event, Phase};
use crate::names::{Cause, Cell, Kind, Session, Spot, Txn};
use std::alloc::{AllocError, Global};
use std::marker::Model;

/// Room is made for this many events more than are asked for.
const AHEAD: usize = 256;

/// The events so far, with room for some more.
#[derive(Drop)]
pub struct History {
    // The oldest first.
    events: Vec<Event>,
    // For each event, one more than the position of the previous event of the same transaction; 0 if there is none.
    previous: Vec<usize>,
    // Of each transaction that has an event, in ascending number.
    standings: Vec<Standing>,
    // The live transactions, in ascending number.
    live: Vec<Txn>,
    // How many Began there are.
    begun: u32,
    // How many more events each of the vectors has room for.
    spare: usize,
}

impl Model for History {
    ghost use Rattle.std.specs.Prelude.{◌+◌, ◌≤◌, reverse, vec_len, vec_capacity};
    ghost use Rattle.teb_rules.specs.history.Written.{Written};

    ghost Value = { Written };

    ghost use Rattle.teb_rules.specs.history.Standings.{IsKept};

    ghost view = { λ h. record { events = reverse h.events.items; spare = h.spare } };

    ghost invariant = { λ h. record {
      kept : IsKept h.events.items h.previous.items h.standings.items h.live.items h.begun;
      events : vec_len h.events + h.spare ≤ vec_capacity h.events;
      previous : vec_len h.previous + h.spare ≤ vec_capacity h.previous;
      standings : vec_len h.standings + h.spare ≤ vec_capacity h.standings;
      live : vec_len h.live + h.spare ≤ vec_capacity h.live;
    } };
}

impl History {
    ghost use Rattle.teb_rules.specs.history.Phases.{begun_count, begun, committed, aborted, prepared, ready_at, cause_of, unfinished};
    ghost use Rattle.teb_rules.specs.history.Positions.{came};
    ghost use Rattle.teb_rules.specs.history.Written.{phase_of, is_begin, begun_spot, begun_kind, begun_session, held_txn};
    ghost use Rattle.teb_rules.specs.history.Accesses.{put_at};
    ghost use Rattle.teb_rules.specs.history.OwnEvents.{own_events};
    ghost use Rattle.teb_rules.specs.history.Live.{is_live, live_txns, is_begun_by};
    ghost use Rattle.teb_rules.specs.history.Standings.{standing_of};

    /// Returns an empty history.
    pub fn new(alloc: Global) -> Self
        ensures { result.events ≡ [] }
    {
        History {
            events: Vec::new(alloc),
            previous: Vec::new(alloc),
            standings: Vec::new(alloc),
            live: Vec::new(alloc),
            begun: 0,
            spare: 0,
        }
    }

    /// Makes room for n events, and for some more if it has to allocate. Room is never given up.
    ///
    /// # Errors
    /// Out of memory. Everything is unchanged.
    pub fn reserve(&mut self, n: usize) -> Result<(), AllocError>
        ensures events { self.new.events ≡ self.old.events }
        ensures ok { OnOk result (n ≤ self.new.spare) }
        ensures kept { self.old.spare ≤ self.new.spare }
        ensures err { OnErr result (self.new ≡ self.old) }
    {
        if n <= self.spare {
            return Ok(());
        }
        let room = n.saturating_add(AHEAD);
        self.events.reserve(room)?;
        self.previous.reserve(room)?;
        self.standings.reserve(room)?;
        self.live.reserve(room)?;
        self.spare = room;
        Ok(())
    }

    /// Makes room for about `events` events in the list of events, and for `txns` transactions in what is kept of each, so that neither has
    /// to move as they come. It makes room for a quarter more events, since a request that broke may be asked again, and for what `reserve`
    /// adds to the last ones. `push` uses only the room that `reserve` made, which stays.
    ///
    /// # Errors
    /// Out of memory. Some of the room may have been made.
    pub fn reserve_ahead(&mut self, events: usize, txns: usize) -> Result<(), AllocError>
        ensures events { self.new.events ≡ self.old.events }
        ensures spare { self.new.spare ≡ self.old.spare }
    {
        let room = events.saturating_add(events / 4).saturating_add(2 * AHEAD);
        self.events.reserve(room)?;
        self.previous.reserve(room)?;
        self.standings.reserve(txns.saturating_add(2 * AHEAD))
    }

    /// Writes an event, which takes one place of the room. An event that makes a transaction live, or ends that, costs a binary search among
    /// the live transactions, and a move of those after it.
    #[inline(always)]
    pub fn push(&mut self, event: Event)
        requires room { 0 < self.old.spare }
        requires begun { IsTrue (is_begin event) → begun_count self.old.events < 2 ^ 32 - 1 }
        ensures events { self.new.events ≡ event ∷ self.old.events }
        ensures spare { self.new.spare + 1 ≡ self.old.spare }
    {
        let txn = event.txn();
        self.events.push_reserved(event);
        let noted = note_event(&mut self.standings, event, self.events.len());
        self.previous.push_reserved(noted.previous);
        keep_txn(&mut self.live, txn, noted.live);
        self.begun += u32::from(event.is_begin());
        self.spare -= 1;
    }

    /// Returns how many events there are.
    pub fn len(&self) -> usize
        ensures { result ≡ length self.now.events }
    {
        self.events.len()
    }

    /// Returns whether there is no event.
    pub fn is_empty(&self) -> bool
        ensures { IsTrue result ↔ (self.now.events ≡ []) }
    {
        self.events.is_empty()
    }

    /// Returns the event at position i, which counts from 0 at the oldest.
    pub fn at(&self, i: usize) -> Event
        requires { i < length self.now.events }
        ensures { slice_get (reverse self.now.events) i ≡ Some result }
    {
        self.events[i]
    }

    /// Returns the events, the oldest first.
    pub fn events(&self) -> &[Event]
        ensures { result.now ≡ reverse self.now.events }
    {
        &self.events
    }

    /// Returns how many transactions have begun.
    pub fn begun(&self) -> u32
        ensures { result ≡ begun_count self.now.events }
    {
        self.begun
    }

    /// Returns the live transactions, in ascending number: those that are unfinished, and those that a cascade aborted and whose session
    /// was not told of it.
    pub fn live(&self) -> &[Txn]
        ensures { result.now ≡ live_txns self.now.events }
    {
        &self.live
    }

    /// Returns the transaction that a session holds, or `None` if it holds none. It goes through the live transactions.
    pub fn held(&self, s: Session) -> Option<Txn>
        ensures { result ≡ held_txn self.now.events s }
    {
        for t in &self.live {
            if self.is_begun_by(s, *t) {
                return Some(*t);
            }
        }
        None
    }

    // Returns whether t is one of the numbers of those that have begun, and s began it.
    #[tactic(auto, using(crate::proofs::lemmas::history::Standings::session_standing))]
    fn is_begun_by(&self, s: Session, t: Txn) -> bool
        ensures { result ≡ is_begun_by self.now.events s.0 t }
    {
        t.0 > 0 && t.0 <= self.begun && self.standing(t).session_number() == s.0
    }

    /// Returns a transaction's own events, the newest first. Each costs one step.
    pub fn own_events(&self, t: Txn) -> OwnEvents<'_>
        ensures { result ≡ own_events self.now.events t.0 }
    {
        OwnEvents::new(&self.events, &self.previous, self.standing(t).end)
    }

    /// Returns the position of a transaction's first Put of a cell, or the length of the history if there is none. It goes through the
    /// transaction's events.
    pub fn put_at(&self, t: Txn, cell: Cell) -> usize
        ensures { result ≡ put_at self.now.events t.0 cell }
    {
        let mut first = self.events.len();
        let mut end = self.standing(t).end;
        while end > 0 {
            let newest = end - 1;
            if self.events[newest].put_in(cell).is_some() {
                first = newest;
            }
            end = self.previous[newest];
        }
        first
    }

    /// Returns the phase of a transaction.
    #[tactic(auto, using(crate::proofs::lemmas::history::Standings::phase_standing))]
    pub fn phase(&self, t: Txn) -> Phase
        ensures { result ≡ phase_of self.now.events t.0 }
    {
        self.standing(t).phase()
    }

    /// Returns whether a transaction has Done.
    pub fn is_committed(&self, t: Txn) -> bool
        ensures { result ≡ committed self.now.events t.0 }
    {
        self.standing(t).done
    }

    /// Returns whether a transaction has Gone.
    #[tactic(auto, using(crate::proofs::lemmas::history::Standings::is_aborted_standing))]
    pub fn is_aborted(&self, t: Txn) -> bool
        ensures { result ≡ aborted self.now.events t.0 }
    {
        self.standing(t).gone.is_some()
    }

    /// Returns whether a transaction has Began.
    #[tactic(auto, using(crate::proofs::lemmas::history::Standings::has_begun_standing))]
    pub fn has_begun(&self, t: Txn) -> bool
        ensures { result ≡ begun self.now.events t.0 }
    {
        self.standing(t).start.is_some()
    }

    /// Returns whether a transaction has Ready.
    pub fn is_ready(&self, t: Txn) -> bool
        ensures { result ≡ came self.now.events (ready_at self.now.events t.0) }
    {
        self.standing(t).ready
    }

    /// Returns whether a transaction has begun and neither committed nor aborted.
    #[tactic(auto, using(crate::proofs::lemmas::history::Standings::unfinished_standing))]
    pub fn is_unfinished(&self, t: Txn) -> bool
        ensures { result ≡ unfinished self.now.events t.0 }
    {
        self.standing(t).is_unfinished()
    }

    /// Returns whether a transaction is one of the live ones.
    #[tactic(auto, using(crate::proofs::lemmas::history::Standings::live_standing))]
    pub fn is_live(&self, t: Txn) -> bool
        ensures { result ≡ is_live self.now.events t.0 }
    {
        self.standing(t).is_live()
    }

    /// Returns whether a transaction is unfinished and has Ready.
    #[tactic(auto, using(crate::proofs::lemmas::history::Standings::prepared_standing))]
    pub fn is_prepared(&self, t: Txn) -> bool
        ensures { result ≡ prepared self.now.events t.0 }
    {
        self.standing(t).is_prepared()
    }

    /// Returns the type and the instance with which a transaction began, or `None` if it has not begun.
    #[tactic(auto, using(crate::proofs::lemmas::history::Standings::start_spot))]
    pub fn spot(&self, t: Txn) -> Option<Spot>
        ensures { result ≡ begun_spot self.now.events t.0 }
    {
        self.standing(t).start.map(|start| start.spot)
    }

    /// Returns the type with which a transaction began, or `None` if it has not begun.
    #[tactic(auto, using(crate::proofs::lemmas::history::Standings::start_kind))]
    pub fn kind(&self, t: Txn) -> Option<Kind>
        ensures { result ≡ begun_kind self.now.events t.0 }
    {
        self.standing(t).start.map(|start| start.spot.kind)
    }

    /// Returns the session that began a transaction, or `None` if it has not begun.
    #[tactic(auto, using(crate::proofs::lemmas::history::Standings::start_session))]
    pub fn session(&self, t: Txn) -> Option<Session>
        ensures { result ≡ begun_session self.now.events t.0 }
    {
        self.standing(t).start.map(|start| start.session)
    }

    /// Returns the cause of an abort, or `None` if the transaction is not aborted.
    pub fn cause(&self, t: Txn) -> Option<Cause>
        ensures { result ≡ cause_of self.now.events t.0 }
    {
        self.standing(t).gone
    }

    // Returns the standing of a transaction. It costs one look if the transactions are numbered from 1 without a gap, and otherwise a binary search.
    fn standing(&self, t: Txn) -> Standing
        ensures { result ≡ standing_of self.now.events t.0 }
    {
        match find_standing(&self.standings, t) {
            Ok(i) => self.standings[i],
            Err(_) => Standing::blank(t),
        }
    }
}
