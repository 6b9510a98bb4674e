//! The standing of a transaction: what its events say of it, kept event by event.

ghost use Rattle.std.specs.Prelude.{◌≡◌, ◌<◌};

use super::{Event, Phase};
use crate::names::{Cause, Session, Spot, Txn};

/// The session that began a transaction, and the type and instance with which it did.
#[derive(Clone, Copy, Debug, PartialEq, Eq)]
pub struct Start {
    pub session: Session,
    pub spot: Spot,
}

/// The standing of one transaction.
#[derive(Clone, Copy)]
pub struct Standing {
    pub txn: Txn,
    /// By its latest Began.
    pub start: Option<Start>,
    pub ready: bool,
    pub done: bool,
    /// By its latest Gone.
    pub gone: Option<Cause>,
    pub told: bool,
    /// One more than the position of its newest event. 0 if it has none.
    pub end: usize,
}

impl Standing {
    ghost use Rattle.teb_rules.specs.history.Standings.{blank, standing_after, turned, stands_unfinished, stands_live, stands_prepared, stands_session, standing_phase};

    /// Returns the standing of a transaction with no event.
    pub fn blank(txn: Txn) -> Standing
        ensures { result ≡ blank txn }
    {
        Standing {
            txn,
            start: None,
            ready: false,
            done: false,
            gone: None,
            told: false,
            end: 0,
        }
    }

    /// Notes one more event of the transaction, with `end` events in the history. Returns whether it is live then, if such an event may change
    /// that.
    #[inline(always)]
    pub fn note(&mut self, event: Event, end: usize) -> Option<bool>
        ensures standing { self.new ≡ standing_after event end self.old }
        ensures live { result ≡ turned event end self.old }
    {
        self.end = end;
        match event {
            Event::Began {
                session,
                kind,
                instance,
                ..
            } => {
                self.start = Some(Start {
                    session,
                    spot: Spot { kind, instance },
                })
            }
            Event::Got { .. } | Event::Put { .. } => return None,
            Event::Ready(_) => {
                self.ready = true;
                return None;
            }
            Event::Done(_) => self.done = true,
            Event::Gone { cause, .. } => self.gone = Some(cause),
            Event::Told(_) => self.told = true,
        }
        Some(self.is_live())
    }

    /// Returns the phase of the transaction.
    pub fn phase(&self) -> Phase
        ensures { result ≡ standing_phase self.now }
    {
        if self.done {
            Phase::Committed
        } else if self.gone.is_some() {
            Phase::Aborted
        } else if self.start.is_none() {
            Phase::NotBegun
        } else if self.ready {
            Phase::Ready
        } else {
            Phase::Running
        }
    }

    /// Returns whether it has begun, and neither committed nor aborted.
    pub fn is_unfinished(&self) -> bool
        ensures { result ≡ stands_unfinished self.now }
    {
        self.start.is_some() && !self.done && self.gone.is_none()
    }

    /// Returns whether it is unfinished and has Ready.
    pub fn is_prepared(&self) -> bool
        ensures { result ≡ stands_prepared self.now }
    {
        self.is_unfinished() && self.ready
    }

    /// Returns the number of the session that began it, or 0 if none has.
    pub fn session_number(&self) -> u8
        ensures { result ≡ stands_session self.now }
    {
        self.start.map_or(0, |start| start.session.0)
    }

    /// Returns whether it is unfinished, or was aborted by a cascade of which its session was not told.
    pub fn is_live(&self) -> bool
        ensures { result ≡ stands_live self.now }
    {
        self.is_unfinished() || matches!(self.gone, Some(Cause::After(_))) && !self.told
    }
}
