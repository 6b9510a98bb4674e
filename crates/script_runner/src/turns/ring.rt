//! The sessions in a ring, and whose turn it is.

ghost use Rattle.std.specs.Prelude.{◌≡◌, ◌+◌, ◌<◌, ◌≤◌, ◌++◌, ◌∷◌, [], IfOk, IfSome, Some, slice_get, take, drop, vec_len};
ghost use Rattle.std.specs.List.{list_any};
ghost use Rattle.teb_rules.specs.Driver.{Seat, due, offer, seated, seat_after};
ghost use Rattle.script_runner.specs.turns.Seats.{seat_of};

use crate::turns::cursor::Cursor;
use crate::turns::effect::Effect;
use crate::turns::offer::{is_any_due, offer};
use script_text::Scripts;
use std::alloc::{AllocError, Global};
use teb_rules::history::History;
use teb_rules::names::{Request, Session};

/// The sessions, in ascending number. The turn goes around.
#[derive(Drop)]
pub struct Ring<'a> {
    cursors: Vec<Cursor<'a>>,
    // The index of the session that is looked at next.
    next: usize,
    // True if some session is to run alone.
    has_due: bool,
    ghost within: { next ≤ vec_len cursors },
    ghost told: { has_due ≡ list_any (λ c. due (seat_of c)) cursors.items },
}

/// A session whose turn it is.
#[derive(Clone, Copy)]
pub struct Asked<'a> {
    /// Its place in the ring.
    pub index: usize,
    pub session: Session,
    /// What it asks.
    pub request: &'a Request,
}

impl<'a> Ring<'a> {
    ghost use Rattle.script_runner.specs.turns.Seats.{seats_in, scripts_on};
    ghost use Rattle.script_runner.specs.turns.Rounds.{round_of};
    ghost use Rattle.script_runner.specs.turns.Turns.{IsFirst, IsTurn};
    ghost use Rattle.script_runner.specs.turns.Effects.{IsEffect};
    ghost use Rattle.teb_rules.specs.declared.names.Reply.{Reply};

    /// Returns a ring with each session at the first line of its script. The lowest-numbered is looked at first.
    ///
    /// # Errors
    /// `AllocError`: out of memory.
    pub fn new(alloc: Global, scripts: &'a Scripts) -> Result<Ring<'a>, AllocError>
        ensures { IfOk result (λ r. round_of r ≡ seated (scripts_on scripts.now)) }
    {
        let mut cursors = Vec::with_capacity(alloc, scripts.len())?;
        for i in 0..scripts.len() {
            let cursor = Cursor::new(scripts.session(i), scripts.lines(i));
            cursors.push(cursor)?;
        }
        let has_due = is_any_due(&cursors);
        Ok(Ring {
            cursors,
            next: 0,
            has_due,
        })
    }

    /// Returns the first session that may ask. `None` if every session is done.
    #[inline(always)]
    pub fn turn(&self, history: &History) -> Option<Asked<'a>>
        ensures { IsTurn history.now.events self.now.next (seats_in self.now.cursors.items) result }
    {
        if let Some(asked) = self.first(history, self.next, self.cursors.len()) {
            return Some(asked);
        }
        self.first(history, 0, self.next)
    }

    /// Returns the first session that may ask, from one place up to another.
    #[inline(always)]
    fn first(&self, history: &History, from: usize, end: usize) -> Option<Asked<'a>>
        requires { end ≤ vec_len self.now.cursors }
        ensures { IsFirst (offer history.now.events (seats_in self.now.cursors.items)) (seats_in self.now.cursors.items) from end result }
    {
        for index in from..end {
            let cursor = &self.cursors[index];
            if let Some(request) = offer(history, &self.cursors, self.has_due, cursor) {
                let session = cursor.session;
                return Some(Asked {
                    index,
                    session,
                    request,
                });
            }
        }
        None
    }

    /// Takes the effect of a reply to what a session asked. The turn goes to the next session. The others are looked at only if
    /// whether this session is to run alone has changed.
    #[inline(always)]
    pub fn take(&mut self, index: usize, effect: Effect)
        requires within { index < vec_len self.old.cursors }
        requires few { IfSome (slice_get (seats_in self.old.cursors.items) index) (λ w. w.aborts ≤ 3) }
        ensures { (w : Seat) (a : Reply) → slice_get (seats_in self.old.cursors.items) index ≡ Some w → IsEffect effect a → round_of self.new
            ≡ drop (index + 1) (seats_in self.old.cursors.items) ++ take index (seats_in self.old.cursors.items) ++ seat_after w a ∷ [] }
    {
        self.next = index + 1;
        let cursor = &mut self.cursors[index];
        let was_due = cursor.is_due();
        cursor.take(effect);
        if cursor.is_due() != was_due {
            self.has_due = is_any_due(&self.cursors);
        }
    }
}
