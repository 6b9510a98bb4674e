//! The place of a session in its script.

ghost use Rattle.std.specs.Prelude.{◌≡◌, ◌≤◌, List, ◌∷◌, option_map};
ghost use Rattle.teb_rules.specs.declared.names.Request.{Request};
ghost use Rattle.teb_rules.specs.declared.names.Reply.{Reply};
ghost use Rattle.teb_rules.specs.Scripts.{at_first, asks};
ghost use Rattle.teb_rules.specs.Driver.{due, counted, seat_after};
ghost use Rattle.script_walk.specs.ScriptStates.{requests_on};
ghost use Rattle.script_runner.specs.turns.Effects.{IsEffect};
ghost use Rattle.script_runner.specs.turns.Seats.{seat_of};

use crate::turns::effect::Effect;
use script_text::Line;
use script_walk::{Advance, Walker};
use teb_rules::names::{Request, Session};

/// How often a session is sent back before it runs alone.
const MOST_ABORTS: u8 = 3;

/// A session at a line of its script.
#[derive(Clone, Copy)]
pub struct Cursor<'a> {
    pub session: Session,
    pub lines: &'a [Line],
    /// Its place among its lines.
    pub walker: Walker,
    /// How often the session was sent back since it last got through.
    pub aborts: u8,
}

impl<'a> Cursor<'a> {
    /// Returns a session at the first line of its script.
    pub fn new(session: Session, lines: &'a [Line]) -> Cursor<'a>
        ensures { seat_of result ≡ record { session = session; state = at_first (requests_on lines.now); aborts = 0 } }
    {
        Cursor {
            session,
            lines,
            walker: Walker::new(),
            aborts: 0,
        }
    }

    /// Returns what the session asks next: its line, or after its last line End if it holds a transaction.
    #[inline(always)]
    pub fn next(&self) -> Option<&'a Request>
        ensures { option_map (λ r. r.now) result ≡ asks (seat_of self.now).state }
    {
        self.walker.next(self.lines)
    }

    /// Returns whether the session is to run alone: it was sent back three times, and is not done.
    #[inline(always)]
    pub fn is_due(&self) -> bool
        ensures { result ≡ due (seat_of self.now) }
    {
        self.aborts == MOST_ABORTS && self.next().is_some()
    }

    /// Takes the effect of a reply to what the session asked.
    #[inline(always)]
    pub fn take(&mut self, effect: Effect)
        requires { self.old.aborts ≤ 3 }
        ensures { (a : Reply) → IsEffect effect a → seat_of self.new ≡ seat_after (seat_of self.old) a }
    {
        if self.walker.at < self.lines.len() {
            self.aborts = self.aborts_after(effect);
            self.walker.go(effect.advance);
        } else {
            self.walker.begun = None;
        }
    }

    /// Returns how often the session was sent back, after a reply to a line that has this effect. The count starts anew if it got
    /// through, or if no further transaction may begin.
    #[inline(always)]
    fn aborts_after(&self, effect: Effect) -> u8
        requires { self.now.aborts ≤ 3 }
        ensures { (r : Request) (rs : List Request) (a : Reply) → IsEffect effect a → result ≡ counted (r ∷ rs) a self.now.aborts }
    {
        if effect.is_full {
            return 0;
        }
        match effect.advance {
            Advance::Return => self.aborts + 1,
            Advance::Leave => 0,
            Advance::Stay | Advance::Enter | Advance::Go => self.aborts,
        }
    }
}
