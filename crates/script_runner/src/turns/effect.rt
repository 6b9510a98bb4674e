//! What a reply does to the session that asked: how it goes on, and whether no further transaction may begin.

ghost use Rattle.short_reply.specs.ShortReplies.{full_reply};
ghost use Rattle.script_runner.specs.turns.Effects.{IsEffect};

use script_walk::{Advance, advance_after_short};
use short_reply::ShortReply;
use teb_rules::names::{Refusal, Reply};

/// What a reply does to the session that asked.
#[derive(Clone, Copy)]
pub struct Effect {
    /// How it goes on along its script.
    pub advance: Advance,
    /// True if it was refused because no further transaction may begin.
    pub is_full: bool,
}

impl Effect {
    /// Returns the effect of a reply without the values of a scan.
    #[inline(always)]
    pub fn of(reply: &ShortReply) -> Effect
        ensures { IsEffect result (full_reply reply.now) }
    {
        Effect {
            advance: advance_after_short(reply),
            is_full: matches!(reply, ShortReply::Refused(Refusal::Full)),
        }
    }

    /// Returns the effect of a reply. After the values of a scan the session goes on to its next line.
    #[inline(always)]
    pub fn of_full(reply: &Reply) -> Effect
        ensures { IsEffect result reply.now }
    {
        match ShortReply::of(reply) {
            Some(short) => Effect::of(&short),
            None => Effect {
                advance: Advance::Go,
                is_full: false,
            },
        }
    }
}
