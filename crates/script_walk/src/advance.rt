//! What a reply does to the session that asked.

ghost use Rattle.std.specs.Prelude.{◌≡◌};
ghost use Rattle.teb_rules.specs.Scripts.{move_of, move_by};
ghost use Rattle.short_reply.specs.ShortReplies.{full_reply};
ghost use Rattle.script_walk.specs.Advances.{move_at};

use short_reply::ShortReply;
use teb_rules::names::{Cause, Reply};

/// How a session goes on along its script after a reply.
#[derive(Clone, Copy)]
pub enum Advance {
    /// It asks the same line again.
    Stay,
    /// It holds the transaction that its line began, and goes to the next line.
    Enter,
    /// It holds no transaction any more, and goes to the next line.
    Leave,
    /// It holds no transaction any more, and goes back to the line that began it.
    Return,
    /// It goes to the next line.
    Go,
}

/// Returns how a session goes on after a reply to a line.
#[inline(always)]
pub fn advance_after(reply: &Reply) -> Advance
    ensures { move_at result ≡ move_of reply.now }
{
    match ShortReply::of(reply) {
        Some(short) => advance_after_short(&short),
        None => Advance::Go,
    }
}

/// Returns how a session goes on after a reply without the values of a scan.
#[inline(always)]
pub fn advance_after_short(reply: &ShortReply) -> Advance
    ensures { move_at result ≡ move_of (full_reply reply.now) }
{
    match reply {
        ShortReply::Again { .. } => Advance::Stay,
        ShortReply::Begun(_) => Advance::Enter,
        ShortReply::Committed => Advance::Leave,
        ShortReply::Aborted(cause) => advance_by(cause),
        ShortReply::Value(_) | ShortReply::Done | ShortReply::Prepared | ShortReply::Refused(_) => {
            Advance::Go
        }
    }
}

/// Returns how a session goes on after an abort. One that the session asked for does not send it back.
#[inline(always)]
fn advance_by(cause: &Cause) -> Advance
    ensures { move_at result ≡ move_by cause.now }
{
    match cause {
        Cause::Asked | Cause::Ended => Advance::Leave,
        Cause::Late { .. }
        | Cause::First { .. }
        | Cause::Pivot { .. }
        | Cause::Newer { .. }
        | Cause::After(_) => Advance::Return,
    }
}
