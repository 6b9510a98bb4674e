//! The hand that a session is in.

ghost use Rattle.std.specs.Prelude.{◌≡◌, ◌<◌};
ghost use Rattle.session_tasks.specs.threads.Hands.{hand_of};

use crate::place_in;
use script_text::Scripts;
use teb_rules::names::Session;

/// Returns the hand that a session is in. The workers take the scripts in turn.
pub(crate) fn hand_of(scripts: &Scripts, session: Session, workers: usize) -> usize
    requires { 0 < workers }
    ensures hand { result ≡ hand_of scripts.now workers session.0 }
    ensures within { result < workers }
{
    match place_in(scripts, session) {
        Some(i) => i % workers,
        None => 0,
    }
}
