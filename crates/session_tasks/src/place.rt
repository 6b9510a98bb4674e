//! Which script a session has.

ghost use Rattle.std.specs.Prelude.{◌≡◌, ◌<◌, IfSome, length};
ghost use Rattle.session_tasks.specs.Scripted.{place_in, lines_at};

use script_text::{Line, Scripts};
use teb_rules::names::Session;

/// Returns the place of a session among those with a script, or `None` if it has none.
pub fn place_in(scripts: &Scripts, session: Session) -> Option<usize>
    ensures { result ≡ place_in scripts.now session.0 }
{
    for i in 0..scripts.len() {
        if scripts.session(i).0 == session.0 {
            return Some(i);
        }
    }
    None
}

/// Returns the lines of the script at a place, or none if there is no place.
pub(crate) fn lines_at(scripts: &Scripts, place: Option<usize>) -> &[Line]
    requires { IfSome place (λ i. i < length scripts.now) }
    ensures { result.now ≡ lines_at scripts.now place }
{
    match place {
        Some(i) => scripts.lines(i),
        None => &[],
    }
}
