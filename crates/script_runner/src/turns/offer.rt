//! Which session may ask.

ghost use Rattle.std.specs.Prelude.{◌≡◌, not, leb, ◌||◌, option_map};
ghost use Rattle.std.specs.List.{list_any, list_all};
ghost use Rattle.teb_rules.specs.Driver.{due, chosen, may_begin, offer, is_begin};
ghost use Rattle.script_runner.specs.turns.Seats.{seat_of, seats_in};

use crate::turns::cursor::Cursor;
use crate::turns::quiet::is_quiet;
use teb_rules::history::History;
use teb_rules::names::{Request, Session};

/// Returns what a session may ask now, or `None` if it is done, or would begin a transaction and may not. `has_due` says whether
/// some session is to run alone; if not, the other sessions are not looked at.
#[inline(always)]
pub fn offer<'a>(
    history: &History,
    cursors: &[Cursor<'a>],
    has_due: bool,
    cursor: &Cursor<'a>,
) -> Option<&'a Request>
    requires { has_due ≡ list_any (λ c. due (seat_of c)) cursors.now }
    ensures { option_map (λ r. r.now) result ≡ offer history.now.events (seats_in cursors.now) (seat_of cursor.now) }
{
    let request = cursor.next()?;
    if !is_begin(request)
        || cursor.walker.begun.is_some()
        || may_begin(history, cursors, has_due, cursor)
    {
        Some(request)
    } else {
        None
    }
}

#[inline(always)]
fn is_begin(request: &Request) -> bool
    ensures { result ≡ is_begin request.now }
{
    matches!(request, Request::Begin(_))
}

/// Returns whether a session may begin a transaction: no session is to run alone, or it is the chosen one and no transaction is
/// unfinished.
#[inline(always)]
fn may_begin(history: &History, cursors: &[Cursor<'_>], has_due: bool, cursor: &Cursor<'_>) -> bool
    requires { has_due ≡ list_any (λ c. due (seat_of c)) cursors.now }
    ensures { result ≡ may_begin history.now.events (seats_in cursors.now) (seat_of cursor.now) }
{
    !has_due || is_chosen(cursors, cursor) && is_quiet(history)
}

/// Returns whether some session is to run alone.
#[inline(never)]
pub fn is_any_due(cursors: &[Cursor<'_>]) -> bool
    ensures { result ≡ list_any (λ c. due (seat_of c)) cursors.now }
{
    cursors.iter().any(|c| c.is_due())
}

/// Returns whether a session is the lowest-numbered of those that are to run alone.
#[inline(never)]
fn is_chosen(cursors: &[Cursor<'_>], cursor: &Cursor<'_>) -> bool
    ensures { result ≡ chosen (seats_in cursors.now) (seat_of cursor.now) }
{
    cursor.is_due() && is_least_due(cursors, cursor.session)
}

/// Returns whether no session with a lower number is to run alone.
fn is_least_due(cursors: &[Cursor<'_>], session: Session) -> bool
    ensures { result ≡ list_all (λ c. not (due (seat_of c)) || leb session.0 c.session.0) cursors.now }
{
    cursors
        .iter()
        .all(|c| !c.is_due() || session.0 <= c.session.0)
}
