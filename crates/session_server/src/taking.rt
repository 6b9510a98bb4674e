//! One turn at the server.

ghost use Rattle.std.specs.Prelude.{◌≡◌, ◌<◌, ◌∷◌, [], Some, IsErrOf};
ghost use Rattle.teb_rules.specs.declared.names.Reply.{Reply as TheReply};
ghost use Rattle.turn_lock.specs.Seats.{note_count, view_of, IsOf, IsOutside};
ghost use Rattle.hall_server.specs.Told.{told};
ghost use Rattle.hall_server.specs.declared.error.ServerError.TheVariants as failures;
ghost use Rattle.session_server.specs.Growth.{own_of};
ghost use Rattle.session_server.specs.Turning.{TakesTurn, SeesMore};
ghost use Rattle.session_server.specs.Waits.{WaitsAmong};

use crate::door::{Caller, Door};
use crate::hosted::Hosted;
use crate::published::publish_since;
use hall_server::{Server, ServerError};
use std::sync::Wait;
use teb_rules::names::{MOST_TXNS, Reply, Request, Session};
use turn_lock::{SeatOf, Turn};

/// Passes the door, enters, asks, publishes the finishes, and leaves. It adds the entry of the request if the history has it, and no other.
pub(crate) fn take_turn<S: Server, R: Wait>(
    rt: &R,
    door: &Door,
    turn: &Turn<Hosted<S>>,
    seat: &mut SeatOf<Hosted<S>>,
    session: Session,
    request: Request,
) -> Result<Reply, ServerError>
    requires notes { note_count turn.now ≡ MOST_TXNS }
    requires seat { IsOf turn.now seat.old × IsOutside seat.old }
    requires turns { 0 < (view_of seat.old).turns }
    requires owner { (view_of seat.old).owners ≡ session.0 ∷ [] }
    ensures seat { IsOf turn.now seat.new × IsOutside seat.new }
    ensures turn { TakesTurn (view_of seat.old) (view_of seat.new) }
    ensures sees { SeesMore (view_of seat.old) (view_of seat.new) (own_of session request (told result)) }
    ensures waits { (r : TheReply) → told result ≡ Some r → WaitsAmong MOST_TXNS r }
    ensures unsure { (r : TheReply) → IsErrOf result (failures.Unsure r) → S.unsure r }
{
    let inside = door.enter(rt, Caller::new(session, request));
    let mut hosted = turn.enter(rt, seat);
    let before = hosted.server.history().len();
    let answer = hosted.ask(session, request);
    prove!(before <= hosted.server.history().len());
    publish_since(turn, seat, &hosted, before);
    let live = hosted.server.history().live().len();
    turn.leave(seat, hosted);
    door.leave(inside, session, &answer, live);
    answer
}
