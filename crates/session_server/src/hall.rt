//! The hall.

ghost use Rattle.std.specs.Prelude.{◌≡◌};
ghost use Rattle.teb_rules.specs.declared.names.TheConstants.{MOST_TXNS, SESSIONS};
ghost use Rattle.turn_lock.specs.Seats.{note_count, owner_count};

use crate::door::Door;
use crate::engine::EngineServer;
use crate::hosted::Hosted;
use hall_server::Server;
use turn_lock::Turn;

/// One server for all sessions, each with a pass. Each transaction has a note of how it finished.
///
/// A session asks at its turn, and passes the door first. The turn alone keeps the server to one session at a time; its waiters
/// yield in the order of their tickets, so each hand-over would wait until the next in line gets a processor. At the door
/// sessions sleep, and one that is awake goes first, so that one ticket is drawn at a time.
#[derive(Drop)]
pub struct HallOf<S: Server> {
    pub(crate) turn: Turn<Hosted<S>>,
    pub(crate) door: Door,
    ghost sized: { (note_count turn ≡ MOST_TXNS) × (owner_count turn ≡ SESSIONS) },
}

/// A hall over an engine.
pub type Hall<C> = HallOf<EngineServer<C>>;
