//! A store that sessions share.

ghost use Rattle.std.specs.Prelude.{◌≡◌, Some};
ghost use Rattle.teb_rules.specs.declared.names.TheConstants.{SESSIONS};
ghost use Rattle.turn_lock.specs.Seats.{base_in, owner_count};
ghost use Rattle.shared_store.specs.declared.entry.TheConstants.{LOG_SEAT};
ghost use Rattle.shared_store.specs.Hosting.{first_of};
ghost use Rattle.shared_store.specs.Keeping.{place_of};

use crate::hosted::Hosted;
use crate::keeper::Keeper;
use crate::log_door::LogDoor;
use crate::server::EpochServer;
use std::sync::Mutex;
use turn_lock::Turn;

/// One store for all sessions.
///
/// A session asks at its turn at the front, and passes the door first. If it has committed, it waits for its turn at the log, behind the
/// log's door. A turn keeps its value to one session at a time; at its door the others sleep, so that one ticket is drawn at a time.
#[derive(Drop)]
pub struct Store<S: EpochServer> {
    pub(crate) turn: Turn<Hosted<S>>,
    pub(crate) log_turn: Turn<Keeper<S>>,
    pub(crate) door: Mutex<()>,
    pub(crate) log_door: LogDoor,
    ghost sized: { (owner_count turn ≡ LOG_SEAT) × (owner_count log_turn ≡ SESSIONS) },
    ghost site: { base_in place_of log_turn ≡ record { table = turn.table.shared.table_id; first = Some (base_in first_of turn) } },
}
