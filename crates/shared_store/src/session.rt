//! A session of a store.

ghost use Rattle.std.specs.Prelude.{◌≡◌};
ghost use Rattle.turn_lock.specs.Seats.{view_of, IsOutside};
ghost use Rattle.shared_store.specs.Known.{Knows, KnowsLog, IsFresh, IsFreshLog};

use crate::entry::LifeEntry;
use crate::hosted::Hosted;
use crate::keeper::Keeper;
use crate::kept::Kept;
use crate::origin::Origin;
use crate::server::EpochServer;
use crate::site::Site;
use teb_rules::names::Session;
use turn_lock::Seat;

/// How many calls of `ask` and `expel` a session may make.
pub const MOST_ASKS: u64 = 1 << 38;

/// How many turns it has for that at the front, and how many at the log: two for each call. All sessions have half of the 2^45 turns of a
/// turn lock; the log's seat has the other half of those at the front.
pub const MOST_TURNS: u64 = 1 << 39;

/// The right of one session to ask a store. It knows what it has seen of the store's life, all of its own calls among it, and how many
/// commits the log has told that it keeps.
#[derive(Drop)]
pub struct StoreSession<S: EpochServer> {
    pub(crate) seat: Seat<Hosted<S>, LifeEntry, Origin>,
    pub(crate) log_seat: Seat<Keeper<S>, Kept, Site>,
    pub(crate) session: Session,
    pub(crate) asks: u64,
    ghost outside: { IsOutside seat },
    ghost log_outside: { IsOutside log_seat },
    ghost knows: { Knows session.0 asks (view_of seat) },
    ghost knows_log: { KnowsLog session.0 asks (view_of log_seat) },
}

impl<S: EpochServer> StoreSession<S> {
    pub(crate) fn new(
        session: Session,
        seat: Seat<Hosted<S>, LifeEntry, Origin>,
        log_seat: Seat<Keeper<S>, Kept, Site>,
    ) -> StoreSession<S>
        requires outside { IsOutside seat × IsOutside log_seat }
        requires fresh { IsFresh session.0 (view_of seat) }
        requires fresh_log { IsFreshLog session.0 (view_of log_seat) }
        ensures { (result.seat ≡ seat) × (result.log_seat ≡ log_seat) × (result.session ≡ session) × (result.asks ≡ 0) }
    {
        StoreSession {
            seat,
            log_seat,
            session,
            asks: 0,
        }
    }

    /// Returns the number of the session.
    pub fn session(&self) -> Session
        ensures { result ≡ self.now.session }
    {
        self.session
    }

    /// Returns how many calls of `ask` and `expel` the session has made.
    pub fn asks(&self) -> u64
        ensures { result ≡ self.now.asks }
    {
        self.asks
    }

    /// Returns the seats alone.
    pub(crate) fn into_seats(
        self,
    ) -> (
        Seat<Hosted<S>, LifeEntry, Origin>,
        Seat<Keeper<S>, Kept, Site>,
    )
        ensures { (result.0 ≡ self.seat) × (result.1 ≡ self.log_seat) × IsOutside result.0 × IsOutside result.1 }
    {
        let StoreSession { seat, log_seat, .. } = self;
        (seat, log_seat)
    }
}
