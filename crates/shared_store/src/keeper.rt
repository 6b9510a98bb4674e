//! The value that goes from turn to turn behind the front: the log.

ghost use Rattle.std.specs.Prelude.{◌≡◌, [], false, Some};
ghost use Rattle.turn_lock.specs.Seats.{view_of, IsOutside};
ghost use Rattle.shared_store.specs.Places.{Place};
ghost use Rattle.shared_store.specs.Seated.{IsKeptAt, IsLogSeat};
ghost use Rattle.shared_store.specs.Totals.{total_in, writer_of};

use crate::entry::LifeEntry;
use crate::hosted::Hosted;
use crate::kept::Kept;
use crate::origin::Origin;
use crate::server::EpochServer;
use crate::site::Site;
use crate::trace::Trace;
use turn_lock::{Member, Seat};

/// How often the log's seat may enter the front: half of the 2^45 turns of a turn lock.
pub(crate) const LOG_TURNS: u64 = 1 << 44;

/// A log, with the seat by which it takes commits at the front turn. It keeps at least the first `total` commits of the life; all that were
/// taken, unless it has failed.
#[derive(Drop)]
pub struct Keeper<S: EpochServer> {
    pub(crate) log: S::Log,
    pub(crate) seat: Seat<Hosted<S>, LifeEntry, Origin>,
    /// How often the seat may enter yet, at least.
    pub(crate) turns: u64,
    /// How many commits of the life the log keeps.
    pub(crate) total: u64,
    /// True if the log has failed.
    pub(crate) failed: bool,
    pub(crate) entries: Trace<Kept>,
    ghost outside: { IsOutside seat },
    ghost seated: { IsLogSeat turns (view_of seat) },
    ghost told: { total_in entries.items ≡ total },
    ghost running: { S.failed log ≡ failed },
    ghost kept: { IsKeptAt (S.keeps log) failed total (view_of seat) },
}

impl<S: EpochServer> Keeper<S> {
    /// Returns the keeper of a log that keeps what there is, with a seat that has seen nothing.
    pub(crate) fn new(log: S::Log, seat: Seat<Hosted<S>, LifeEntry, Origin>) -> Keeper<S>
        requires outside { IsOutside seat }
        requires seated { IsLogSeat LOG_TURNS (view_of seat) }
        requires running { S.failed log ≡ false }
        requires kept { IsKeptAt (S.keeps log) false 0 (view_of seat) }
        ensures { (result.log ≡ log) × (result.seat ≡ seat) × (result.entries.items ≡ []) }
    {
        Keeper {
            log,
            seat,
            turns: LOG_TURNS,
            total: 0,
            failed: false,
            entries: Trace::new(),
        }
    }

    /// Returns the log and the seat alone.
    pub(crate) fn into_parts(self) -> (S::Log, Seat<Hosted<S>, LifeEntry, Origin>)
        ensures { (result.0 ≡ self.log) × (result.1 ≡ self.seat) × IsOutside result.1 }
    {
        let Keeper { log, seat, .. } = self;
        (log, seat)
    }
}

impl<S: EpochServer> Member for Keeper<S> {
    type Entry = Kept;

    type Base = Site;

    ghost entries = { λ k. k.entries.items };

    ghost owner = { λ e. writer_of e };

    ghost note = { λ k i. 0 };

    ghost base = { λ k. record { table = k.seat.seat.table_id; first = (view_of k.seat).base } };
}
