//! One turn of the log's seat at the front.

ghost use Rattle.turn_lock.specs.Seats.{view_of, IsOf, IsOutside};
ghost use Rattle.shared_store.specs.Gaining.{LogTurn, TakesBatch, TakesNone, TellsFailure};
ghost use Rattle.shared_store.specs.Seated.{IsLogSeat};

use crate::hosted::Hosted;
use crate::server::EpochServer;
use std::alloc::Global;
use std::sync::Wait;
use turn_lock::{SeatOf, Turn};

/// Enters with the log's seat, takes the commits that wait, and leaves. It returns the commits, and how many the life has by
/// then.
pub(crate) fn take_batch<S: EpochServer, R: Wait>(
    rt: &R,
    alloc: Global,
    turn: &Turn<Hosted<S>>,
    seat: &mut SeatOf<Hosted<S>>,
) -> (S::Batch, u64)
    requires seat { IsOf turn.now seat.old × IsOutside seat.old }
    requires log { IsLogSeat 1 (view_of seat.old) }
    ensures seat { IsOf turn.now seat.new × IsOutside seat.new }
    ensures turn { LogTurn (view_of seat.old) (view_of seat.new) }
    ensures batch { TakesBatch (S.brings result.0) result.1 (view_of seat.old) (view_of seat.new) }
{
    let mut hosted = turn.enter(rt, seat);
    let batch = hosted.take(alloc);
    let commits = hosted.commits;
    turn.leave(seat, hosted);
    (batch, commits)
}

/// Enters with the log's seat, keeps that the log has failed, and leaves.
pub(crate) fn stop_front<S: EpochServer, R: Wait>(
    rt: &R,
    turn: &Turn<Hosted<S>>,
    seat: &mut SeatOf<Hosted<S>>,
)
    requires seat { IsOf turn.now seat.old × IsOutside seat.old }
    requires log { IsLogSeat 1 (view_of seat.old) }
    ensures seat { IsOf turn.now seat.new × IsOutside seat.new }
    ensures turn { LogTurn (view_of seat.old) (view_of seat.new) }
    ensures none { TakesNone (view_of seat.old) (view_of seat.new) }
    ensures told { TellsFailure (view_of seat.new).seen }
{
    let mut hosted = turn.enter(rt, seat);
    hosted.stop();
    turn.leave(seat, hosted);
}
