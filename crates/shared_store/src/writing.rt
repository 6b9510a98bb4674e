//! How the log takes what waits at the front, and writes it.

ghost use Rattle.std.specs.Prelude.{◌≡◌, ◌+◌, ◌<◌, ◌≤◌, true, false};
ghost use Rattle.turn_lock.specs.Seats.{view_of};
ghost use Rattle.shared_store.specs.Gaining.{TellsFailure};
ghost use Rattle.shared_store.specs.Keeping.{place_of, tells_in, IsLogOf};
ghost use Rattle.shared_store.specs.Totals.{TellsBy};

use crate::due_epoch::EndedEpoch;
use crate::error::UnaskedError;
use crate::hosted::Hosted;
use crate::keeper::Keeper;
use crate::kept::Kept;
use crate::running::RunningLog;
use crate::server::EpochServer;
use crate::taking::{stop_front, take_batch};
use std::alloc::Global;
use std::sync::Wait;
use teb_rules::names::Session;
use turn_lock::Turn;

impl<S: EpochServer> Keeper<S> {
    /// Sees to it that the log keeps the first `number` commits of the life: unless it does, it takes all commits that wait at the front, and
    /// writes them. Sessions may ask at the front while it writes. If the log fails, the front is told. Nothing is done if it has failed, or
    /// has spent its turns.
    pub(crate) fn write_out<R: Wait>(
        &mut self,
        rt: &R,
        alloc: Global,
        turn: &Turn<Hosted<S>>,
        by: Session,
        number: u64,
    )
        requires seat { IsLogOf turn.now self.old }
        ensures place { place_of self.new ≡ place_of self.old }
        ensures tells { TellsBy by.0 (tells_in self.old) (tells_in self.new) }
        ensures tries { self.old.failed ≡ false → self.old.total < number → 2 ≤ self.old.turns → (view_of self.new.seat).turns < (view_of self.old.seat).turns }
        ensures front { self.old.failed ≡ false → self.new.failed ≡ true → TellsFailure (view_of self.new.seat).seen }
        ensures turns { self.old.turns ≤ self.new.turns + 2 }
    {
        if self.failed || number <= self.total || self.turns < 2 {
            return;
        }
        let (batch, commits) = take_batch(rt, alloc, turn, &mut self.seat);
        if let Err(_error) = S::write(&mut self.log, alloc, batch) {
            stop_front(rt, turn, &mut self.seat);
            self.turns -= 2;
            self.failed = true;
            return;
        }
        self.turns -= 1;
        self.total = commits;
        self.entries.push(Kept { by, total: commits });
    }

    /// Looks at the front whether the epoch is to end, and nothing keeps it from its end. If so, it takes the commits that wait, writes them,
    /// and begins the next epoch, while nobody asks at the front.
    ///
    /// # Errors
    /// The epoch goes on.
    pub(crate) fn end_epoch<R: Wait>(
        self,
        rt: &R,
        alloc: Global,
        turn: &Turn<Hosted<S>>,
        by: Session,
    ) -> (Keeper<S>, Result<(), UnaskedError>)
        requires seat { IsLogOf turn.now self }
        ensures place { place_of result.0 ≡ place_of self }
        ensures tells { TellsBy by.0 (tells_in self) (tells_in result.0) }
        ensures turns { self.turns ≤ result.0.turns + 1 }
    {
        if self.failed || self.turns == 0 {
            return (self, Err(UnaskedError::Stopped));
        }
        let Keeper {
            log,
            mut seat,
            turns,
            total,
            mut entries,
            ..
        } = self;
        let hosted = turn.enter(rt, &mut seat);
        let running = RunningLog { hosted, log, total };
        let EndedEpoch {
            hosted,
            log,
            total,
            failed,
            ended,
        } = running.end_if_due(alloc);
        turn.leave(&mut seat, hosted);
        entries.push(Kept { by, total });
        let keeper = Keeper {
            log,
            seat,
            turns: turns - 1,
            total,
            failed,
            entries,
        };
        (keeper, ended)
    }
}
