//! How a store is closed.

ghost use Rattle.std.specs.Prelude.{◌≡◌, ◌≤◌, false, All, MatchResult, map};
ghost use Rattle.teb_rules.specs.declared.names.TheConstants.{SESSIONS};
ghost use Rattle.turn_lock.specs.Counts.{HasAll};
ghost use Rattle.shared_store.specs.declared.entry.TheConstants.{LOG_SEAT};
ghost use Rattle.shared_store.specs.Closing.{IsKeptToTheEnd};
ghost use Rattle.shared_store.specs.Ending.{LeadsToServer};
ghost use Rattle.shared_store.specs.Lives.{owner_of, taken_of};
ghost use Rattle.shared_store.specs.Reasons.{IsCheckpointed, IsReason};
ghost use Rattle.shared_store.specs.Sharing.{base_of, IsSessionOf, IsWithin, number_of};

use crate::entry::LifeEntry;
use crate::no_checkpoint::NoCheckpoint;
use crate::server::EpochServer;
use crate::session::StoreSession;
use crate::store::Store;
use crate::trace::Trace;
use std::alloc::Global;

/// The whole life of a store that was closed, for contracts alone.
pub type Life = Trace<LifeEntry>;

/// A store that was closed: its server, its log and its whole life. A log that owns a file releases it once it is dropped.
#[derive(Drop)]
pub struct Closed<S: EpochServer> {
    pub server: S,
    pub log: S::Log,
    pub life: Life,
    /// `Ok` if the log ends with a checkpoint: it keeps the rows that the life leaves, which are those of the server, and no commit beside
    /// them. Else why it does not; the log keeps all commits of the life then, unless it has failed.
    pub checkpoint: Result<(), NoCheckpoint>,
}

impl<S: EpochServer> Store<S> {
    /// The server, the log, and the life of the store. It takes back all sessions. Unless the log has failed, it ends the transaction of each
    /// session that holds one, writes the commits that wait, and then a checkpoint of all rows, with which the epoch ends. If there is no
    /// checkpoint, `Closed::checkpoint` says why, and the epoch stays as it is: a call of the log has failed, the rows do not fit, memory is
    /// out, or a transaction could not be ended.
    ///
    /// The life leads from the first stage to where the server is. It begins with what each session has seen, and has no further calls of
    /// it. The log keeps at least as many commits of it as any session was told; all, unless it has failed.
    pub fn close(self, alloc: Global, mut sessions: Vec<StoreSession<S>>) -> Closed<S>
        requires sessions { All (IsSessionOf self) sessions.items }
        requires all { HasAll SESSIONS (map number_of sessions.items) }
        ensures life { LeadsToServer (base_of self) (S.standing result.server) result.life.items }
        ensures owners { All (λ e. (1 ≤ owner_of e) × (owner_of e ≤ LOG_SEAT)) result.life.items }
        ensures sessions { All (IsWithin result.life.items) sessions.items }
        ensures kept { IsKeptToTheEnd (S.keeps result.log) (base_of self) (S.failed result.log) result.life.items sessions.items }
        ensures all { S.failed result.log ≡ false → taken_of result.life.items ≡ result.life.items }
        ensures checkpoint { MatchResult result.checkpoint (λ _. IsCheckpointed (S.keeps result.log) (S.failed result.log) (S.standing result.server))
            (IsReason (S.failed result.log) (S.standing result.server).events) }
    {
        let Store { turn, log_turn, .. } = self;
        let (mut seat, mut log_seat) = sessions.pop().unwrap().into_seats();
        while let Some(session) = sessions.pop() {
            let (other, log_other) = session.into_seats();
            turn.join(&mut seat, other);
            log_turn.join(&mut log_seat, log_other);
        }
        sessions.destroy_empty();
        let keeper = log_turn.end(log_seat);
        let total = keeper.total;
        let (log, given) = keeper.into_parts();
        turn.join(&mut seat, given);
        turn.end(seat).finish(alloc, log, total)
    }
}
