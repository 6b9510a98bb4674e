//! How a store is made, with its sessions.

ghost use Rattle.std.specs.Prelude.{◌≡◌, ◌≤◌, [], false, All, map, IfOk, IfErr, vec_capacity};
ghost use Rattle.teb_rules.specs.history.Phases.{numbers};
ghost use Rattle.turn_lock.specs.Views.{first_view, remaining};
ghost use Rattle.turn_lock.specs.Seats.{base_in, view_of, IsOf, IsOutside};
ghost use Rattle.shared_store.specs.declared.entry.TheConstants.{LOG_SEAT};
ghost use Rattle.shared_store.specs.declared.keeper.TheConstants.{LOG_TURNS};
ghost use Rattle.shared_store.specs.Hosting.{first_of};
ghost use Rattle.shared_store.specs.Keeping.{place_of};
ghost use Rattle.shared_store.specs.Stages.{first_stage};
ghost use Rattle.shared_store.specs.Sharing.{base_of, IsNewIn, IsNew, number_of};

use crate::entry::LOG_SEAT;
use crate::hosted::Hosted;
use crate::keeper::{Keeper, LOG_TURNS};
use crate::log_door::LogDoor;
use crate::server::EpochServer;
use crate::session::{MOST_TURNS, StoreSession};
use crate::store::Store;
use std::alloc::Global;
use std::sync::Mutex;
use teb_rules::names::{SESSIONS, Session};
use turn_lock::{SeatOf, Turn};

impl<S: EpochServer> Store<S> {
    /// Returns a store over a server and its log, and the sessions 1 to `SESSIONS`, in order. The life of the store begins where the
    /// server is. In its epoch nothing has happened, as in one that was just opened.
    ///
    /// # Errors
    /// The server and the log, if memory is out. The log and the server's store and history are unchanged, and no commit waits. So they
    /// may be tried again.
    pub fn new(
        alloc: Global,
        server: S,
        log: S::Log,
    ) -> Result<(Store<S>, Vec<StoreSession<S>>), (S, S::Log)>
        requires fresh { (S.standing server).events ≡ [] }
        requires waits { ∥ S.waits server [] ∥₁ }
        requires kept { ∥ S.keeps log (S.standing server).store [] 0 ∥₁ }
        requires running { S.failed log ≡ false }
        ensures base { IfOk result (λ r. base_of r.0 ≡ first_stage (S.standing server)) }
        ensures sessions { IfOk result (λ r. All (IsNew r.0) r.1.items) }
        ensures numbers { IfOk result (λ r. map number_of r.1.items ≡ numbers SESSIONS) }
        ensures stands { IfErr result (λ e. S.standing e.0 ≡ S.standing server) }
        ensures waits { IfErr result (λ e. ∥ S.waits e.0 [] ∥₁) }
        ensures back { IfErr result (λ e. e.1 ≡ log) }
    {
        let Ok(mut sessions) = Vec::with_capacity(alloc, usize::from(SESSIONS)) else {
            return Err((server, log));
        };
        let hosted = match Hosted::new(alloc, server) {
            Ok(hosted) => hosted,
            Err(server) => return Err((server, log)),
        };
        match Turn::new(alloc, hosted, 0, LOG_SEAT) {
            Ok((turn, mut seat)) => {
                let given = turn.split(&mut seat, LOG_SEAT, LOG_TURNS);
                match Turn::new(alloc, Keeper::new(log, given), 0, SESSIONS) {
                    Ok((log_turn, log_seat)) => {
                        deal_sessions(&turn, seat, &log_turn, log_seat, &mut sessions);
                        let store = Store {
                            turn,
                            log_turn,
                            door: Mutex::new(()),
                            log_door: LogDoor::new(),
                        };
                        Ok((store, sessions))
                    }
                    Err(keeper) => {
                        let (log, given) = keeper.into_parts();
                        turn.join(&mut seat, given);
                        Err((turn.end(seat).into_server(), log))
                    }
                }
            }
            Err(hosted) => Err((hosted.into_server(), log)),
        }
    }
}

/// Makes a session of each number out of two seats.
fn deal_sessions<S: EpochServer>(
    turn: &Turn<Hosted<S>>,
    mut seat: SeatOf<Hosted<S>>,
    log_turn: &Turn<Keeper<S>>,
    mut log_seat: SeatOf<Keeper<S>>,
    sessions: &mut Vec<StoreSession<S>>,
)
    requires seat { IsOf turn.now seat × IsOutside seat }
    requires first { view_of seat ≡ remaining LOG_SEAT LOG_TURNS (first_view (base_in first_of turn.now) 0 LOG_SEAT) }
    requires log_seat { IsOf log_turn.now log_seat × IsOutside log_seat }
    requires log_first { view_of log_seat ≡ first_view (base_in place_of log_turn.now) 0 SESSIONS }
    requires none { sessions.old.items ≡ [] }
    requires room { SESSIONS ≤ vec_capacity sessions.old }
    ensures sessions { All (IsNewIn turn.now log_turn.now (base_in first_of turn.now)) sessions.new.items }
    ensures numbers { map number_of sessions.new.items ≡ numbers SESSIONS }
{
    for number in 1..SESSIONS {
        let dealt = turn.split(&mut seat, number, MOST_TURNS);
        let log_dealt = log_turn.split(&mut log_seat, number, MOST_TURNS);
        sessions.push_reserved(StoreSession::new(Session(number), dealt, log_dealt));
    }
    sessions.push_reserved(StoreSession::new(Session(SESSIONS), seat, log_seat));
}
