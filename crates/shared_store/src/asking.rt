//! What a session does at the front and at the log.

ghost use Rattle.std.specs.Prelude.{◌≡◌, ◌<◌, ◌≤◌, true, false, IfOk, IsErrOf, IsTrue};
ghost use Rattle.turn_lock.specs.Seats.{view_of};
ghost use Rattle.shared_store.specs.declared.error.AskError.TheVariants as errors;
ghost use Rattle.shared_store.specs.declared.reply.StoreReply.TheVariants as store_replies;
ghost use Rattle.shared_store.specs.Beginning.{IsBegin};
ghost use Rattle.shared_store.specs.Gaining.{Gains, IsCountedIn, NotToldAt, SafeAt, Sees, SeesFree, TakesLogTurns, TakesTurns, is_commit_reply};
ghost use Rattle.shared_store.specs.Sharing.{base_of, IsSessionOf};
ghost use Rattle.shared_store.specs.Sparing.{HasTurns};
ghost use Rattle.shared_store.specs.Totals.{total_in};
ghost use Rattle.shared_store.specs.Turning.{IsPutOff};

use crate::answer::Answer;
use crate::error::{AskError, UnaskedError};
use crate::log_door::{Errand, Pass};
use crate::reply::StoreReply;
use crate::server::EpochServer;
use crate::session::StoreSession;
use crate::store::Store;
use std::alloc::Global;
use std::sync::Wait;
use teb_rules::names::{Reply, Request};

impl<S: EpochServer> StoreSession<S> {
    /// Asks, and waits until the log keeps the commit, if it is one.
    ///
    /// # Errors
    /// `Unsure` if it is a commit, and the log has not told that it keeps it. `Unasked` if nothing was asked.
    pub(crate) fn ask_through<R: Wait>(
        &mut self,
        store: &Store<S>,
        rt: &R,
        alloc: Global,
        request: Request,
    ) -> Result<StoreReply, AskError>
        requires session { IsSessionOf store.now self.old }
        requires turns { HasTurns 2 2 self.old }
        ensures session { IsSessionOf store.now self.new }
        ensures same { (self.new.session ≡ self.old.session) × (self.new.asks ≡ self.old.asks) }
        ensures turn { TakesTurns 2 (view_of self.old.seat) (view_of self.new.seat) }
        ensures log_turn { TakesLogTurns 2 (view_of self.old.log_seat) (view_of self.new.log_seat) }
        ensures gains { Gains (base_of store.now) self.old.session request result (view_of self.old.seat) (view_of self.new.seat) }
        ensures later { IfOk result (λ a. a ≡ store_replies.Later → IsBegin request × SeesFree (base_of store.now) self.old.session (view_of self.old.seat) (view_of self.new.seat)) }
        ensures safe { IfOk result (λ a. IsTrue (is_commit_reply a) → SafeAt (base_of store.now) (view_of self.new.seat).seen (view_of self.new.log_seat).seen) }
        ensures not_told { IsErrOf result errors.Unsure → NotToldAt (base_of store.now) (view_of self.new.seat).seen (view_of self.old.log_seat) (view_of self.new.log_seat) }
    {
        match self.ask_twice(store, rt, alloc, request) {
            Answer::Reply(reply, number) => {
                if !is_commit(&reply) {
                    return Ok(reply);
                }
                if !self.settle(store, rt, alloc, number) {
                    return Err(AskError::Unsure);
                }
                Ok(reply)
            }
            Answer::Drained => Ok(StoreReply::Later),
            Answer::Unasked(error) => Err(AskError::Unasked(error)),
        }
    }

    /// Asks at the front. If the epoch can be ended, it ends first, and the request is asked in the next one.
    fn ask_twice<R: Wait>(
        &mut self,
        store: &Store<S>,
        rt: &R,
        alloc: Global,
        request: Request,
    ) -> Answer
        requires session { IsSessionOf store.now self.old }
        requires turns { HasTurns 2 1 self.old }
        ensures session { IsSessionOf store.now self.new }
        ensures same { (self.new.session ≡ self.old.session) × (self.new.asks ≡ self.old.asks) }
        ensures turn { TakesTurns 2 (view_of self.old.seat) (view_of self.new.seat) }
        ensures log_turn { TakesLogTurns 1 (view_of self.old.log_seat) (view_of self.new.log_seat) }
        ensures sees { Sees (base_of store.now) self.old.session request result (view_of self.old.seat) (view_of self.new.seat) }
        ensures counted { IsCountedIn (base_of store.now) result (view_of self.new.seat).seen }
        ensures put_off { IsPutOff result → IsBegin request × SeesFree (base_of store.now) self.old.session (view_of self.old.seat) (view_of self.new.seat) }
    {
        let first = self.ask_once(store, rt, alloc, request);
        let Answer::Drained = first else {
            return first;
        };
        if let Err(error) = self.end_epoch(store, rt, alloc) {
            return Answer::Unasked(error);
        }
        self.ask_once(store, rt, alloc, request)
    }

    /// Asks at the front, behind its door.
    fn ask_once<R: Wait>(
        &mut self,
        store: &Store<S>,
        rt: &R,
        alloc: Global,
        request: Request,
    ) -> Answer
        requires session { IsSessionOf store.now self.old }
        requires turns { HasTurns 1 0 self.old }
        ensures session { IsSessionOf store.now self.new }
        ensures same { (self.new.session ≡ self.old.session) × (self.new.asks ≡ self.old.asks) × (self.new.log_seat ≡ self.old.log_seat) }
        ensures turn { TakesTurns 1 (view_of self.old.seat) (view_of self.new.seat) }
        ensures sees { Sees (base_of store.now) self.old.session request result (view_of self.old.seat) (view_of self.new.seat) }
        ensures counted { IsCountedIn (base_of store.now) result (view_of self.new.seat).seen }
        ensures put_off { IsPutOff result → IsBegin request × SeesFree (base_of store.now) self.old.session (view_of self.old.seat) (view_of self.new.seat) }
    {
        let inside = store.door.lock(rt);
        let mut hosted = store.turn.enter(rt, &mut self.seat);
        let answer = hosted.ask(alloc, self.session, request);
        store.turn.leave(&mut self.seat, hosted);
        drop(inside);
        answer
    }

    /// Ends the epoch at the log's turn, if it can be ended.
    fn end_epoch<R: Wait>(
        &mut self,
        store: &Store<S>,
        rt: &R,
        alloc: Global,
    ) -> Result<(), UnaskedError>
        requires session { IsSessionOf store.now self.old }
        requires turns { HasTurns 0 1 self.old }
        ensures session { IsSessionOf store.now self.new }
        ensures same { (self.new.session ≡ self.old.session) × (self.new.asks ≡ self.old.asks) × (self.new.seat ≡ self.old.seat) }
        ensures turn { TakesLogTurns 1 (view_of self.old.log_seat) (view_of self.new.log_seat) }
    {
        let pass = store.log_door.pass(rt, self.session, Errand::EpochEnd);
        let keeper = store.log_turn.enter(rt, &mut self.log_seat);
        let (keeper, ended) = keeper.end_epoch(rt, alloc, &store.turn, self.session);
        let (kept, failed) = (keeper.total, keeper.failed);
        store.log_turn.leave(&mut self.log_seat, keeper);
        store.log_door.leave(rt, pass, kept, failed);
        ended
    }

    /// Waits until the log keeps the first `number` commits of the life. The session that finds that it does not writes all commits that wait.
    /// It returns true if and only if the log tells at the turn of this session that it keeps them. It does not if it has failed before it kept
    /// them, or has spent its turns.
    fn settle<R: Wait>(&mut self, store: &Store<S>, rt: &R, alloc: Global, number: u64) -> bool
        requires session { IsSessionOf store.now self.old }
        requires turns { HasTurns 0 1 self.old }
        ensures session { IsSessionOf store.now self.new }
        ensures same { (self.new.session ≡ self.old.session) × (self.new.asks ≡ self.old.asks) × (self.new.seat ≡ self.old.seat) }
        ensures turn { TakesLogTurns 1 (view_of self.old.log_seat) (view_of self.new.log_seat) }
        ensures safe { result ≡ true → number ≤ total_in (view_of self.new.log_seat).seen }
        ensures not_told { result ≡ false → total_in (view_of self.new.log_seat).seen < number }
        ensures looked { (view_of self.new.log_seat).turns < (view_of self.old.log_seat).turns }
    {
        let pass = store
            .log_door
            .pass(rt, self.session, Errand::Commit(number));
        if matches!(pass, Pass::Write(_)) {
            store.log_door.gather(rt);
        }
        let mut keeper = store.log_turn.enter(rt, &mut self.log_seat);
        keeper.write_out(rt, alloc, &store.turn, self.session, number);
        let (kept, failed) = (keeper.total, keeper.failed);
        store.log_turn.leave(&mut self.log_seat, keeper);
        store.log_door.leave(rt, pass, kept, failed);
        number <= kept
    }
}

/// Returns true if it is the reply to a commit that was made.
fn is_commit(reply: &StoreReply) -> bool
    ensures { result ≡ is_commit_reply reply.now }
{
    match *reply {
        StoreReply::Reply(Reply::Committed) => true,
        _ => false,
    }
}
