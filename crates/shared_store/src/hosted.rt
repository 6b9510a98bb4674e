//! The value that goes from turn to turn at the front: the server, with what proofs know of its life.

ghost use Rattle.std.specs.Prelude.{◌≡◌, ◌≢◌, ◌<◌, ◌≤◌, ℕ, [], ◌∷◌, ◌++◌, length, true, false, Some, None, IfOk, IfErr, IsErrOf, OnOk};
ghost use Rattle.teb_rules.specs.declared.names.Cause.{Cause as TheCause};
ghost use Rattle.teb_rules.specs.declared.names.Reply.TheVariants as replies;
ghost use Rattle.short_reply.specs.declared.ShortReply.{ShortReply as TheShortReply};
ghost use Rattle.short_reply.specs.declared.ShortReply.TheVariants as shorts;
ghost use Rattle.teb_rules.specs.declared.names.TheConstants.{SESSIONS};
ghost use Rattle.shared_store.specs.declared.answer.Answer.TheVariants as answers;
ghost use Rattle.shared_store.specs.declared.entry.LifeEntry.TheVariants as entries;
ghost use Rattle.shared_store.specs.declared.entry.TheConstants.{LOG_SEAT};
ghost use Rattle.shared_store.specs.declared.error.UnaskedError.TheVariants as unasked;
ghost use Rattle.shared_store.specs.declared.reply.StoreReply.TheVariants as store_replies;
ghost use Rattle.shared_store.specs.Beginning.{HasRoomFor, IsBegin, holds};
ghost use Rattle.shared_store.specs.Commits.{commits_in};
ghost use Rattle.shared_store.specs.Holding.{IsBrought, IsLifeOf, IsWaiting, stage_of};
ghost use Rattle.shared_store.specs.Notices.{notice_of};
ghost use Rattle.shared_store.specs.Lives.{IsShortOf, owner_of, taken_of};
ghost use Rattle.teb_rules.specs.Epochs.{IsDrained};
ghost use Rattle.shared_store.specs.Stages.{first_stage};
ghost use Rattle.shared_store.specs.Turning.{Adds, AddsEnd, AddsForOthers, AddsResult, GrowsBy, IsNumbered, IsOfRules, IsPutOff};

use crate::answer::Answer;
use crate::entry::LifeEntry;
use crate::error::UnaskedError;
use crate::first::First;
use crate::origin::Origin;
use crate::reply::StoreReply;
use crate::server::{EpochServer, Obstacle};
use crate::trace::Trace;
use short_reply::ShortReply;
use std::alloc::Global;
use teb_rules::names::{Reply, Request, SESSIONS, Session};
use turn_lock::Member;

/// A server with its life: an entry for each request that its history has, for each time that the log took the commits that waited, and for
/// each end of an epoch, in order. The entries exist in proofs alone.
#[derive(Drop)]
pub struct Hosted<S: EpochServer> {
    pub(crate) server: S,
    pub(crate) entries: Trace<LifeEntry>,
    /// The server as it was at first.
    pub(crate) first: First<S>,
    /// For each session, by its number, how its transaction was ended in its absence.
    pub(crate) notices: Vec<Option<ShortReply>>,
    /// How many commits the epochs before this one have.
    pub(crate) past: u64,
    /// How many commits the life has.
    pub(crate) commits: u64,
    /// True if the log has failed.
    pub(crate) stopped: bool,
    ghost life: { IsLifeOf (first_stage (S.standing first.value)) (stage_of past stopped (S.standing server)) commits entries.items },
    ghost waiting: { ∥ IsWaiting (S.waits server) (first_stage (S.standing first.value)) (stage_of past stopped (S.standing server)) entries.items ∥₁ },
}

impl<S: EpochServer> Member for Hosted<S> {
    type Entry = LifeEntry;

    type Base = Origin;

    ghost entries = { λ h. h.entries.items };

    ghost owner = { λ e. owner_of e };

    ghost note = { λ h i. 0 };

    ghost base = { λ h. first_stage (S.standing h.first.value) };
}

impl<S: EpochServer> Hosted<S> {
    /// Returns a server with an empty life.
    ///
    /// # Errors
    /// The server, if memory runs out.
    pub(crate) fn new(alloc: Global, server: S) -> Result<Hosted<S>, S>
        requires fresh { (S.standing server).events ≡ [] }
        requires waits { ∥ S.waits server [] ∥₁ }
        ensures made { IfOk result (λ h. (h.entries.items ≡ []) × (h.server ≡ server) × (h.first.value ≡ server)) }
        ensures back { IfErr result (λ e. e ≡ server) }
    {
        let Ok(notices) = Vec::from_elem(alloc, None, usize::from(SESSIONS) + 1) else {
            return Err(server);
        };
        Ok(Hosted {
            first: First::of(&server),
            server,
            entries: Trace::new(),
            notices,
            past: 0,
            commits: 0,
            stopped: false,
        })
    }

    /// Returns the server alone.
    pub(crate) fn into_server(self) -> S
        ensures { result ≡ self.server }
    {
        let Hosted { server, .. } = self;
        server
    }

    /// Answers a request of a session at its turn. Once the log has failed, nothing is answered. In an epoch that is to end, a Begin of a
    /// session that holds no transaction is put off, so no transaction begins. That of another session is asked, and begins none either.
    pub(crate) fn ask(&mut self, alloc: Global, session: Session, request: Request) -> Answer
        ensures adds { Adds (first_stage (S.standing self.old.first.value)) session request result self.old.entries.items self.new.entries.items }
        ensures number { IsNumbered self.new.commits result }
        ensures first { self.new.first ≡ self.old.first }
        ensures open { IsBegin request → IsOfRules result → S.ending self.old.server ≡ true → holds (S.standing self.old.server).events session ≡ true }
        ensures put_off { IsPutOff result → IsBegin request × (S.ending self.old.server ≡ true) × (holds (S.standing self.old.server).events session ≡ false) }
        ensures ended { (r : TheShortReply) (n : ℕ) → result ≡ answers.Reply (store_replies.Ended r) n
            → (notice_of self.old.notices.items session.0 ≡ Some r) × (notice_of self.new.notices.items session.0 ≡ None) }
    {
        if self.stopped {
            return Answer::Unasked(UnaskedError::Stopped);
        }
        if let Some(reply) = self.take_notice(session) {
            return Answer::Reply(StoreReply::Ended(reply), self.commits);
        }
        if self.is_late(session, request) {
            return match self.drain(alloc, session) {
                Ok(true) => Answer::Drained,
                Ok(false) => Answer::Reply(StoreReply::Later, self.commits),
                Err(error) => Answer::Unasked(error),
            };
        }
        match self.put(alloc, session, session, request) {
            Ok(reply) => Answer::Reply(StoreReply::Reply(reply), self.commits),
            Err(error) => Answer::Unasked(error),
        }
    }

    /// Returns true if the epoch is to end, and the session holds no transaction and asks to begin one.
    fn is_late(&self, session: Session, request: Request) -> bool
        ensures late { result ≡ true → IsBegin request × (S.ending self.now.server ≡ true) × (holds (S.standing self.now.server).events session ≡ false) }
        ensures open { result ≡ false → IsBegin request → S.ending self.now.server ≡ true → holds (S.standing self.now.server).events session ≡ true }
        ensures room { result ≡ false → HasRoomFor (S.standing self.now.server).events session request }
    {
        match request {
            Request::Begin(_) => self.server.is_ending() && !self.server.holds(session),
            _ => false,
        }
    }

    /// Returns true if nothing keeps the epoch from its end. If only sessions do that were not told of an abort, other than this one, their
    /// transactions are ended for them.
    fn drain(&mut self, alloc: Global, by: Session) -> Result<bool, UnaskedError>
        ensures others { AddsForOthers by.0 self.old.entries.items self.new.entries.items }
        ensures first { self.new.first ≡ self.old.first }
    {
        for _ in 0..=SESSIONS {
            match self.server.obstacle() {
                None => return Ok(true),
                Some(Obstacle::Unfinished) => return Ok(false),
                Some(Obstacle::Untold(session)) => {
                    if session.0 == by.0 {
                        return Ok(false);
                    }
                    self.end_for(alloc, by, session)?;
                }
            }
        }
        Ok(false)
    }

    /// Ends the transaction of another session, which is told at its next turn.
    pub(crate) fn end_for(
        &mut self,
        alloc: Global,
        by: Session,
        session: Session,
    ) -> Result<(), UnaskedError>
        requires other { session.0 ≢ by.0 }
        ensures others { AddsForOthers by.0 self.old.entries.items self.new.entries.items }
        ensures ended { OnOk result (AddsEnd (first_stage (S.standing self.old.first.value)) by session self.old.entries.items self.new.entries.items) }
        ensures first { self.new.first ≡ self.old.first }
    {
        let reply = self.put(alloc, by, session, Request::End)?;
        self.keep_notice(session, &reply);
        Ok(())
    }

    /// Asks the server at the turn of session `by`, and adds an entry of what its history has.
    pub(crate) fn put(
        &mut self,
        alloc: Global,
        by: Session,
        session: Session,
        request: Request,
    ) -> Result<Reply, UnaskedError>
        requires room { HasRoomFor (S.standing self.old.server).events session request }
        ensures adds { AddsResult (first_stage (S.standing self.old.first.value)) by session request result self.old.entries.items self.new.entries.items }
        ensures halted { IsErrOf result unasked.Stopped → self.old.stopped ≡ true }
        ensures first { self.new.first ≡ self.old.first }
    {
        if self.stopped {
            return Err(UnaskedError::Stopped);
        }
        if self.commits == u64::MAX {
            return Err(UnaskedError::Full);
        }
        match self.server.serve(alloc, session, request) {
            Ok(reply) => {
                let more = commits_of(&reply);
                self.commits += more;
                self.entries.push(LifeEntry::Asked {
                    by,
                    session,
                    request,
                    reply: short_of(&reply),
                });
                Ok(reply)
            }
            Err(error) => Err(error),
        }
    }

    /// Takes the commits that wait, for the log to write.
    pub(crate) fn take(&mut self, alloc: Global) -> S::Batch
        ensures entries { self.new.entries.items ≡ self.old.entries.items ++ entries.CommitsTaken ∷ [] }
        ensures first { self.new.first ≡ self.old.first }
        ensures same { (S.standing self.new.server ≡ S.standing self.old.server) × (self.new.past ≡ self.old.past) × (self.new.commits ≡ self.old.commits) × (self.new.stopped ≡ self.old.stopped) }
        ensures waits { ∥ S.waits self.new.server (S.standing self.new.server).events ∥₁ }
        ensures brought { ∥ IsBrought (S.brings result) (first_stage (S.standing self.old.first.value)) self.new.commits self.old.entries.items self.new.entries.items ∥₁ }
    {
        let batch = self.server.take(alloc);
        self.entries.push(LifeEntry::CommitsTaken);
        batch
    }

    /// True if the epoch is to end, and nothing keeps it from its end.
    pub(crate) fn can_end(&self) -> bool
        ensures drained { result ≡ true → IsDrained (S.standing self.now.server).events }
        ensures ending { result ≡ true → S.ending self.now.server ≡ true }
    {
        if !self.server.is_ending() {
            return false;
        }
        match self.server.obstacle() {
            None => true,
            Some(_) => false,
        }
    }

    /// Keeps that the log has failed, if it has.
    pub(crate) fn stop_if(&mut self, failed: bool)
        ensures grows { GrowsBy LOG_SEAT self.old.entries.items self.new.entries.items }
        ensures taken { taken_of self.new.entries.items ≡ taken_of self.old.entries.items }
        ensures runs { failed ≡ false → self.new.entries.items ≡ self.old.entries.items }
        ensures stops { failed ≡ true → self.new.stopped ≡ true }
        ensures first { self.new.first ≡ self.old.first }
    {
        if failed {
            self.stop();
        }
    }

    /// Keeps that the log has failed. Nothing is asked from then on.
    pub(crate) fn stop(&mut self)
        ensures entries { self.new.entries.items ≡ self.old.entries.items ++ entries.LogFailed ∷ [] }
        ensures stopped { self.new.stopped ≡ true }
        ensures first { self.new.first ≡ self.old.first }
    {
        self.stopped = true;
        self.entries.push(LifeEntry::LogFailed);
    }

    /// Keeps how a transaction was ended, if it was, for its session.
    fn keep_notice(&mut self, session: Session, reply: &Reply)
        ensures kept { (cause : TheCause) → reply.now ≡ replies.Aborted cause → session.0 < length self.old.notices.items
            → notice_of self.new.notices.items session.0 ≡ Some (shorts.Aborted cause) }
        ensures others { (n : ℕ) → n ≢ session.0 → notice_of self.new.notices.items n ≡ notice_of self.old.notices.items n }
        ensures same { (self.new.entries ≡ self.old.entries) × (self.new.server ≡ self.old.server) × (self.new.first ≡ self.old.first) × (self.new.commits ≡ self.old.commits) }
    {
        if let Reply::Aborted(cause) = reply {
            let place = usize::from(session.0);
            if place < self.notices.len() {
                self.notices[place] = Some(ShortReply::Aborted(*cause));
            }
        }
    }

    /// Takes what is kept for a session.
    fn take_notice(&mut self, session: Session) -> Option<ShortReply>
        ensures told { result ≡ notice_of self.old.notices.items session.0 }
        ensures once { notice_of self.new.notices.items session.0 ≡ None }
        ensures others { (n : ℕ) → n ≢ session.0 → notice_of self.new.notices.items n ≡ notice_of self.old.notices.items n }
        ensures same { (self.new.entries ≡ self.old.entries) × (self.new.server ≡ self.old.server) × (self.new.first ≡ self.old.first) × (self.new.commits ≡ self.old.commits) }
    {
        let place = usize::from(session.0);
        if place >= self.notices.len() {
            return None;
        }
        let notice = self.notices[place];
        self.notices[place] = None;
        notice
    }
}

/// Returns the short form of a reply.
fn short_of(reply: &Reply) -> Option<ShortReply>
    ensures { IsShortOf reply.now result }
{
    ShortReply::of(reply)
}

/// Returns how many commits the reply is: 1 for Committed, and else 0.
fn commits_of(reply: &Reply) -> u64
    ensures is { result ≡ commits_in reply.now }
    ensures few { result ≤ 1 }
{
    match *reply {
        Reply::Committed => 1,
        _ => 0,
    }
}
