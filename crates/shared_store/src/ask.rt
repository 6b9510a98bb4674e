//! A request of a session.

ghost use Rattle.std.specs.Prelude.{◌≡◌, ◌≢◌, ◌≤◌, ◌↔◌, Err, IfOk, OnOk, IsErrOf};
ghost use Rattle.teb_rules.specs.declared.names.Reply.{Reply as TheReply};
ghost use Rattle.teb_rules.specs.declared.names.Reply.TheVariants as replies;
ghost use Rattle.shared_store.specs.declared.error.UnaskedError.{UnaskedError as TheUnaskedError};
ghost use Rattle.shared_store.specs.declared.error.StoreError.TheVariants as errors;
ghost use Rattle.shared_store.specs.declared.reply.StoreReply.TheVariants as store_replies;
ghost use Rattle.shared_store.specs.Beginning.{IsBegin};
ghost use Rattle.shared_store.specs.Sharing.{base_of, HasEnded, IsAnswered, IsNotTold, IsSafe, IsSessionOf, IsUnasked, WasFree, told};

use crate::error::{AskError, StoreError};
use crate::reply::StoreReply;
use crate::server::EpochServer;
use crate::session::{MOST_ASKS, StoreSession};
use crate::store::Store;
use std::alloc::Global;
use std::sync::Wait;
use teb_rules::names::{Request, Session};

impl<S: EpochServer> StoreSession<S> {
    /// Asks the store, at the turn of this session, for which it waits. A commit is answered once the log keeps it; commits of sessions that
    /// wait together share its syncs.
    ///
    /// If the epoch is to end, a Begin of a session that holds no transaction is answered `Later`, and nothing else is. Once all transactions
    /// have finished, it ends the epoch first, and is asked in the next one. So it is asked only if fewer than 8,192 transactions have begun
    /// in its epoch. A Begin of a session that holds one is asked in any epoch. By the rules it begins none: it is refused, or tells of an
    /// abort.
    ///
    /// What the session has seen goes on by this call, and of the commits that the log has told that it keeps there are no fewer.
    ///
    /// # Errors
    /// `Spent` if the session has made `MOST_ASKS` calls. `Unasked` if the log has failed earlier, or has spent its turns at the front, of
    /// which it has 2^44; if the commit or the rows of the next epoch do not fit; or if memory runs out. With both, nothing was asked.
    /// `Unsure` if the log failed before it kept a commit, or had spent its turns: the call is in the life of the store, and a crash may
    /// keep it or not. It is not returned if the log has told the session that it keeps the commit. Once the log has failed, nothing is
    /// asked.
    pub fn ask<R: Wait>(
        &mut self,
        store: &Store<S>,
        rt: &R,
        alloc: Global,
        request: Request,
    ) -> Result<StoreReply, StoreError>
        requires session { IsSessionOf store.now self.old }
        ensures session { IsSessionOf store.now self.new × (self.new.session ≡ self.old.session) }
        ensures answered { IfOk result (λ a. (r : TheReply) → a ≡ store_replies.Reply r → IsAnswered (base_of store.now) self.old self.new request r) }
        ensures kept { IfOk result (λ a. a ≡ store_replies.Reply replies.Committed → IsSafe (base_of store.now) self.new) }
        ensures still { told self.old ≤ told self.new }
        ensures no_reply { IfOk result (λ a. ((r : TheReply) → a ≢ store_replies.Reply r) → IsUnasked (base_of store.now) self.old self.new) }
        ensures later { IfOk result (λ a. a ≡ store_replies.Later → IsBegin request × WasFree (base_of store.now) self.old self.new) }
        ensures unsure { IsErrOf result errors.Unsure → IsAnswered (base_of store.now) self.old self.new request replies.Committed }
        ensures not_told { IsErrOf result errors.Unsure → IsNotTold (base_of store.now) self.old self.new }
        ensures unasked { (f : TheUnaskedError) → IsErrOf result (errors.Unasked f) → IsUnasked (base_of store.now) self.old self.new }
        ensures spent { IsErrOf result errors.Spent → self.new ≡ self.old }
        ensures when { (result ≡ Err errors.Spent) ↔ (self.old.asks ≡ MOST_ASKS) }
    {
        if self.asks == MOST_ASKS {
            return Err(StoreError::Spent);
        }
        self.asks += 1;
        match self.ask_through(store, rt, alloc, request) {
            Ok(reply) => Ok(reply),
            Err(AskError::Unsure) => Err(StoreError::Unsure),
            Err(AskError::Unasked(error)) => Err(StoreError::Unasked(error)),
        }
    }

    /// Ends the transaction of another session, at the turn of this one, for which it waits. The other is told at its next call. It is for
    /// a session that is silent, and holds up others. After `Ok` the last entry of the life that this session has seen is the End of the other.
    ///
    /// # Errors
    /// Those of `ask`, except `Unsure`. Nothing was ended.
    pub fn expel<R: Wait>(
        &mut self,
        store: &Store<S>,
        rt: &R,
        alloc: Global,
        other: Session,
    ) -> Result<(), StoreError>
        requires session { IsSessionOf store.now self.old }
        requires other { other.0 ≢ self.old.session.0 }
        ensures session { IsSessionOf store.now self.new × (self.new.session ≡ self.old.session) }
        ensures still { told self.new ≡ told self.old }
        ensures ended { OnOk result (IsUnasked (base_of store.now) self.old self.new) }
        ensures other_ended { OnOk result (HasEnded (base_of store.now) self.old self.new other) }
        ensures unasked { (f : TheUnaskedError) → IsErrOf result (errors.Unasked f) → IsUnasked (base_of store.now) self.old self.new }
        ensures spent { IsErrOf result errors.Spent → self.new ≡ self.old }
        ensures when { (result ≡ Err errors.Spent) ↔ (self.old.asks ≡ MOST_ASKS) }
    {
        if self.asks == MOST_ASKS {
            return Err(StoreError::Spent);
        }
        let inside = store.door.lock(rt);
        let mut hosted = store.turn.enter(rt, &mut self.seat);
        let ended = hosted.end_for(alloc, self.session, other);
        store.turn.leave(&mut self.seat, hosted);
        drop(inside);
        self.asks += 1;
        match ended {
            Ok(()) => Ok(()),
            Err(error) => Err(StoreError::Unasked(error)),
        }
    }
}
