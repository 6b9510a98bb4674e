//! The value of the turn: the server, with the list of its requests and replies.

ghost use Rattle.std.specs.Prelude.{◌≡◌, suc, ◌≤◌, [], ◌++◌, IsErrOf, length};
ghost use Rattle.teb_rules.specs.declared.names.TheConstants.{MOST_TXNS};
ghost use Rattle.teb_rules.specs.declared.names.Reply.{Reply as TheReply};
ghost use Rattle.teb_rules.specs.history.Phases.{begun_count};
ghost use Rattle.teb_rules.specs.Answer.{answer};
ghost use Rattle.teb_rules.specs.Run.{IsLegal, history_of};
ghost use Rattle.teb_rules.specs.history.Positions.{upto};
ghost use Rattle.hall_server.specs.Told.{told};
ghost use Rattle.teb_rules.specs.Told.{IsToldBy};
ghost use Rattle.hall_server.specs.declared.error.ServerError.TheVariants as failures;
ghost use Rattle.session_server.specs.Finishes.{finish_word};
ghost use Rattle.session_server.specs.Growth.{GrowsBy, own_of};

use crate::outfit::Outfit;
use hall_server::{Server, ServerError, UnaskedError};
use std::alloc::Global;
use teb_rules::names::{Entry, Reply, Request, Session};
use turn_lock::Member;

/// A server with its entries: one for each request that its history has, in the order in which they were answered.
#[derive(Drop)]
pub struct Hosted<S: Server> {
    pub(crate) server: S,
    pub(crate) entries: Vec<Entry>,
    pub(crate) alloc: Global,
    ghost legal: { IsLegal (S.store server) entries.items },
    ghost stands: { S.events server ≡ history_of (S.store server) entries.items },
    ghost few: { begun_count (S.events server) ≤ MOST_TXNS },
}

impl<S: Server> Member for Hosted<S> {
    type Entry = Entry;

    type Base = Outfit;

    ghost entries = { λ h. h.entries.items };

    ghost owner = { λ e. e.session.0 };

    ghost note = { λ h i. finish_word (S.events h.server) (suc i) };

    ghost base = { λ h. record { store = S.store h.server; names = S.names h.server } };
}

impl<S: Server> Hosted<S> {
    /// Returns a server that was asked nothing yet.
    pub(crate) fn new(alloc: Global, server: S) -> Hosted<S>
        requires { S.events server ≡ [] }
        ensures { (result.entries.items ≡ []) × (result.server ≡ server) }
    {
        Hosted {
            server,
            entries: Vec::new(alloc),
            alloc,
        }
    }

    /// Returns the server alone.
    pub(crate) fn into_server(self) -> S
        ensures { result ≡ self.server }
    {
        let Hosted { server, .. } = self;
        server
    }

    /// Asks, and keeps the entry of the request if the history has it.
    pub(crate) fn ask(&mut self, session: Session, request: Request) -> Result<Reply, ServerError>
        ensures entries { self.new.entries.items ≡ self.old.entries.items ++ own_of session request (told result) }
        ensures answer { IsToldBy (told result) (answer (S.store self.old.server) (S.events self.old.server) session request).0 }
        ensures unsure { (r : TheReply) → IsErrOf result (failures.Unsure r) → S.unsure r }
        ensures grows { GrowsBy session.0 self.old.entries.items self.new.entries.items }
        ensures before { upto (length (S.events self.old.server)) (S.events self.new.server) ≡ S.events self.old.server }
        ensures length { length (S.events self.old.server) ≤ length (S.events self.new.server) }
        ensures same { (S.store self.new.server ≡ S.store self.old.server) × (S.names self.new.server ≡ S.names self.old.server) }
    {
        if self.entries.reserve(1).is_err() {
            return Err(ServerError::Unasked(UnaskedError::OutOfMemory));
        }
        let answer = self.server.serve(self.alloc, session, request);
        if let Some(reply) = reply_in(&answer) {
            let entry = Entry {
                session,
                request,
                reply: copy_of(&reply),
            };
            self.entries.push_reserved(entry);
        }
        answer
    }
}

/// Returns the reply with which the history has a request, if it has it.
fn reply_in(answer: &Result<Reply, ServerError>) -> Option<Reply>
    ensures { result ≡ told answer.now }
{
    match answer {
        Ok(reply) | Err(ServerError::Unsure(reply)) => Some(*reply),
        Err(ServerError::Unasked(_)) => None,
    }
}

/// Returns a copy of the reply.
fn copy_of(reply: &Reply) -> Reply
    ensures { result ≡ reply.now }
{
    *reply
}
