//! How a session asks.

ghost use Rattle.std.specs.Prelude.{◌≡◌, ◌≢◌, ◌↔◌, ◌⊎◌, ◌<◌, true, None, IsNone, IsSome, IsTrue, OnOk, OnErr};
ghost use Rattle.teb_rules.specs.Answer.{answer};
ghost use Rattle.c_forms.specs.Requests.{request_in as read};
ghost use Rattle.c_forms.specs.Replies.{reply_form as form};
ghost use Rattle.tebaldi_c.specs.Asking.{IfBothFiles, IfFiles, IfOpen, IsAnswered, IsAsked, IsKept, IsFileKept, HasFailed, IsFailed, IsInMemory, IsNoReply, IsOfAsk, IsOfMemoryAsk, IsSettled};
ghost use Rattle.tebaldi_c.specs.Hindered.{HasWaiting, IsOnlyWaiting, IsFullFor, IsFullForForm, IsStopped};
ghost use Rattle.tebaldi_c.specs.Images.{IfFiled};
ghost use Rattle.tebaldi_c.specs.Shelves.{IsIdle, IsShown};

use crate::contents::Contents;
use crate::filed::FileStore;
use crate::shelf::Shelf;
use crate::status::{BAD_VERB, NO_ROOM, NOT_OPEN, OK, OUT_OF_MEMORY, STOPPED, UNSURE, WAITING};
use crate::store::StoreHandle;
use c_forms::{ReplyForm, RequestForm, put_short_form, reply_form, request_in};
use chain_pool::PooledChains;
use engine_core::Engine;
use engine_store::AskError;
use std::alloc::{AllocError, Global};
use teb_rules::names::{Request, Session};

/// Answers a request of a session. A session that is not 1 to 32 is answered with a refusal, and the status is `OK`. The calls that put a
/// commit into a store's file wait then, and the caller performs them before it tells of the commit.
///
/// # Errors
/// `NOT_OPEN`, `BAD_VERB`, `OUT_OF_MEMORY`. Of a store in a file also `STOPPED` if a call on the file has failed; else `WAITING` if calls wait,
/// or commits for theirs;
/// and `NO_ROOM` if the rest of this epoch's part of the file may not hold the commit. At each of them the store and the reply are
/// unchanged.
#[unsafe(no_mangle)]
pub extern "C" fn tebaldi_ask(
    alloc: Global,
    store: &mut StoreHandle,
    session: u8,
    request: &RequestForm,
    reply: &mut ReplyForm,
) -> u32
    ensures ok { result ≡ OK → IsAsked store.old.held.value store.new.held.value session (read request.now) reply.new }
    ensures stays { result ≢ OK → store.new.held.value ≡ store.old.held.value }
    ensures in_memory { IsInMemory store.old.held.value → IsOfMemoryAsk result }
    ensures not_told { result ≢ OK → reply.new ≡ reply.old }
    ensures kept { IsKept store.old.held.value store.new.held.value }
    ensures failed { HasFailed store.old.held.value → result ≢ OK }
    ensures not_open { result ≡ NOT_OPEN ↔ IsNone store.old.held.value }
    ensures waiting { result ≡ WAITING → IfOpen store.old.held.value (λ s. IfFiled s HasWaiting) }
    ensures settled { result ≡ OK → IfOpen store.old.held.value (λ s. IsSettled s.file) }
    ensures shown { result ≡ OK → IfBothFiles IsShown store.old.held.value store.new.held.value }
    ensures waits { result ≢ BAD_VERB → IfOpen store.old.held.value (λ s. IfFiled s IsOnlyWaiting) → result ≡ WAITING }
    ensures stopped { result ≡ STOPPED → IfOpen store.old.held.value (λ s. IfFiled s IsStopped) }
    ensures halts { result ≢ BAD_VERB → IfOpen store.old.held.value (λ s. IfFiled s IsStopped) → result ≡ STOPPED }
    ensures no_room { result ≡ NO_ROOM → IfOpen store.old.held.value (λ s. IfFiled s (IsFullForForm session (read request.now))) }
    ensures sure { result ≢ UNSURE }
    ensures bad_verb { result ≡ BAD_VERB ↔ IsSome store.old.held.value × IsNone (read request.now) }
    ensures other { IsOfAsk result }
{
    let Some(mut shelf) = store.take(alloc) else {
        return NOT_OPEN;
    };
    let status = match request_in(request) {
        None => BAD_VERB,
        Some(request) => shelf.ask(alloc, Session(session), &request, reply),
    };
    store.put(shelf);
    status
}

impl Shelf {
    /// Answers a request, and writes the form of the reply. Returns the status.
    #[inline(always)]
    fn ask(
        &mut self,
        alloc: Global,
        session: Session,
        request: &Request,
        reply: &mut ReplyForm,
    ) -> u32
        ensures ok { result ≡ OK → IsAnswered self.old.engine self.new.engine session.0 request.now reply.new }
        ensures stays { result ≢ OK → self.new ≡ self.old }
        ensures in_memory { self.old.file ≡ None → (result ≡ OK) ⊎ (result ≡ OUT_OF_MEMORY) }
        ensures not_told { result ≢ OK → reply.new ≡ reply.old }
        ensures kept { IsFileKept self.old.file self.new.file }
        ensures waiting { result ≡ WAITING → IfFiled self.old HasWaiting }
        ensures settled { result ≡ OK → IsSettled self.old.file }
        ensures shown { result ≡ OK → IfFiles IsShown self.old.file self.new.file }
        ensures waits { IfFiled self.old IsOnlyWaiting → result ≡ WAITING }
        ensures stopped { result ≡ STOPPED → IfFiled self.old IsStopped }
        ensures halts { IfFiled self.old IsStopped → result ≡ STOPPED }
        ensures no_room { result ≡ NO_ROOM → IfFiled self.old (IsFullFor session.0 request.now) }
        ensures failed { IsFailed self.old.file → result ≢ OK }
        ensures other { (result ≡ OK) ⊎ IsNoReply result }
    {
        match &mut self.contents {
            Contents::Memory(engine) => match ask(engine, session, request, reply) {
                Ok(()) => OK,
                Err(_) => OUT_OF_MEMORY,
            },
            Contents::File(file) => ask_file(alloc, file, session, request, reply),
        }
    }
}

/// Answers a request of a store in a file: out of line, since its commits write to the file. Returns the status.
#[inline(never)]
fn ask_file(
    alloc: Global,
    file: &mut FileStore,
    session: Session,
    request: &Request,
    reply: &mut ReplyForm,
) -> u32
    ensures ok { result ≡ OK → IsAnswered file.old.engine file.new.engine session.0 request.now reply.new }
    ensures stays { result ≢ OK → file.new ≡ file.old }
    ensures not_told { result ≢ OK → reply.new ≡ reply.old }
    ensures same { (file.new.engine.store ≡ file.old.engine.store) × (file.new.engine.names ≡ file.old.engine.names) }
    ensures kept { 0 < file.new.file.waiting → file.new.file.kept ≡ file.old.file.kept }
    ensures gathered { file.new.file.gathered ≡ file.old.file.gathered }
    ensures same_failure { file.new.file.failed ≡ file.old.file.failed }
    ensures waiting { result ≡ WAITING → HasWaiting file.old }
    ensures settled { result ≡ OK → IsIdle file.old.file }
    ensures shown { result ≡ OK → IsShown file.old.file file.new.file }
    ensures opened { file.new.file.opened ≡ file.old.file.opened }
    ensures waits { IsOnlyWaiting file.old → result ≡ WAITING }
    ensures stopped { result ≡ STOPPED → IsStopped file.old }
    ensures halts { IsStopped file.old → result ≡ STOPPED }
    ensures no_room { result ≡ NO_ROOM → IsFullFor session.0 request.now file.old }
    ensures failed { file.old.file.failed ≡ true → result ≢ OK }
    ensures other { (result ≡ OK) ⊎ IsNoReply result }
{
    if file.is_stopped() {
        return STOPPED;
    }
    if !file.is_idle() {
        return WAITING;
    }
    match file.ask(alloc, session, *request) {
        Ok(answer) => {
            *reply = reply_form(&answer);
            OK
        }
        Err(AskError::Stopped) => STOPPED,
        Err(AskError::Full) => NO_ROOM,
        Err(AskError::Unsure) => unreachable!(),
        Err(AskError::OutOfMemory) => OUT_OF_MEMORY,
    }
}

/// Makes room for an answer, asks, and writes the form of the reply.
#[inline(always)]
fn ask(
    engine: &mut Engine<PooledChains>,
    session: Session,
    request: &Request,
    reply: &mut ReplyForm,
) -> Result<(), AllocError>
    ensures reply { OnOk result (reply.new ≡ form (answer engine.old.store engine.old.events session request.now).0) }
    ensures events { OnOk result (engine.new.events ≡ (answer engine.old.store engine.old.events session request.now).1) }
    ensures store { engine.new.store ≡ engine.old.store }
    ensures names { engine.new.names ≡ engine.old.names }
    ensures err { OnErr result ((engine.new ≡ engine.old) × (reply.new ≡ reply.old)) }
{
    engine.ready()?;
    match request {
        Request::Scan { .. } => ask_scan(engine, session, request, reply),
        _ => {
            reply.clear();
            put_short_form(reply, &engine.ask_short(session, request));
        }
    }
    Ok(())
}

/// Asks a scan, and writes the form of the reply: out of line, since scans are rare and their reply is long.
#[inline(never)]
fn ask_scan(
    engine: &mut Engine<PooledChains>,
    session: Session,
    request: &Request,
    reply: &mut ReplyForm,
)
    requires { IsTrue engine.old.ready }
    ensures reply { reply.new ≡ form (answer engine.old.store engine.old.events session request.now).0 }
    ensures events { engine.new.events ≡ (answer engine.old.store engine.old.events session request.now).1 }
    ensures store { engine.new.store ≡ engine.old.store }
    ensures names { engine.new.names ≡ engine.old.names }
{
    *reply = reply_form(&engine.ask(session, *request));
}
