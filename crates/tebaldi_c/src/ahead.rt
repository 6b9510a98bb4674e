//! How sessions ask while calls on the file wait, so that their commits share calls.

ghost use Rattle.std.specs.Prelude.{◌≡◌, ◌≢◌, ◌↔◌, ◌⊎◌, true, None, IsNone, IsSome};
ghost use Rattle.c_forms.specs.Requests.{request_in as read};
ghost use Rattle.tebaldi_c.specs.Ahead.{commit_number, FileHasStopped, FileIsAhead, FileIsWritten, HasStopped, IsAhead, IsNumbered, IsNumberOf, IsOfAhead, IsOfWrite, IsWritten, KeepsAhead, WritesAll};
ghost use Rattle.tebaldi_c.specs.Asking.{HasFailed, IfOpen, IsAnswered, IsAsked, IsFailed};
ghost use Rattle.tebaldi_c.specs.Hindered.{HasCalls, IsFullFor, IsFullForForm, IsStopped};
ghost use Rattle.tebaldi_c.specs.Images.{IfFiled};

use crate::contents::Contents;
use crate::filed::FileStore;
use crate::shelf::Shelf;
use crate::status::{
    BAD_VERB, NO_ROOM, NO_SUCH, NOT_OPEN, OK, OUT_OF_MEMORY, STOPPED, UNSURE, WAITING,
};
use crate::store::StoreHandle;
use c_forms::{ReplyForm, RequestForm, reply_form, request_in};
use engine_store::AskError;
use std::alloc::Global;
use teb_rules::names::{Reply, Request, Session};

/// Answers a request of a session of a store in a file, also while calls wait. A commit that is answered then waits for `tebaldi_write`.
/// `number` is its number among the commits of this epoch; it is to be told only once the file keeps so many. At any other reply `number`
/// is 0.
///
/// # Errors
/// `NOT_OPEN`, `BAD_VERB`, `OUT_OF_MEMORY`; `NO_SUCH` of a store in memory; `STOPPED` if a call on the file has failed; `NO_ROOM` if the rest
/// of this epoch's part of the file may not hold the commit beside those that wait. At each of them the store, the reply and the number
/// are unchanged.
#[unsafe(no_mangle)]
pub extern "C" fn tebaldi_ask_ahead(
    alloc: Global,
    store: &mut StoreHandle,
    session: u8,
    request: &RequestForm,
    reply: &mut ReplyForm,
    number: &mut u64,
) -> u32
    ensures ok { result ≡ OK → IsAsked store.old.held.value store.new.held.value session (read request.now) reply.new }
    ensures number { result ≡ OK → IsNumbered store.old.held.value store.new.held.value session (read request.now) number.new }
    ensures ahead { KeepsAhead store.old.held.value store.new.held.value }
    ensures stays { result ≢ OK → store.new.held.value ≡ store.old.held.value }
    ensures not_told { result ≢ OK → (reply.new ≡ reply.old) × (number.new ≡ number.old) }
    ensures failed { HasFailed store.old.held.value → result ≢ OK }
    ensures not_open { result ≡ NOT_OPEN ↔ IsNone store.old.held.value }
    ensures no_such { result ≡ NO_SUCH → IfOpen store.old.held.value (λ s. s.file ≡ None) }
    ensures stopped { result ≡ STOPPED → IfOpen store.old.held.value (λ s. IfFiled s IsStopped) }
    ensures no_room { result ≡ NO_ROOM → IfOpen store.old.held.value (λ s. IfFiled s (IsFullForForm session (read request.now))) }
    ensures bad_verb { result ≡ BAD_VERB ↔ IsSome store.old.held.value × IsNone (read request.now) }
    ensures other { IsOfAhead result }
{
    let Some(mut shelf) = store.take(alloc) else {
        return NOT_OPEN;
    };
    let status = match request_in(request) {
        None => BAD_VERB,
        Some(request) => shelf.ask_ahead(alloc, Session(session), &request, reply, number),
    };
    store.put(shelf);
    status
}

/// Makes the calls that put all commits that wait into the file: two writes and two syncs, however many commits there are, and none if none
/// waits. The caller performs them.
///
/// # Errors
/// `NOT_OPEN`; `NO_SUCH` of a store in memory; `STOPPED` if a call on the file has failed; `WAITING` if calls wait to be performed. At each of
/// them the store is unchanged. `UNSURE` if memory is out: the store has stopped, and the file may have these commits or not.
#[unsafe(no_mangle)]
pub extern "C" fn tebaldi_write(alloc: Global, store: &mut StoreHandle) -> u32
    ensures ok { result ≡ OK → WritesAll store.old.held.value store.new.held.value }
    ensures unsure { result ≡ UNSURE → HasStopped store.old.held.value store.new.held.value }
    ensures stays { result ≢ OK → result ≢ UNSURE → store.new.held.value ≡ store.old.held.value }
    ensures failed { HasFailed store.old.held.value → (result ≢ OK) × (result ≢ UNSURE) }
    ensures not_open { result ≡ NOT_OPEN ↔ IsNone store.old.held.value }
    ensures no_such { result ≡ NO_SUCH → IfOpen store.old.held.value (λ s. s.file ≡ None) }
    ensures stopped { result ≡ STOPPED → IfOpen store.old.held.value (λ s. IfFiled s IsStopped) }
    ensures waiting { result ≡ WAITING → IfOpen store.old.held.value (λ s. IfFiled s HasCalls) }
    ensures other { IsOfWrite result }
{
    let Some(mut shelf) = store.take(alloc) else {
        return NOT_OPEN;
    };
    let status = shelf.write(alloc);
    store.put(shelf);
    status
}

impl Shelf {
    /// Answers a request of a store in a file ahead, and writes the form of the reply and the number of a commit. Returns the status.
    fn ask_ahead(
        &mut self,
        alloc: Global,
        session: Session,
        request: &Request,
        reply: &mut ReplyForm,
        number: &mut u64,
    ) -> u32
        ensures ok { result ≡ OK → IsAnswered self.old.engine self.new.engine session.0 request.now reply.new }
        ensures number { result ≡ OK → IsNumberOf self.old.engine self.new.engine session.0 request.now number.new }
        ensures ahead { FileIsAhead self.old.file self.new.file }
        ensures stays { result ≢ OK → self.new ≡ self.old }
        ensures not_told { result ≢ OK → (reply.new ≡ reply.old) × (number.new ≡ number.old) }
        ensures failed { IsFailed self.old.file → result ≢ OK }
        ensures no_such { result ≡ NO_SUCH → self.old.file ≡ None }
        ensures stopped { result ≡ STOPPED → IfFiled self.old IsStopped }
        ensures no_room { result ≡ NO_ROOM → IfFiled self.old (IsFullFor session.0 request.now) }
        ensures other { (result ≡ OK) ⊎ (result ≡ NO_SUCH) ⊎ (result ≡ OUT_OF_MEMORY) ⊎ (result ≡ STOPPED) ⊎ (result ≡ NO_ROOM) }
    {
        match &mut self.contents {
            Contents::Memory(_) => NO_SUCH,
            Contents::File(file) => ask_file_ahead(alloc, file, session, request, reply, number),
        }
    }

    /// Makes the calls of the commits that wait. Returns the status.
    fn write(&mut self, alloc: Global) -> u32
        ensures ok { result ≡ OK → (self.new.engine ≡ self.old.engine) × FileIsWritten self.old.file self.new.file }
        ensures unsure { result ≡ UNSURE → (self.new.engine ≡ self.old.engine) × FileHasStopped self.new.file }
        ensures stays { result ≢ OK → result ≢ UNSURE → self.new ≡ self.old }
        ensures failed { IsFailed self.old.file → (result ≢ OK) × (result ≢ UNSURE) }
        ensures no_such { result ≡ NO_SUCH → self.old.file ≡ None }
        ensures stopped { result ≡ STOPPED → IfFiled self.old IsStopped }
        ensures waiting { result ≡ WAITING → IfFiled self.old HasCalls }
        ensures other { (result ≡ OK) ⊎ (result ≡ NO_SUCH) ⊎ (result ≡ STOPPED) ⊎ (result ≡ WAITING) ⊎ (result ≡ UNSURE) }
    {
        match &mut self.contents {
            Contents::Memory(_) => NO_SUCH,
            Contents::File(file) => write_file(alloc, file),
        }
    }
}

/// Answers a request of a store in a file ahead. Returns the status.
fn ask_file_ahead(
    alloc: Global,
    file: &mut FileStore,
    session: Session,
    request: &Request,
    reply: &mut ReplyForm,
    number: &mut u64,
) -> u32
    ensures ok { result ≡ OK → IsAnswered file.old.engine file.new.engine session.0 request.now reply.new }
    ensures number { result ≡ OK → IsNumberOf file.old.engine file.new.engine session.0 request.now number.new }
    ensures same { (file.new.engine.store ≡ file.old.engine.store) × (file.new.engine.names ≡ file.old.engine.names) }
    ensures ahead { IsAhead file.old.file file.new.file }
    ensures stays { result ≢ OK → file.new ≡ file.old }
    ensures not_told { result ≢ OK → (reply.new ≡ reply.old) × (number.new ≡ number.old) }
    ensures failed { file.old.file.failed ≡ true → result ≢ OK }
    ensures stopped { result ≡ STOPPED → IsStopped file.old }
    ensures no_room { result ≡ NO_ROOM → IsFullFor session.0 request.now file.old }
    ensures other { (result ≡ OK) ⊎ (result ≡ OUT_OF_MEMORY) ⊎ (result ≡ STOPPED) ⊎ (result ≡ NO_ROOM) }
{
    if file.is_stopped() {
        return STOPPED;
    }
    match file.ask_ahead(alloc, session, *request) {
        Ok(answer) => {
            *number = number_of(file, &answer);
            *reply = reply_form(&answer);
            OK
        }
        Err(AskError::Stopped) => STOPPED,
        Err(AskError::Full) => NO_ROOM,
        Err(AskError::Unsure) => unreachable!(),
        Err(AskError::OutOfMemory) => OUT_OF_MEMORY,
    }
}

/// Returns the number of a commit that was answered last; 0 of any other reply.
fn number_of(file: &FileStore, reply: &Reply) -> u64
    requires running { IsStopped file.now → ⊥ }
    ensures { result ≡ commit_number reply.now file.now.engine.events }
{
    match reply {
        Reply::Committed => file.commits(),
        _ => 0,
    }
}

/// Makes the calls of the commits that wait, of a store in a file. Returns the status.
fn write_file(alloc: Global, file: &mut FileStore) -> u32
    ensures engine { file.new.engine ≡ file.old.engine }
    ensures ok { result ≡ OK → IsWritten file.old.file file.new.file }
    ensures unsure { result ≡ UNSURE → file.new.file.journal.stopped ≡ true }
    ensures stays { result ≢ OK → result ≢ UNSURE → file.new ≡ file.old }
    ensures failed { file.old.file.failed ≡ true → (result ≢ OK) × (result ≢ UNSURE) }
    ensures stopped { result ≡ STOPPED → IsStopped file.old }
    ensures waiting { result ≡ WAITING → HasCalls file.old }
    ensures other { (result ≡ OK) ⊎ (result ≡ STOPPED) ⊎ (result ≡ WAITING) ⊎ (result ≡ UNSURE) }
{
    if file.is_stopped() {
        return STOPPED;
    }
    if file.waiting() > 0 {
        return WAITING;
    }
    match file.write(alloc) {
        Ok(()) => OK,
        Err(_) => UNSURE,
    }
}
