//! A store whose commits are kept on a disk.

ghost use Rattle.std.specs.Prelude.{◌≡◌, ◌⊎◌, ◌+◌, ◌-◌, ◌*◌, ◌<◌, ◌≤◌, ◌^◌, [], length, Some, None, true, false, IsTrue, IsOk, IfOk, IfErr, OnOk, OnErr, IsErrOf, List, ℕ};
ghost use Rattle.teb_io.specs.Faults.{Rose};
ghost use Rattle.teb_rules.specs.declared.names.Cell.{Cell as TheCell};
ghost use Rattle.teb_rules.specs.declared.names.Reply.TheVariants as replies;
ghost use Rattle.teb_rules.specs.names.Rows.{row_of};
ghost use Rattle.teb_rules.specs.Answer.{answer};
ghost use Rattle.teb_rules.specs.Replay.{Values};
ghost use Rattle.crash_disk.specs.Calls.{IsUpTo};
ghost use Rattle.crash_disk.specs.Disk.{LeavesOnly};
ghost use Rattle.record_journal.specs.Format.{Record};
ghost use Rattle.record_journal.specs.Journal.{after_records};
ghost use Rattle.epoch_journal.specs.Layout.{half_size};
ghost use Rattle.epoch_journal.specs.Telling.{TellsOn};
ghost use Rattle.epoch_journal.specs.Kept.{Keeps};
ghost use Rattle.epoch_journal.specs.Memory.{IsForRecord};
ghost use Rattle.epoch_journal.specs.Refusals.{IsReliable};
ghost use Rattle.epoch_journal.specs.declared.error.CheckpointError.TheVariants as epochs;
ghost use Rattle.epoch_store.specs.Told.{acknowledged_after, told};
ghost use Rattle.teb_rules.specs.Told.{IsToldBy, events_after};
ghost use Rattle.epoch_store.specs.declared.error.AskError.TheVariants as errors;

use crate::error::{AskError, NotBegun};
use crate::recorder::Recorder;
use crash_disk::{Disk, Memory};
use epoch_journal::{CheckpointError, EpochJournal};
use std::alloc::Global;
use std::marker::Model;
use std::mem;
use teb_io::Failed;
use teb_rules::names::{Reply, Request, Session};

/// A store whose commits are kept on a disk. Whatever a crash leaves, now and at any moment of a call, has the rows after the first k of
/// the commits of this epoch, applied to the rows that the epoch began with; k is no less than the number of commits that were answered.
#[derive(Drop)]
pub struct EpochStore<E: Recorder, D: Disk> {
    pub(crate) engine: E,
    pub(crate) journal: EpochJournal<D>,
}

impl<E: Recorder, D: Disk> Model for EpochStore<E, D> {
    ghost use Rattle.teb_rules.specs.names.Rows.{row_of};
    ghost use Rattle.epoch_journal.specs.Kept.{Keeps};
    ghost use Rattle.epoch_store.specs.Stored.{Stored};

    ghost Value = { Stored E D };

    ghost view = { λ s. record { engine = s.engine; journal = s.journal } };

    ghost invariant = { λ s. Keeps D.seen D.may_leave (row_of (E.store s.engine).rows) (E.records s.engine) s.journal.acknowledged s.journal };
}

impl<E: Recorder, D: Disk> EpochStore<E, D> {
    /// Returns the store of an engine that has committed nothing yet, over a journal whose epoch has just begun with the engine's rows.
    pub fn new(engine: E, journal: EpochJournal<D>) -> EpochStore<E, D>
        requires none { E.records engine ≡ [] }
        requires begun { Keeps D.seen D.may_leave (row_of (E.store engine).rows) [] journal.acknowledged journal }
        ensures { (result.engine ≡ engine) × (result.journal ≡ journal) }
    {
        EpochStore { engine, journal }
    }

    /// Answers a request as the engine does. A commit is on the disk before it is answered: from then on each crash leaves it. It makes
    /// four calls of the disk at a commit, up to the first that fails, and none else.
    ///
    /// # Errors
    /// `Stopped`, `Full` and `OutOfMemory` leave the store as it was, and nothing is asked. `Unsure` is returned if the disk fails at a
    /// commit: the disk may keep it or not, and the store is stopped.
    pub fn ask(
        &mut self,
        alloc: Global,
        session: Session,
        request: Request,
    ) -> Result<Reply, AskError>
        ensures reply { IsToldBy (told result) (answer (E.store self.old.engine) (E.events self.old.engine) session request).0 }
        ensures events { E.events self.new.engine ≡ events_after (told result) (E.events self.old.engine) (answer (E.store self.old.engine) (E.events self.old.engine) session request).1 }
        ensures store { E.store self.new.engine ≡ E.store self.old.engine }
        ensures names { E.names self.new.engine ≡ E.names self.old.engine }

        // A crash at any moment of the call.
        ensures any_moment { LeavesOnly D.moment D.left_since self.old.journal.disk self.new.journal.disk
            (TellsOn self.old.journal.layout (row_of (E.store self.new.engine).rows) (E.records self.new.engine) self.old.journal.acknowledged) }
        // A crash after it.
        ensures images { (image : List ℕ) → D.may_leave self.new.journal.disk image
            → TellsOn self.new.journal.layout (row_of (E.store self.new.engine).rows) (E.records self.new.engine) self.new.journal.acknowledged image }

        ensures layout { self.new.journal.layout ≡ self.old.journal.layout }

        // One more commit is acknowledged if it is answered; as long as the disk has not failed, all of this epoch are.
        ensures acknowledged { self.new.journal.acknowledged ≡ acknowledged_after self.old.journal.acknowledged result }
        ensures all { self.new.journal.stopped ≡ false → self.new.journal.acknowledged ≡ length (E.records self.new.engine) }
        ensures goes_on { OnOk result (self.new.journal.stopped ≡ false) }

        ensures stopped { IsErrOf result errors.Stopped → self.old.journal.stopped ≡ true }
        ensures stays { self.old.journal.stopped ≡ true → IsErrOf result errors.Stopped }
        ensures full { IsErrOf result errors.Full → E.lacks self.old.engine (half_size self.old.journal.layout.capacity - self.old.journal.end) session request }
        ensures room { E.lacks self.old.engine (half_size self.old.journal.layout.capacity - self.old.journal.end) session request → told result ≡ None }
        ensures not_asked { IfErr result (λ e. (e ≡ errors.Unsure → ⊥) → self.new ≡ self.old) }
        ensures unsure { IsErrOf result errors.Unsure → ((answer (E.store self.old.engine) (E.events self.old.engine) session request).0 ≡ replies.Committed)
            × (self.new.journal.stopped ≡ true) × Rose (D.faults self.old.journal.disk) (D.faults self.new.journal.disk) }

        // No call of the disk is refused memory. So a store on a disk that fails only if it is refused memory is never unsure.
        ensures memory { D.refusals self.new.journal.disk ≡ D.refusals self.old.journal.disk }
        ensures sure { IsReliable D.tells_failures D.tally D.refusals self.old.journal.disk → IsErrOf result errors.Unsure → ⊥ }
        ensures promise { (D.tally self.new.journal.disk).promise ≡ (D.tally self.old.journal.disk).promise }

        // Only a commit touches the disk.
        ensures untouched { IfOk result (λ reply. (reply ≡ replies.Committed → ⊥) → self.new.journal ≡ self.old.journal) }
        ensures four_calls { IfOk result (λ reply. reply ≡ replies.Committed → (D.tally self.old.journal.disk).made + 4 < 2 ^ 64
            → (D.tally self.new.journal.disk).made ≡ (D.tally self.old.journal.disk).made + 4) }
    {
        if self.journal.is_stopped() {
            return Err(AskError::Stopped);
        }
        let prepared = prepared(alloc, &mut self.engine, &self.journal, session, request);
        let (body, memory) = match prepared {
            Ok(prepared) => prepared,
            Err(error) => return Err(error),
        };
        answered(
            &mut self.engine,
            &mut self.journal,
            session,
            request,
            memory,
            &body,
        )
    }

    /// True if a call of the disk has failed. Nothing is asked then.
    pub fn is_stopped(&self) -> bool
        ensures { result ≡ self.now.journal.stopped }
    {
        self.journal.is_stopped()
    }

    /// Returns the number of commits of this epoch that were answered: all of them, as long as the disk has not failed.
    pub fn acknowledged(&self) -> u64
        ensures count { result ≡ self.now.journal.acknowledged }
        ensures all { self.now.journal.stopped ≡ false → self.now.journal.acknowledged ≡ length (E.records self.now.engine) }
    {
        self.journal.acknowledged()
    }

    /// Returns the engine of the present epoch.
    pub fn engine(&self) -> &E
        ensures engine { result.now ≡ self.now.engine }
        ensures images { (image : List ℕ) → D.may_leave self.now.journal.disk image
            → TellsOn self.now.journal.layout (row_of (E.store self.now.engine).rows) (E.records self.now.engine) self.now.journal.acknowledged image }
    {
        &self.engine
    }

    /// Returns the number of bytes that are left for the commits of this epoch.
    pub fn left(&self) -> u64
        ensures { result + self.now.journal.end ≡ half_size self.now.journal.layout.capacity }
    {
        self.journal.left()
    }

    /// Returns the disk.
    pub fn disk(&self) -> &D
        ensures { result.now ≡ self.now.journal.disk }
    {
        self.journal.disk()
    }

    /// Returns the engine and the journal.
    pub fn into_parts(self) -> (E, EpochJournal<D>)
        ensures parts { (result.0 ≡ self.engine) × (result.1 ≡ self.journal) }
        ensures images { (image : List ℕ) → D.may_leave self.journal.disk image
            → TellsOn self.journal.layout (row_of (E.store self.engine).rows) (E.records self.engine) self.journal.acknowledged image }
    {
        (self.engine, self.journal)
    }

    /// Ends the present epoch, and begins the next one with another engine, whose rows are those that the commits of this epoch left.
    /// It returns the engine of the epoch that has ended. It makes four calls of the disk.
    ///
    /// # Errors
    /// Each returns the next engine. `Full` if its rows do not fit the disk, and `OutOfMemory`: the store is as it was. `DiskFault` if a
    /// call of the disk fails: the store is stopped, with its engine, and keeps what it kept.
    pub fn next_epoch(&mut self, alloc: Global, next: E) -> Result<E, NotBegun<E>>
        requires running { self.old.journal.stopped ≡ false }
        requires none { E.records next ≡ [] }
        requires rows { (x : TheCell) → row_of (E.store next).rows x ≡ after_records (E.records self.old.engine) (row_of (E.store self.old.engine).rows) x }
        ensures begun { IfOk result (λ past. (past ≡ self.old.engine) × (self.new.engine ≡ next) × (self.new.journal.acknowledged ≡ 0) × (self.new.journal.stopped ≡ false)) }
        ensures back { IfErr result (λ refused. (refused.next ≡ next) × (self.new.engine ≡ self.old.engine) × (self.new.journal.acknowledged ≡ self.old.journal.acknowledged)) }
        ensures unchanged { IfErr result (λ refused. (refused.why ≡ epochs.DiskFault → ⊥) → self.new ≡ self.old) }
        ensures layout { self.new.journal.layout ≡ self.old.journal.layout }

        // No call of the disk is refused memory. So a disk that fails only if it is refused memory does not fail.
        ensures memory { D.refusals self.new.journal.disk ≡ D.refusals self.old.journal.disk }
        ensures sure { IsReliable D.tells_failures D.tally D.refusals self.old.journal.disk → IfErr result (λ refused. refused.why ≡ epochs.DiskFault → ⊥) }

        ensures full { IfErr result (λ refused. refused.why ≡ epochs.Full
            → half_size self.old.journal.layout.capacity < 10 + length self.old.journal.layout.label + 14 * length (E.store next).rows) }
        ensures fault { IfErr result (λ refused. refused.why ≡ epochs.DiskFault
            → (self.new.journal.stopped ≡ true) × Rose (D.faults self.old.journal.disk) (D.faults self.new.journal.disk)) }

        // At most four calls of the disk, which write the label, the rows, and the byte that makes their half current.
        ensures calls { IsUpTo 4 (11 + length self.old.journal.layout.label + 14 * length (E.store next).rows) (D.tally self.old.journal.disk) (D.tally self.new.journal.disk) }

        // A crash at any moment of the call leaves the rows after all commits of the epoch that ends, which are those that the next one
        // begins with.
        ensures any_moment { LeavesOnly D.moment D.left_since self.old.journal.disk self.new.journal.disk
            (TellsOn self.old.journal.layout (row_of (E.store self.old.engine).rows) (E.records self.old.engine) self.old.journal.acknowledged) }
        // A crash after it.
        ensures images { (image : List ℕ) → D.may_leave self.new.journal.disk image
            → TellsOn self.new.journal.layout (row_of (E.store self.new.engine).rows) (E.records self.new.engine) self.new.journal.acknowledged image }
    {
        match begin_with(alloc, &mut self.journal, &next) {
            Ok(()) => Ok(mem::replace(&mut self.engine, next)),
            Err(why) => Err(NotBegun { next, why }),
        }
    }
}

/// Writes the checkpoint of the rows that an engine begins with.
pub(crate) fn begin_with<E: Recorder, D: Disk>(
    alloc: Global,
    journal: &mut EpochJournal<D>,
    next: &E,
) -> Result<(), CheckpointError>
    requires running { journal.old.stopped ≡ false }
    ensures begins { (start : Values) (all : List Record) (least : ℕ) → Keeps D.seen D.may_leave start all least journal.old
        → OnOk result (Keeps D.seen D.may_leave (row_of (E.store next.now).rows) [] 0 journal.new) }
    ensures kept { (start : Values) (all : List Record) (least : ℕ) → Keeps D.seen D.may_leave start all least journal.old
        → ((x : TheCell) → row_of (E.store next.now).rows x ≡ after_records all start x) → Keeps D.seen D.may_leave start all least journal.new }
    ensures any_moment { (start : Values) (all : List Record) (least : ℕ) → Keeps D.seen D.may_leave start all least journal.old
        → ((x : TheCell) → row_of (E.store next.now).rows x ≡ after_records all start x)
        → LeavesOnly D.moment D.left_since journal.old.disk journal.new.disk (TellsOn journal.old.layout start all least) }
    ensures ok { OnOk result ((journal.new.stopped ≡ false) × (journal.new.acknowledged ≡ 0)) }
    ensures place { OnErr result (journal.new.acknowledged ≡ journal.old.acknowledged) }
    ensures layout { journal.new.layout ≡ journal.old.layout }
    ensures memory { D.refusals journal.new.disk ≡ D.refusals journal.old.disk }
    ensures sure { IsReliable D.tells_failures D.tally D.refusals journal.old.disk → IsErrOf result epochs.DiskFault → ⊥ }
    ensures full { IsErrOf result epochs.Full → half_size journal.old.layout.capacity < 10 + length journal.old.layout.label + 14 * length (E.store next.now).rows }
    ensures unchanged { IfErr result (λ e. (e ≡ epochs.DiskFault → ⊥) → journal.new ≡ journal.old) }
    ensures fault { IsErrOf result epochs.DiskFault → (journal.new.stopped ≡ true) × Rose (D.faults journal.old.disk) (D.faults journal.new.disk) }
    ensures calls { IsUpTo 4 (11 + length journal.old.layout.label + 14 * length (E.store next.now).rows) (D.tally journal.old.disk) (D.tally journal.new.disk) }
{
    journal.checkpoint(alloc, next.rows())
}

/// Makes room for the answer to a request. Returns the body of the record that it would commit, and memory to write it.
///
/// # Errors
/// `Full` if the rest of the half may not hold the record; `OutOfMemory`. The engine is unchanged.
fn prepared<E: Recorder, D: Disk>(
    alloc: Global,
    engine: &mut E,
    journal: &EpochJournal<D>,
    session: Session,
    request: Request,
) -> Result<(Vec<u8>, Memory), AskError>
    ensures store { E.store engine.new ≡ E.store engine.old }
    ensures names { E.names engine.new ≡ E.names engine.old }
    ensures events { E.events engine.new ≡ E.events engine.old }
    ensures records { E.records engine.new ≡ E.records engine.old }
    ensures ready { OnOk result (E.ready engine.new ≡ true) }
    ensures prepared { IfOk result (λ p. E.prepared engine.new session request p.0.items) }
    ensures memory { IfOk result (λ p. IsForRecord D.spare_with (length p.0.items) p.1 journal.now) }
    ensures fits { IfOk result (λ p. journal.now.end + (length p.0.items + 1) ≤ half_size journal.now.layout.capacity) }
    ensures room { OnOk result (E.lacks engine.old (half_size journal.now.layout.capacity - journal.now.end) session request → ⊥) }
    ensures full { IsErrOf result errors.Full → E.lacks engine.old (half_size journal.now.layout.capacity - journal.now.end) session request }
    ensures only { IfErr result (λ e. (e ≡ errors.Full) ⊎ (e ≡ errors.OutOfMemory)) }
    ensures unchanged { OnErr result (engine.new ≡ engine.old) }
{
    let left = journal.left();
    let (body, memory) = match body_and_memory(alloc, engine, journal, 0, left, session, request) {
        Ok(found) => found,
        Err(error) => return Err(error),
    };
    let Ok(()) = engine.make_ready() else {
        return Err(AskError::OutOfMemory);
    };
    Ok((body, memory))
}

/// Returns the body of the record that a request would commit, and memory to write it after `waiting` more bytes.
///
/// # Errors
/// `Full` if the record may need more than `left` bytes; `OutOfMemory`.
pub(crate) fn body_and_memory<E: Recorder, D: Disk>(
    alloc: Global,
    engine: &E,
    journal: &EpochJournal<D>,
    waiting: usize,
    left: u64,
    session: Session,
    request: Request,
) -> Result<(Vec<u8>, Memory), AskError>
    requires left { (1 ≤ left) × (left ≤ 2 ^ 32) }
    requires waiting { waiting < 2 ^ 32 }
    ensures prepared { IfOk result (λ p. E.prepared engine.now session request p.0.items) }
    ensures memory { IfOk result (λ p. IsForRecord D.spare_with (waiting + length p.0.items) p.1 journal.now) }
    ensures fits { IfOk result (λ p. length p.0.items + 1 ≤ left) }
    ensures room { OnOk result (E.lacks engine.now left session request → ⊥) }
    ensures full { IsErrOf result errors.Full → E.lacks engine.now left session request }
    ensures only { IfErr result (λ e. (e ≡ errors.Full) ⊎ (e ≡ errors.OutOfMemory)) }
{
    let body = match engine.body(alloc, left, session, request) {
        Ok(body) => body,
        Err(error) => return Err(AskError::from(error)),
    };
    let Ok(memory) = journal.reserve(alloc, waiting + body.len()) else {
        return Err(AskError::OutOfMemory);
    };
    Ok((body, memory))
}

/// Answers a request from what was prepared for it. A commit is on the disk before it is answered.
fn answered<E: Recorder, D: Disk>(
    engine: &mut E,
    journal: &mut EpochJournal<D>,
    session: Session,
    request: Request,
    memory: Memory,
    body: &[u8],
) -> Result<Reply, AskError>
    requires ready { IsTrue (E.ready engine.old) }
    requires runs { journal.old.stopped ≡ false }
    requires prepared { E.prepared engine.old session request body.now }
    requires memory { IsForRecord D.spare_with (length body.now) memory journal.old }
    requires fits { journal.old.end + (length body.now + 1) ≤ half_size journal.old.layout.capacity }
    requires keeps { Keeps D.seen D.may_leave (row_of (E.store engine.old).rows) (E.records engine.old) journal.old.acknowledged journal.old }
    ensures keeps { Keeps D.seen D.may_leave (row_of (E.store engine.new).rows) (E.records engine.new) journal.new.acknowledged journal.new }
    ensures any_moment { LeavesOnly D.moment D.left_since journal.old.disk journal.new.disk
        (TellsOn journal.old.layout (row_of (E.store engine.new).rows) (E.records engine.new) journal.old.acknowledged) }
    ensures told { told result ≡ Some (answer (E.store engine.old) (E.events engine.old) session request).0 }
    ensures events { E.events engine.new ≡ (answer (E.store engine.old) (E.events engine.old) session request).1 }
    ensures store { E.store engine.new ≡ E.store engine.old }
    ensures names { E.names engine.new ≡ E.names engine.old }
    ensures layout { journal.new.layout ≡ journal.old.layout }
    ensures memory { D.refusals journal.new.disk ≡ D.refusals journal.old.disk }
    ensures sure { IsReliable D.tells_failures D.tally D.refusals journal.old.disk → IsOk result }
    ensures promise { (D.tally journal.new.disk).promise ≡ (D.tally journal.old.disk).promise }
    ensures acknowledged { journal.new.acknowledged ≡ acknowledged_after journal.old.acknowledged result }
    ensures goes_on { OnOk result (journal.new.stopped ≡ false) }
    ensures unsure { IfErr result (λ e. (e ≡ errors.Unsure) × ((answer (E.store engine.old) (E.events engine.old) session request).0 ≡ replies.Committed)
        × (journal.new.stopped ≡ true) × Rose (D.faults journal.old.disk) (D.faults journal.new.disk)) }
    ensures untouched { IfOk result (λ reply. (reply ≡ replies.Committed → ⊥) → journal.new ≡ journal.old) }
    ensures four_calls { IfOk result (λ reply. reply ≡ replies.Committed → (D.tally journal.old.disk).made + 4 < 2 ^ 64
        → (D.tally journal.new.disk).made ≡ (D.tally journal.old.disk).made + 4) }
{
    let reply = engine.answer(session, request);
    if reply != Reply::Committed {
        return Ok(reply);
    }
    match journal.append(memory, body) {
        Ok(()) => Ok(reply),
        Err(Failed) => Err(AskError::Unsure),
    }
}
