//! Commits that wait to be written to a journal elsewhere.

ghost use Rattle.std.specs.Prelude.{◌≡◌, ◌⊎◌, ◌+◌, ◌*◌, ◌<◌, ◌≤◌, ◌^◌, ◌++◌, ◌∷◌, [], length, None, true, false, IfOk, IfErr, OnOk, OnErr, IsErrOf, List, ℕ};
ghost use Rattle.teb_io.specs.Faults.{Rose};
ghost use Rattle.teb_rules.specs.declared.names.Cell.{Cell as TheCell};
ghost use Rattle.teb_rules.specs.declared.names.Reply.TheVariants as replies;
ghost use Rattle.teb_rules.specs.names.Rows.{row_of};
ghost use Rattle.teb_rules.specs.Answer.{answer};
ghost use Rattle.teb_rules.specs.Replay.{Values};
ghost use Rattle.crash_disk.specs.Calls.{IsUpTo};
ghost use Rattle.crash_disk.specs.Disk.{LeavesOnly};
ghost use Rattle.record_journal.specs.Format.{Record};
ghost use Rattle.record_journal.specs.Journal.{after_records};
ghost use Rattle.epoch_journal.specs.Layout.{half_size};
ghost use Rattle.epoch_journal.specs.Telling.{TellsOn};
ghost use Rattle.epoch_journal.specs.Kept.{Keeps};
ghost use Rattle.epoch_journal.specs.declared.error.CheckpointError.TheVariants as epochs;
ghost use Rattle.epoch_store.specs.Gathering.{size_of};
ghost use Rattle.epoch_store.specs.Told.{told};
ghost use Rattle.teb_rules.specs.Told.{IsToldBy, events_after};
ghost use Rattle.epoch_store.specs.declared.error.AskError.TheVariants as errors;

use crate::error::{AskError, NotBegun};
use crate::recorder::Recorder;
use crate::store::{EpochStore, begin_with};
use crash_disk::Disk;
use epoch_journal::{EpochJournal, Group};
use std::alloc::Global;
use std::marker::Model;
use std::mem;
use teb_rules::names::{Reply, Request, Session};

/// An engine with the records of its commits that wait for a journal. It knows how many bytes of the journal's half are left, and
/// nothing else of the journal, which may be written at the same time. Contracts see the engine, the records that wait, and the
/// number of bytes that are left beside them.
#[derive(Drop)]
pub struct CommitQueue<E: Recorder> {
    engine: E,
    group: Group,
    left: u64,
}

impl<E: Recorder> Model for CommitQueue<E> {
    ghost use Rattle.std.specs.Prelude.{◌<◌};
    ghost use Rattle.epoch_store.specs.Queue.{Queue};

    ghost Value = { Queue E };

    ghost view = { λ q. record { engine = q.engine; waiting = q.group.records; left = q.left } };

    ghost invariant = { λ q. (0 < q.left) × (q.left < 4294967296) };
}

impl<E: Recorder, D: Disk> EpochStore<E, D> {
    /// Returns the two halves of the store: the engine, whose commits wait from now on, and the journal. They may be used in two threads.
    pub fn split(self, alloc: Global) -> (CommitQueue<E>, EpochJournal<D>)
        ensures engine { result.0.engine ≡ self.engine }
        ensures none { result.0.waiting ≡ [] }
        ensures left { result.0.left + self.journal.end ≡ half_size self.journal.layout.capacity }
        ensures journal { result.1 ≡ self.journal }
        ensures kept { Keeps D.seen D.may_leave (row_of (E.store self.engine).rows) (E.records self.engine) self.journal.acknowledged self.journal }
    {
        let EpochStore { engine, journal } = self;
        let queue = CommitQueue {
            engine,
            group: Group::new(alloc),
            left: journal.left(),
        };
        (queue, journal)
    }

    /// Returns the store of an engine and a journal that keeps all of its commits, or that is stopped and may have lost the last ones.
    pub fn join(queue: CommitQueue<E>, journal: EpochJournal<D>) -> EpochStore<E, D>
        requires kept { Keeps D.seen D.may_leave (row_of (E.store queue.engine).rows) (E.records queue.engine) journal.acknowledged journal }
        ensures { (result.engine ≡ queue.engine) × (result.journal ≡ journal) }
    {
        let CommitQueue { engine, .. } = queue;
        EpochStore { engine, journal }
    }
}

impl<E: Recorder> CommitQueue<E> {
    /// Answers a request as the engine does. A commit then waits until it is taken and written: until then a crash may lose it.
    ///
    /// # Errors
    /// `Full` if the bytes that are left may not hold the commit; `OutOfMemory`. Nothing is asked, and nothing changes.
    pub fn ask(
        &mut self,
        alloc: Global,
        session: Session,
        request: Request,
    ) -> Result<Reply, AskError>
        ensures reply { IsToldBy (told result) (answer (E.store self.old.engine) (E.events self.old.engine) session request).0 }
        ensures events { E.events self.new.engine ≡ events_after (told result) (E.events self.old.engine) (answer (E.store self.old.engine) (E.events self.old.engine) session request).1 }
        ensures store { E.store self.new.engine ≡ E.store self.old.engine }
        ensures names { E.names self.new.engine ≡ E.names self.old.engine }

        // The record of a commit waits, after those that wait already.
        ensures waits { IfOk result (λ reply. reply ≡ replies.Committed
            → (r : Record) × (E.records self.new.engine ≡ E.records self.old.engine ++ r ∷ []) × (self.new.waiting ≡ self.old.waiting ++ r ∷ [])) }
        ensures others { IfOk result (λ reply. (reply ≡ replies.Committed → ⊥) → (E.records self.new.engine ≡ E.records self.old.engine) × (self.new.waiting ≡ self.old.waiting)) }
        ensures behind { (past : List Record) → E.records self.old.engine ≡ past ++ self.old.waiting → E.records self.new.engine ≡ past ++ self.new.waiting }
        ensures left { self.new.left + size_of self.new.waiting ≡ self.old.left + size_of self.old.waiting }

        ensures full { IsErrOf result errors.Full → E.lacks self.old.engine self.old.left session request }
        ensures room { E.lacks self.old.engine self.old.left session request → told result ≡ None }
        ensures only { IfErr result (λ e. (e ≡ errors.Full) ⊎ (e ≡ errors.OutOfMemory)) }
        ensures not_asked { OnErr result (self.new ≡ self.old) }
    {
        let body = match queued(
            alloc,
            &mut self.engine,
            &mut self.group,
            self.left,
            session,
            request,
        ) {
            Ok(body) => body,
            Err(error) => return Err(error),
        };
        let reply = self.engine.answer(session, request);
        if reply != Reply::Committed {
            return Ok(reply);
        }
        self.group.push(&body);
        self.left -= body.len() as u64;
        Ok(reply)
    }

    /// Returns the commits that wait, the oldest first. None waits then.
    pub fn take(&mut self, alloc: Global) -> Group
        ensures group { result.records ≡ self.old.waiting }
        ensures none { self.new.waiting ≡ [] }
        ensures engine { self.new.engine ≡ self.old.engine }
        ensures left { self.new.left ≡ self.old.left }
    {
        mem::replace(&mut self.group, Group::new(alloc))
    }

    /// Ends the present epoch, and begins the next one with another engine, whose rows are those that the records of the journal left. It
    /// returns the engine of the epoch that has ended. It makes four calls of the disk.
    ///
    /// # Errors
    /// Each returns the next engine, and leaves the queue as it was. `Full` if its rows do not fit the disk, and `OutOfMemory`: the journal
    /// is as it was. `DiskFault` if a call of the disk fails: the journal is stopped, and keeps what it kept.
    pub fn next_epoch<D: Disk>(
        &mut self,
        alloc: Global,
        journal: &mut EpochJournal<D>,
        next: E,
    ) -> Result<E, NotBegun<E>>
        requires none { self.old.waiting ≡ [] }
        requires running { journal.old.stopped ≡ false }

        // The journal goes on with the rows of the next engine, and with no record.
        ensures begins { (start : Values) (all : List Record) (least : ℕ) → Keeps D.seen D.may_leave start all least journal.old
            → OnOk result (Keeps D.seen D.may_leave (row_of (E.store next).rows) [] 0 journal.new) }
        // If these are the rows that all records left, then a crash at any moment of the call, or after it, leaves what it left before.
        ensures kept { (start : Values) (all : List Record) (least : ℕ) → Keeps D.seen D.may_leave start all least journal.old
            → ((x : TheCell) → row_of (E.store next).rows x ≡ after_records all start x) → Keeps D.seen D.may_leave start all least journal.new }
        ensures any_moment { (start : Values) (all : List Record) (least : ℕ) → Keeps D.seen D.may_leave start all least journal.old
            → ((x : TheCell) → row_of (E.store next).rows x ≡ after_records all start x)
            → LeavesOnly D.moment D.left_since journal.old.disk journal.new.disk (TellsOn journal.old.layout start all least) }

        ensures begun { IfOk result (λ past. (past ≡ self.old.engine) × (self.new.engine ≡ next) × (self.new.waiting ≡ [])) }
        ensures left { OnOk result (self.new.left + journal.new.end ≡ half_size journal.new.layout.capacity) }
        ensures running { OnOk result ((journal.new.stopped ≡ false) × (journal.new.acknowledged ≡ 0)) }
        ensures back { IfErr result (λ refused. (refused.next ≡ next) × (self.new ≡ self.old) × (journal.new.acknowledged ≡ journal.old.acknowledged)) }
        ensures unchanged { IfErr result (λ refused. (refused.why ≡ epochs.DiskFault → ⊥) → journal.new ≡ journal.old) }
        ensures fault { IfErr result (λ refused. refused.why ≡ epochs.DiskFault → (journal.new.stopped ≡ true) × Rose (D.faults journal.old.disk) (D.faults journal.new.disk)) }
        ensures full { IfErr result (λ refused. refused.why ≡ epochs.Full
            → half_size journal.old.layout.capacity < 10 + length journal.old.layout.label + 14 * length (E.store next).rows) }
        ensures layout { journal.new.layout ≡ journal.old.layout }
        ensures memory { D.refusals journal.new.disk ≡ D.refusals journal.old.disk }
        ensures calls { IsUpTo 4 (11 + length journal.old.layout.label + 14 * length (E.store next).rows) (D.tally journal.old.disk) (D.tally journal.new.disk) }
    {
        match begin_with(alloc, journal, &next) {
            Ok(()) => {
                self.left = journal.left();
                Ok(mem::replace(&mut self.engine, next))
            }
            Err(why) => Err(NotBegun { next, why }),
        }
    }

    /// The number of commits that wait.
    pub fn waiting(&self) -> usize
        ensures { result ≡ length self.now.waiting }
    {
        self.group.len()
    }

    /// The number of bytes that are left for the commits of this epoch, beside those that wait or were taken.
    pub fn left(&self) -> u64
        ensures { result ≡ self.now.left }
    {
        self.left
    }

    /// The engine of the present epoch.
    pub fn engine(&self) -> &E
        ensures { result.now ≡ self.now.engine }
    {
        &self.engine
    }
}

/// Makes room for the answer to a request, and for a commit more in a group. Returns the body of the record that the request would commit.
///
/// # Errors
/// `Full` if the record may need more than `left` bytes; `OutOfMemory`. The engine and the records of the group are unchanged.
fn queued<E: Recorder>(
    alloc: Global,
    engine: &mut E,
    group: &mut Group,
    left: u64,
    session: Session,
    request: Request,
) -> Result<Vec<u8>, AskError>
    requires left { (1 ≤ left) × (left ≤ 2 ^ 32) }
    ensures store { E.store engine.new ≡ E.store engine.old }
    ensures names { E.names engine.new ≡ E.names engine.old }
    ensures events { E.events engine.new ≡ E.events engine.old }
    ensures records { E.records engine.new ≡ E.records engine.old }
    ensures ready { OnOk result (E.ready engine.new ≡ true) }
    ensures prepared { IfOk result (λ body. E.prepared engine.new session request body.items) }
    ensures same_group { group.new.records ≡ group.old.records }
    ensures spare { IfOk result (λ body. length body.items ≤ group.new.spare) }
    ensures fits { IfOk result (λ body. length body.items + 1 ≤ left) }
    ensures room { OnOk result (E.lacks engine.old left session request → ⊥) }
    ensures full { IsErrOf result errors.Full → E.lacks engine.old left session request }
    ensures only { IfErr result (λ e. (e ≡ errors.Full) ⊎ (e ≡ errors.OutOfMemory)) }
    ensures unchanged { OnErr result (engine.new ≡ engine.old) }
{
    let body = match engine.body(alloc, left, session, request) {
        Ok(body) => body,
        Err(error) => return Err(AskError::from(error)),
    };
    let Ok(()) = group.reserve(body.len()) else {
        return Err(AskError::OutOfMemory);
    };
    let Ok(()) = engine.make_ready() else {
        return Err(AskError::OutOfMemory);
    };
    Ok(body)
}
