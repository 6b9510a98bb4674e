//! Commits that wait for the disk together.

ghost use Rattle.std.specs.Prelude.{◌≡◌, ◌⊎◌, ◌+◌, ◌-◌, ◌<◌, ◌≤◌, ◌^◌, ◌++◌, ◌∷◌, [], length, Ok, None, false, true, IfOk, IfErr, OnOk, OnErr, IsErrOf, List, ℕ};
ghost use Rattle.teb_io.specs.Faults.{Rose};
ghost use Rattle.teb_rules.specs.declared.names.Reply.TheVariants as replies;
ghost use Rattle.teb_rules.specs.names.Rows.{row_of};
ghost use Rattle.teb_rules.specs.Answer.{answer};
ghost use Rattle.crash_disk.specs.Calls.{AreCalls};
ghost use Rattle.crash_disk.specs.Disk.{LeavesOnly};
ghost use Rattle.record_journal.specs.Format.{Record};
ghost use Rattle.epoch_journal.specs.Layout.{half_size};
ghost use Rattle.epoch_journal.specs.Telling.{TellsOn};
ghost use Rattle.epoch_journal.specs.Memory.{IsForRecord};
ghost use Rattle.epoch_store.specs.Gathering.{size_of};
ghost use Rattle.epoch_store.specs.Told.{told};
ghost use Rattle.teb_rules.specs.Told.{IsToldBy, events_after};
ghost use Rattle.epoch_store.specs.declared.error.AskError.TheVariants as errors;

use crate::error::AskError;
use crate::recorder::Recorder;
use crate::store::{EpochStore, body_and_memory};
use crash_disk::{Disk, Memory};
use epoch_journal::{EpochJournal, Group};
use std::alloc::Global;
use std::marker::Model;
use teb_io::Failed;
use teb_rules::names::{Reply, Request, Session};

/// A store whose commits wait for the disk together. `ask` answers a commit before it is on the disk; `sync` writes all commits that wait,
/// in the calls of the disk that one commit takes, and only after its `Ok` may a commit be told to its client. Until then a crash
/// leaves the rows after the first commits, at least those that were acknowledged before.
///
/// It is not `Drop`: what waits has to be written.
pub struct GroupCommit<E: Recorder, D: Disk> {
    engine: E,
    journal: EpochJournal<D>,
    group: Group,
    memory: Option<Memory>,
}

impl<E: Recorder, D: Disk> Model for GroupCommit<E, D> {
    ghost use Rattle.teb_rules.specs.names.Rows.{row_of};
    ghost use Rattle.epoch_store.specs.Gathering.{Gathering, Gathers};

    ghost Value = { Gathering E D };

    ghost view = { λ s. record { engine = s.engine; journal = s.journal; waiting = s.group.records } };

    ghost invariant = { λ s. Gathers D.seen D.may_leave D.spare_with (row_of (E.store s.engine).rows) (E.records s.engine) s.group.records s.memory s.journal };
}

impl<E: Recorder, D: Disk> EpochStore<E, D> {
    /// Returns the same store, whose next commits wait for the disk together.
    pub fn begin_group(self, alloc: Global) -> GroupCommit<E, D>
        requires running { self.journal.stopped ≡ false }
        ensures { (result.engine ≡ self.engine) × (result.journal ≡ self.journal) × (result.waiting ≡ []) }
    {
        let EpochStore { engine, journal } = self;
        GroupCommit {
            engine,
            journal,
            group: Group::new(alloc),
            memory: None,
        }
    }
}

impl<E: Recorder, D: Disk> GroupCommit<E, D> {
    /// Answers a request as the engine does. A commit then waits for `sync`: it is not acknowledged, and a crash may lose it. There is
    /// room for it, and memory to write it. It makes no call of the disk.
    ///
    /// # Errors
    /// `Full` and `OutOfMemory`: nothing is asked, and nothing changes.
    pub fn ask(
        &mut self,
        alloc: Global,
        session: Session,
        request: Request,
    ) -> Result<Reply, AskError>
        ensures reply { IsToldBy (told result) (answer (E.store self.old.engine) (E.events self.old.engine) session request).0 }
        ensures events { E.events self.new.engine ≡ events_after (told result) (E.events self.old.engine) (answer (E.store self.old.engine) (E.events self.old.engine) session request).1 }
        ensures store { E.store self.new.engine ≡ E.store self.old.engine }
        ensures names { E.names self.new.engine ≡ E.names self.old.engine }

        // The record of a commit waits, after those that wait already.
        ensures waits { IfOk result (λ reply. reply ≡ replies.Committed
            → (r : Record) × (E.records self.new.engine ≡ E.records self.old.engine ++ r ∷ []) × (self.new.waiting ≡ self.old.waiting ++ r ∷ [])) }
        ensures others { IfOk result (λ reply. (reply ≡ replies.Committed → ⊥) → (E.records self.new.engine ≡ E.records self.old.engine) × (self.new.waiting ≡ self.old.waiting)) }

        // A crash at any moment of the call, or after it.
        ensures any_moment { LeavesOnly D.moment D.left_since self.old.journal.disk self.new.journal.disk
            (TellsOn self.old.journal.layout (row_of (E.store self.new.engine).rows) (E.records self.new.engine) self.old.journal.acknowledged) }
        ensures images { (image : List ℕ) → D.may_leave self.new.journal.disk image
            → TellsOn self.new.journal.layout (row_of (E.store self.new.engine).rows) (E.records self.new.engine) self.new.journal.acknowledged image }

        ensures full { IsErrOf result errors.Full → E.lacks self.old.engine (half_size self.old.journal.layout.capacity - (self.old.journal.end + size_of self.old.waiting)) session request }
        ensures room { E.lacks self.old.engine (half_size self.old.journal.layout.capacity - (self.old.journal.end + size_of self.old.waiting)) session request → told result ≡ None }
        ensures only { IfErr result (λ e. (e ≡ errors.Full) ⊎ (e ≡ errors.OutOfMemory)) }
        ensures not_asked { OnErr result (self.new ≡ self.old) }

        // The disk is not touched, and nothing is acknowledged.
        ensures untouched { self.new.journal ≡ self.old.journal }
    {
        let (body, memory) = match gathered(
            alloc,
            &mut self.engine,
            &self.journal,
            &mut self.group,
            session,
            request,
        ) {
            Ok(gathered) => gathered,
            Err(error) => return Err(error),
        };
        let reply = self.engine.answer(session, request);
        if reply != Reply::Committed {
            return Ok(reply);
        }
        self.group.push(&body);
        self.memory = Some(memory);
        Ok(reply)
    }

    /// Writes all commits that wait, the oldest first. After `Ok` they are acknowledged: from then on each crash leaves them. It makes
    /// four calls of the disk, two of them syncs, however many commits wait, and none if none waits. None of the calls is
    /// refused memory.
    ///
    /// # Errors
    /// `Failed` if a call of the disk fails. The store is stopped. Each crash leaves the commits that were acknowledged, and perhaps the oldest of those that wait, in their order.
    pub fn sync(self) -> (EpochStore<E, D>, Result<(), Failed>)
        ensures engine { result.0.engine ≡ self.engine }
        ensures layout { result.0.journal.layout ≡ self.journal.layout }

        // A crash at any moment of the call.
        ensures any_moment { LeavesOnly D.moment D.left_since self.journal.disk result.0.journal.disk
            (TellsOn self.journal.layout (row_of (E.store self.engine).rows) (E.records self.engine) self.journal.acknowledged) }
        // A crash after it.
        ensures images { (image : List ℕ) → D.may_leave result.0.journal.disk image
            → TellsOn result.0.journal.layout (row_of (E.store self.engine).rows) (E.records self.engine) result.0.journal.acknowledged image }

        // All commits of the epoch are acknowledged, or no more than before.
        ensures acknowledged { OnOk result.1 ((result.0.journal.stopped ≡ false) × (result.0.journal.acknowledged ≡ self.journal.acknowledged + length self.waiting)) }
        ensures all { OnOk result.1 (result.0.journal.acknowledged ≡ length (E.records self.engine)) }
        ensures unsure { OnErr result.1 ((result.0.journal.stopped ≡ true) × (result.0.journal.acknowledged ≡ self.journal.acknowledged)
            × Rose (D.faults self.journal.disk) (D.faults result.0.journal.disk)) }

        ensures untouched { self.waiting ≡ [] → (result.0.journal ≡ self.journal) × (result.1 ≡ Ok tt) }
        ensures memory { D.refusals result.0.journal.disk ≡ D.refusals self.journal.disk }
        ensures calls { 0 < length self.waiting
            → AreCalls (D.tally self.journal.disk).promise.writes 4 (size_of self.waiting + 1) (D.tally self.journal.disk) (D.tally result.0.journal.disk) result.1 }
    {
        let GroupCommit {
            engine,
            mut journal,
            group,
            memory,
        } = self;
        let Some(memory) = memory else {
            return (EpochStore { engine, journal }, Ok(()));
        };
        let written = journal.append_group(memory, &group);
        (EpochStore { engine, journal }, written)
    }

    /// Returns the number of commits that wait. They are the last ones of the epoch, and all before them are acknowledged.
    pub fn waiting(&self) -> usize
        ensures count { result ≡ length self.now.waiting }
        ensures others { self.now.journal.acknowledged + length self.now.waiting ≡ length (E.records self.now.engine) }
    {
        self.group.len()
    }

    /// Returns the number of bytes that are left for the commits of this epoch, beside those that wait.
    pub fn left(&self) -> u64
        ensures { result + (self.now.journal.end + size_of self.now.waiting) ≡ half_size self.now.journal.layout.capacity }
    {
        self.journal.left() - self.group.size() as u64
    }

    /// Returns the engine of the present epoch.
    pub fn engine(&self) -> &E
        ensures engine { result.now ≡ self.now.engine }
        ensures images { (image : List ℕ) → D.may_leave self.now.journal.disk image
            → TellsOn self.now.journal.layout (row_of (E.store self.now.engine).rows) (E.records self.now.engine) self.now.journal.acknowledged image }
    {
        &self.engine
    }
}

/// Makes room for the answer to a request, and for a commit more in a group. Returns the body of the record that the request would commit,
/// and memory to write the group with it.
///
/// # Errors
/// `Full` if the rest of the half may not hold the group and the record; `OutOfMemory`. The engine and the records of the group are
/// unchanged.
fn gathered<E: Recorder, D: Disk>(
    alloc: Global,
    engine: &mut E,
    journal: &EpochJournal<D>,
    group: &mut Group,
    session: Session,
    request: Request,
) -> Result<(Vec<u8>, Memory), AskError>
    requires { journal.now.end + size_of group.old.records < half_size journal.now.layout.capacity }
    ensures store { E.store engine.new ≡ E.store engine.old }
    ensures names { E.names engine.new ≡ E.names engine.old }
    ensures events { E.events engine.new ≡ E.events engine.old }
    ensures records { E.records engine.new ≡ E.records engine.old }
    ensures ready { OnOk result (E.ready engine.new ≡ true) }
    ensures prepared { IfOk result (λ p. E.prepared engine.new session request p.0.items) }
    ensures same_group { group.new.records ≡ group.old.records }
    ensures spare { IfOk result (λ p. length p.0.items ≤ group.new.spare) }
    ensures memory { IfOk result (λ p. IsForRecord D.spare_with (size_of group.new.records + length p.0.items) p.1 journal.now) }
    ensures fits { IfOk result (λ p. journal.now.end + size_of group.new.records + (length p.0.items + 1) ≤ half_size journal.now.layout.capacity) }
    ensures room { OnOk result (E.lacks engine.old (half_size journal.now.layout.capacity - (journal.now.end + size_of group.old.records)) session request → ⊥) }
    ensures full { IsErrOf result errors.Full → E.lacks engine.old (half_size journal.now.layout.capacity - (journal.now.end + size_of group.old.records)) session request }
    ensures only { IfErr result (λ e. (e ≡ errors.Full) ⊎ (e ≡ errors.OutOfMemory)) }
    ensures unchanged { OnErr result (engine.new ≡ engine.old) }
{
    let waiting = group.size();
    let left = journal.left() - waiting as u64;
    let (body, memory) = match body_and_memory(
        alloc, engine, journal, waiting, left, session, request,
    ) {
        Ok(found) => found,
        Err(error) => return Err(error),
    };
    let Ok(()) = group.reserve(body.len()) else {
        return Err(AskError::OutOfMemory);
    };
    let Ok(()) = engine.make_ready() else {
        return Err(AskError::OutOfMemory);
    };
    Ok((body, memory))
}
