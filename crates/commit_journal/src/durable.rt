//! A store on a disk.

ghost use Rattle.std.specs.Prelude.{◌≡◌, ◌+◌, ◌-◌, ◌^◌, ◌<◌, [], List, ℕ, length, true, false, IsTrue, IfOk, IfErr, OnOk, IsErrOf, IsOk, IsErr};
ghost use Rattle.teb_io.specs.Faults.{Rose};
ghost use Rattle.teb_rules.specs.Answer.{answer};
ghost use Rattle.crash_disk.specs.Disk.{LeavesOnly};
ghost use Rattle.crash_disk.specs.Spare.{Covers};
ghost use Rattle.commit_laws.specs.Laws.{IsOfSerialRun};
ghost use Rattle.crash_disk.specs.Calls.{AreSure, Fails, IsUpTo};
ghost use Rattle.record_journal.specs.Format.{records, room_of};
ghost use Rattle.commit_journal.specs.Answered.{Answered, IsBodyFor};
ghost use Rattle.commit_journal.specs.Asking.{Acknowledges, FailsAtCommit, MakesCalls, RefusesOnly};
ghost use Rattle.commit_journal.specs.Kept.{IsFull, IsSameStore, kept_of};
ghost use Rattle.commit_journal.specs.Whole.{HasFirst, KeepsAll};
ghost use Rattle.commit_journal.specs.declared.error.DurableError.TheVariants as errors;

use crate::commit::body_of;
use crate::{CreateError, DurableError};
use crash_disk::{Disk, Memory};
use engine_core::Engine;
use record_journal::Journal;
use std::alloc::Global;
use std::marker::Model;
use teb_io::Failed;
use teb_rules::names::{Reply, Request, Session};
use version_chain::Chains;

/// A store whose commits are kept on a disk. Contracts see the store, its names and events, the newest first; the disk, the end
/// of its journal, how many commits were acknowledged, and whether the disk has failed.
#[derive(Drop)]
pub struct Durable<C: Chains, D: Disk> {
    engine: Engine<C>,
    journal: Journal<D>,
}

impl<C: Chains, D: Disk> Model for Durable<C, D> {
    ghost use Rattle.commit_journal.specs.Kept.{Kept, kept_of};
    ghost use Rattle.commit_journal.specs.Whole.{KeepsAll};

    ghost Value = { Kept D };

    ghost view = { λ d. kept_of d.engine d.journal };

    ghost invariant = { λ d. KeepsAll D.seen D.may_leave d.engine.store d.engine.events d.journal };
}

impl<C: Chains, D: Disk> Durable<C, D> {
    /// Returns the store of an engine with an empty history, with a new journal, which has no commit yet.
    ///
    /// It does not go on with a journal that is there: the commits of that journal are lost, and the new one has only what is
    /// committed from now on, not the rows that the engine began with. To keep a store over restarts, use `EngineStore` of
    /// `engine_store`.
    ///
    /// # Errors
    /// `DiskFault` if a call of the disk fails. The disk is returned, and the engine is dropped.
    pub fn create(engine: Engine<C>, disk: D) -> Result<Self, CreateError<D>>
        requires { engine.events ≡ [] }
        ensures store { IfOk result (λ d. (d.store ≡ engine.store) × (d.names ≡ engine.names) × (d.events ≡ [])) }
        ensures empty { IfOk result (λ d. (d.end ≡ 0) × (d.acknowledged ≡ 0) × (d.stopped ≡ false)) }
        // Every image that a crash leaves from now on has no record.
        ensures images { IfOk result (λ d. (image : List ℕ) → D.may_leave d.disk image → HasFirst d.store d.events 0 image) }
        ensures sure { AreSure (D.tally disk).promise.writes 2 1 (D.tally disk) → IsOk result }
        ensures fails { Fails 2 (D.tally disk) → IsErr result }
        ensures counted { IfOk result (λ d. IsUpTo 2 1 (D.tally disk) (D.tally d.disk) × ((D.tally disk).made + 2 < 2 ^ 64 → (D.tally d.disk).made ≡ (D.tally disk).made + 2)) }
        ensures capacity { IfOk result (λ d. D.capacity d.disk ≡ D.capacity disk) }
        ensures back { (back : D) → IsErrOf result (CreateError.DiskFault back) → IsUpTo 2 1 (D.tally disk) (D.tally back) }
        ensures not_safe { (back : D) → IsErrOf result (CreateError.DiskFault back) → D.safe back ≡ D.safe disk }
        ensures cause { (back : D) → IsErrOf result (CreateError.DiskFault back) → Rose (D.faults disk) (D.faults back) }
        ensures no_memory { IsErrOf result CreateError.OutOfMemory → ⊥ }
    {
        match Journal::create(disk) {
            Ok(journal) => Ok(Durable { engine, journal }),
            Err(disk) => Err(CreateError::DiskFault(disk)),
        }
    }

    /// Answers a request as the engine does. A commit is on the disk before it is answered: every crash from then on leaves it.
    ///
    /// # Errors
    /// `Stopped` if the disk failed at an earlier commit; else `Full` if it has no room for the commit, or `OutOfMemory`. With
    /// each, nothing was asked and nothing changed. `DiskFault` if a call of the disk fails: the events have the commit, the
    /// disk may keep it or not, and the store is stopped.
    pub fn ask(
        &mut self,
        alloc: Global,
        session: Session,
        request: Request,
    ) -> Result<Reply, DurableError>
        ensures store { IsSameStore self.old self.new }
        ensures reply { IfOk result (λ reply. reply ≡ (answer self.old.store self.old.events session request).0) }
        ensures events { OnOk result (self.new.events ≡ (answer self.old.store self.old.events session request).1) }
        ensures acknowledged { Acknowledges self.old self.new result }

        // Every image that a crash leaves, during the call or after it, has the records of the first commits, at least of those
        // that were acknowledged before.
        ensures any_moment { LeavesOnly D.moment D.left_since self.old.disk self.new.disk (HasFirst self.new.store self.new.events self.old.acknowledged) }
        ensures images { (image : List ℕ) → D.may_leave self.new.disk image → HasFirst self.new.store self.new.events self.new.acknowledged image }

        // Nothing is asked of a store that is stopped, or that has no room. A fault occurs only at a commit.
        ensures goes_on { OnOk result (self.new.stopped ≡ false) }
        ensures refuses { RefusesOnly D.capacity self.old session request result }
        ensures not_asked { IfErr result (λ e. (e ≡ errors.DiskFault → ⊥) → self.new ≡ self.old) }
        ensures fault { IsErrOf result errors.DiskFault → FailsAtCommit D.safe D.faults self.old self.new session request }

        // A commit makes four calls of the disk, none of which runs out of memory. No other request makes a call.
        ensures calls { MakesCalls D.tally self.old self.new session request result }
        ensures memory { D.refusals self.new.disk ≡ D.refusals self.old.disk }
        ensures capacity { D.capacity self.new.disk ≡ D.capacity self.old.disk }
    {
        let (body, memory) = prepared(alloc, &mut self.engine, &self.journal, session, request)?;
        answered(
            &mut self.engine,
            &mut self.journal,
            session,
            request,
            memory,
            &body,
        )
    }

    /// Returns how many commits were answered.
    pub fn acknowledged(&self) -> u32
        ensures { result ≡ self.now.acknowledged }
    {
        self.journal.acknowledged()
    }

    /// Returns the engine. For every k, the rows after its first k commits are those of a whole serial execution.
    pub fn engine(&self) -> &Engine<C>
        ensures store { (result.now.store ≡ self.now.store) × (result.now.names ≡ self.now.names) }
        ensures events { result.now.events ≡ self.now.events }
        ensures serial { (k : ℕ) → IsOfSerialRun self.now.store self.now.events k }
    {
        // Its contract tells that the history is lawful, and that some requests lead to it: `serial` follows.
        let _ = self.engine.history();
        &self.engine
    }

    /// Returns the disk alone.
    pub fn into_disk(self) -> D
        ensures { result ≡ self.disk }
    {
        self.journal.into_disk()
    }
}

// Makes room for the answer to a request: the bytes of the record that it would commit, and memory to write them. Contracts see
// no change of the store.
fn prepared<C: Chains, D: Disk>(
    alloc: Global,
    engine: &mut Engine<C>,
    journal: &Journal<D>,
    session: Session,
    request: Request,
) -> Result<(Vec<u8>, Memory), DurableError>
    ensures same { kept_of engine.new journal.now ≡ kept_of engine.old journal.now }
    ensures ready { OnOk result (engine.new.ready ≡ true) }
    ensures body { IfOk result (λ p. IsBodyFor engine.old.store engine.old.events session request p.0.items) }
    ensures memory { IfOk result (λ p. Covers (D.spare_with journal.now.disk p.1) 4 (length p.0.items + 1) (journal.now.progress.end + 1 + length p.0.items)) }
    ensures fits { OnOk result (IsFull engine.old.events (room_of (D.capacity journal.now.disk) - journal.now.progress.end) session request → ⊥) }
    ensures full { IsErrOf result errors.Full → IsFull engine.old.events (room_of (D.capacity journal.now.disk) - journal.now.progress.end) session request }
    ensures runs { OnOk result (journal.now.stopped ≡ false) }
    ensures stopped { IsErrOf result errors.Stopped → journal.now.stopped ≡ true }
    ensures stays { journal.now.stopped ≡ true → IsErrOf result errors.Stopped }
    ensures no_fault { IsErrOf result errors.DiskFault → ⊥ }
{
    if journal.is_stopped() {
        return Err(DurableError::Stopped);
    }
    let body = body_of(alloc, engine, journal.left(), session, request)?;
    let memory = journal.reserve(alloc, body.len())?;
    engine.ready()?;
    Ok((body, memory))
}

// Answers a request with what was prepared for it. A commit is on the disk before it is answered.
fn answered<C: Chains, D: Disk>(
    engine: &mut Engine<C>,
    journal: &mut Journal<D>,
    session: Session,
    request: Request,
    memory: Memory,
    body: &[u8],
) -> Result<Reply, DurableError>
    requires ready { IsTrue engine.old.ready }
    requires runs { journal.old.stopped ≡ false }
    requires keeps { KeepsAll D.seen D.may_leave engine.old.store engine.old.events journal.old }
    requires body { IsBodyFor engine.old.store engine.old.events session request body.now }
    requires memory { Covers (D.spare_with journal.old.disk memory) 4 (length body.now + 1) (journal.old.progress.end + 1 + length body.now) }
    requires fits { IsFull engine.old.events (room_of (D.capacity journal.old.disk) - journal.old.progress.end) session request → ⊥ }
    ensures keeps { KeepsAll D.seen D.may_leave engine.new.store engine.new.events journal.new }
    ensures capacity { D.capacity journal.new.disk ≡ D.capacity journal.old.disk }
    ensures memory { D.refusals journal.new.disk ≡ D.refusals journal.old.disk }
    ensures answered { Answered D.moment D.left_since D.safe D.faults D.tally (kept_of engine.old journal.old) (kept_of engine.new journal.new) session request result }
{
    let reply = engine.ask(session, request);
    if reply != Reply::Committed {
        return Ok(reply);
    }
    match journal.append(memory, body) {
        Ok(()) => Ok(reply),
        Err(Failed) => Err(DurableError::DiskFault),
    }
}
