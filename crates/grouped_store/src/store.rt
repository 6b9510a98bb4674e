//! The two halves of a store, held together.

ghost use Rattle.std.specs.Prelude.{◌≡◌, ◌+◌, ◌-◌, [], Ok, length, true, false, IfOk, IfErr, OnOk, OnErr, IsErrOf, List, ℕ};
ghost use Rattle.teb_rules.specs.declared.names.Cell.{Cell as TheCell};
ghost use Rattle.teb_rules.specs.declared.names.Reply.TheVariants as replies;
ghost use Rattle.teb_rules.specs.Answer.{answer};
ghost use Rattle.teb_rules.specs.declared.history.Event.{Event};
ghost use Rattle.teb_rules.specs.Setup.{Store};
ghost use Rattle.teb_rules.specs.Told.{IsToldBy, events_after};
ghost use Rattle.store_setup.specs.SetupView.{setup_view};
ghost use Rattle.store_setup.specs.Sound.{IsWhole};
ghost use Rattle.tree_switch.specs.Starts.{IsStarted};
ghost use Rattle.crash_disk.specs.Disk.{LeavesOnly};
ghost use Rattle.commit_laws.specs.Commits.{commit_count};
ghost use Rattle.commit_journal.specs.Kept.{IsFull};
ghost use Rattle.epoch_journal.specs.Layout.{half_size};
ghost use Rattle.epoch_journal.specs.Refusals.{IsReliable};
ghost use Rattle.epoch_store.specs.Gathering.{size_of};
ghost use Rattle.epoch_store.specs.Told.{told};
ghost use Rattle.epoch_store.specs.declared.error.AskError.TheVariants as errors;
ghost use Rattle.engine_store.specs.Halves.{KeepsCommits};
ghost use Rattle.engine_store.specs.Next.{IsCause};
ghost use Rattle.engine_store.specs.Telling.{TellsCommits};
ghost use Rattle.engine_store.specs.declared.error.NextError.TheVariants as causes;

use core::mem::replace_with;
use crash_disk::{Disk, Renew};
use engine_core::Engine;
use engine_store::{AskError, EngineQueue, EngineStore, NextError, WriteError, write_commits};
use epoch_journal::EpochJournal;
use std::alloc::Global;
use std::marker::Model;
use store_setup::Setup;
use teb_rules::names::{Reply, Request, Session};
use version_chain::Chains;

/// A store whose commits are written one by one, or in groups. Contracts see the engine of the present epoch, the journal, the records of
/// the commits that wait, and how many bytes are left beside them.
#[derive(Drop)]
pub struct GroupedStore<C: Chains, D: Disk> {
    queue: EngineQueue<C>,
    journal: EpochJournal<D>,
}

impl<C: Chains, D: Disk> Model for GroupedStore<C, D> {
    ghost use Rattle.grouped_store.specs.Grouped.{Grouped, IsGrouped};

    ghost Value = { Grouped D };

    ghost view = { λ s. record { engine = s.queue.engine; journal = s.journal; waiting = s.queue.waiting; left = s.queue.left } };

    ghost invariant = { λ s. IsGrouped D.seen D.may_leave (record { engine = s.queue.engine; journal = s.journal; waiting = s.queue.waiting; left = s.queue.left }) };
}

impl<C: Chains, D: Disk> GroupedStore<C, D> {
    /// Returns a store of which no commit waits.
    pub fn of(alloc: Global, store: EngineStore<C, D>) -> GroupedStore<C, D>
        requires all { store.journal.stopped ≡ false → store.journal.acknowledged ≡ commit_count store.engine.events }
        ensures { (result.engine ≡ store.engine) × (result.journal ≡ store.journal) × (result.waiting ≡ []) }
    {
        let (queue, journal) = store.split(alloc);
        GroupedStore { queue, journal }
    }

    /// Answers a request as the engine does. A commit is on the disk before it is answered: from then on each crash leaves it.
    ///
    /// # Errors
    /// Those of `EngineStore::ask`.
    pub fn ask(
        &mut self,
        alloc: Global,
        session: Session,
        request: Request,
    ) -> Result<Reply, AskError>
        requires none { self.old.waiting ≡ [] }
        ensures reply { IsToldBy (told result) (answer self.old.engine.store self.old.engine.events session request).0 }
        ensures events { self.new.engine.events ≡ events_after (told result) self.old.engine.events (answer self.old.engine.store self.old.engine.events session request).1 }
        ensures store { self.new.engine.store ≡ self.old.engine.store }
        ensures names { self.new.engine.names ≡ self.old.engine.names }
        ensures none { self.new.waiting ≡ [] }

        // A crash at any moment of the call.
        ensures any_moment { LeavesOnly D.moment D.left_since self.old.journal.disk self.new.journal.disk
            (TellsCommits self.old.journal.layout self.new.engine.store self.new.engine.events self.old.journal.acknowledged) }
        // A crash after it.
        ensures images { (image : List ℕ) → D.may_leave self.new.journal.disk image
            → TellsCommits self.new.journal.layout self.new.engine.store self.new.engine.events self.new.journal.acknowledged image }

        ensures layout { self.new.journal.layout ≡ self.old.journal.layout }
        ensures all { self.new.journal.stopped ≡ false → self.new.journal.acknowledged ≡ commit_count self.new.engine.events }

        ensures stopped { IsErrOf result errors.Stopped → self.old.journal.stopped ≡ true }
        ensures full { IsErrOf result errors.Full → IsFull self.old.engine.events (half_size self.old.journal.layout.capacity - self.old.journal.end) session request }
        ensures not_asked { IfErr result (λ e. (e ≡ errors.Unsure → ⊥) → (self.new.engine ≡ self.old.engine) × (self.new.journal ≡ self.old.journal)) }

        ensures memory { D.refusals self.new.journal.disk ≡ D.refusals self.old.journal.disk }
        ensures sure { IsReliable D.tells_failures D.tally D.refusals self.old.journal.disk → IsErrOf result errors.Unsure → ⊥ }
        ensures promise { (D.tally self.new.journal.disk).promise ≡ (D.tally self.old.journal.disk).promise }
    {
        replace_with(self, (alloc, session, request), asked)
    }

    /// Answers a request as the engine does, and makes no call of the disk. A commit waits for `write`: until then a crash may lose it.
    ///
    /// # Errors
    /// `Stopped` if a call of the disk has failed; `Full` if the bytes that are left may not hold the commit; `OutOfMemory`. Nothing is
    /// asked, and nothing changes.
    pub fn ask_ahead(
        &mut self,
        alloc: Global,
        session: Session,
        request: Request,
    ) -> Result<Reply, AskError>
        ensures reply { IsToldBy (told result) (answer self.old.engine.store self.old.engine.events session request).0 }
        ensures events { self.new.engine.events ≡ events_after (told result) self.old.engine.events (answer self.old.engine.store self.old.engine.events session request).1 }
        ensures store { self.new.engine.store ≡ self.old.engine.store }
        ensures names { self.new.engine.names ≡ self.old.engine.names }
        ensures waits { IfOk result (λ reply. reply ≡ replies.Committed → length self.new.waiting ≡ length self.old.waiting + 1) }
        ensures others { IfOk result (λ reply. (reply ≡ replies.Committed → ⊥) → self.new.waiting ≡ self.old.waiting) }

        // The disk is not touched, and what it tells stays true.
        ensures untouched { self.new.journal ≡ self.old.journal }
        ensures still { (n : ℕ) (image : List ℕ) → TellsCommits self.old.journal.layout self.old.engine.store self.old.engine.events n image
            → TellsCommits self.old.journal.layout self.new.engine.store self.new.engine.events n image }
        ensures all { self.new.journal.stopped ≡ false → self.new.journal.acknowledged + length self.new.waiting ≡ commit_count self.new.engine.events }

        ensures stopped { IsErrOf result errors.Stopped → self.old.journal.stopped ≡ true }
        ensures stays { self.old.journal.stopped ≡ true → IsErrOf result errors.Stopped }
        ensures full { IsErrOf result errors.Full
            → IsFull self.old.engine.events (half_size self.old.journal.layout.capacity - (self.old.journal.end + size_of self.old.waiting)) session request }
        ensures sure { IsErrOf result errors.Unsure → ⊥ }
        ensures not_asked { OnErr result (self.new ≡ self.old) }
    {
        if self.journal.is_stopped() {
            return Err(AskError::Stopped);
        }
        self.queue.ask(alloc, session, request)
    }

    /// Writes all commits that wait, the oldest first. After `Ok` each crash leaves them. It makes four calls of the disk, two of them
    /// syncs, however many commits wait, and none if none waits.
    ///
    /// # Errors
    /// `Full`, `DiskFault` and `OutOfMemory`. The store is stopped, and a crash may leave some of the commits, the oldest first.
    pub fn write(&mut self, alloc: Global) -> Result<(), WriteError>
        requires running { self.old.journal.stopped ≡ false }
        ensures engine { self.new.engine ≡ self.old.engine }
        ensures none { self.new.waiting ≡ [] }
        ensures layout { self.new.journal.layout ≡ self.old.journal.layout }

        // A crash at any moment of the call.
        ensures any_moment { LeavesOnly D.moment D.left_since self.old.journal.disk self.new.journal.disk
            (TellsCommits self.old.journal.layout self.old.engine.store self.old.engine.events self.old.journal.acknowledged) }
        // A crash after it.
        ensures images { (image : List ℕ) → D.may_leave self.new.journal.disk image
            → TellsCommits self.new.journal.layout self.new.engine.store self.new.engine.events self.new.journal.acknowledged image }

        ensures acknowledged { OnOk result ((self.new.journal.stopped ≡ false) × (self.new.journal.acknowledged ≡ self.old.journal.acknowledged + length self.old.waiting)) }
        ensures failed { OnErr result ((self.new.journal.stopped ≡ true) × (self.new.journal.acknowledged ≡ self.old.journal.acknowledged)) }
        ensures all { self.new.journal.stopped ≡ false → self.new.journal.acknowledged ≡ commit_count self.new.engine.events }
        ensures untouched { self.old.waiting ≡ [] → (self.new.journal ≡ self.old.journal) × (result ≡ Ok tt) }
        ensures memory { D.refusals self.new.journal.disk ≡ D.refusals self.old.journal.disk }
        ensures promise { (D.tally self.new.journal.disk).promise ≡ (D.tally self.old.journal.disk).promise }
    {
        let group = self.queue.take(alloc);
        write_commits(alloc, &mut self.journal, &group)
    }

    /// Ends the present epoch, and begins the next one, as `EngineStore::begin_epoch` does.
    ///
    /// # Errors
    /// Those of `EngineStore::begin_epoch`. The store is as it was, except for `DiskFault`, after which it is stopped.
    pub fn begin_epoch(&mut self, alloc: Global, setup: Setup, chains: C) -> Result<(), NextError>
        requires none { self.old.waiting ≡ [] }
        requires setup { IsWhole (setup_view setup) }
        requires chains { (x : TheCell) → C.lists chains x ≡ [] }
        ensures refused { IfErr result (IsCause self.old.journal.layout self.old.engine setup.names.tables) }
        ensures begun { OnOk result (IsStarted setup self.old.engine self.new.engine) }
        ensures running { OnOk result ((self.new.journal.acknowledged ≡ 0) × (self.new.journal.stopped ≡ false)) }
        ensures kept { IfErr result (λ why. (why ≡ causes.DiskFault → ⊥) → (self.new.engine ≡ self.old.engine) × (self.new.journal ≡ self.old.journal)) }
        ensures stopped { IsErrOf result causes.Stopped → self.old.journal.stopped ≡ true }
        ensures layout { self.new.journal.layout ≡ self.old.journal.layout }
        ensures none { self.new.waiting ≡ [] }
        ensures memory { D.refusals self.new.journal.disk ≡ D.refusals self.old.journal.disk }
        ensures sure { IsReliable D.tells_failures D.tally D.refusals self.old.journal.disk → IsErrOf result causes.DiskFault → ⊥ }
        ensures promise { (D.tally self.new.journal.disk).promise ≡ (D.tally self.old.journal.disk).promise }

        // A crash at any moment of the call, if the next epoch begins.
        ensures any_moment_next { OnOk result (LeavesOnly D.moment D.left_since self.old.journal.disk self.new.journal.disk
            (TellsCommits self.new.journal.layout self.new.engine.store self.new.engine.events 0)) }
        // A crash after it.
        ensures images { (image : List ℕ) → D.may_leave self.new.journal.disk image
            → TellsCommits self.new.journal.layout self.new.engine.store self.new.engine.events self.new.journal.acknowledged image }
    {
        replace_with(self, (alloc, setup, chains), begun)
    }

    /// Returns the engine of the present epoch.
    pub fn engine(&self) -> &Engine<C>
        ensures { result.now ≡ self.now.engine }
    {
        self.queue.engine()
    }

    /// Returns the number of commits that wait.
    pub fn waiting(&self) -> usize
        ensures { result ≡ length self.now.waiting }
    {
        self.queue.waiting()
    }

    /// True if a call of the disk has failed. Nothing is asked then.
    pub fn is_stopped(&self) -> bool
        ensures { result ≡ self.now.journal.stopped }
    {
        self.journal.is_stopped()
    }

    /// Returns the number of commits of this epoch that were written.
    pub fn acknowledged(&self) -> u64
        ensures { result ≡ self.now.journal.acknowledged }
    {
        self.journal.acknowledged()
    }

    /// Returns the number of bytes that are left for the commits of this epoch, those that wait among them.
    pub fn left(&self) -> u64
        ensures { result + self.now.journal.end ≡ half_size self.now.journal.layout.capacity }
    {
        self.journal.left()
    }

    /// Returns the disk. A crash leaves the rows after the first commits of it, at least those that were written.
    pub fn disk(&self) -> &D
        ensures disk { result.now ≡ self.now.journal.disk }
        ensures images { (image : List ℕ) → D.may_leave self.now.journal.disk image
            → TellsCommits self.now.journal.layout self.now.engine.store self.now.engine.events self.now.journal.acknowledged image }
    {
        self.journal.disk()
    }
}

impl<C: Chains, D: Renew> GroupedStore<C, D> {
    /// Renews the disk, which then has freed the memory that its past calls took. It makes no call of the device, and the commits that wait
    /// still wait. If the store is stopped, or out of memory, nothing changes.
    pub fn renew(&mut self, alloc: Global)
        ensures engine { self.new.engine ≡ self.old.engine }
        ensures waiting { self.new.waiting ≡ self.old.waiting }
        ensures left { self.new.left ≡ self.old.left }
        ensures same { (self.new.journal.layout ≡ self.old.journal.layout) × (self.new.journal.acknowledged ≡ self.old.journal.acknowledged)
            × (self.new.journal.stopped ≡ self.old.journal.stopped) }
        ensures seen { D.seen self.new.journal.disk ≡ D.seen self.old.journal.disk }
        ensures stop { (D.tally self.new.journal.disk).promise.stop ≡ (D.tally self.old.journal.disk).promise.stop }
        ensures refusals { D.refusals self.new.journal.disk ≡ D.refusals self.old.journal.disk }
        // A crash after it.
        ensures images { (image : List ℕ) → D.may_leave self.new.journal.disk image
            → TellsCommits self.new.journal.layout self.new.engine.store self.new.engine.events self.new.journal.acknowledged image }
    {
        replace_with(&mut self.journal, alloc, renewed)
    }
}

/// Joins the halves of a store, asks it, and splits it again.
fn asked<C: Chains, D: Disk>(
    store: GroupedStore<C, D>,
    asking: (Global, Session, Request),
) -> (GroupedStore<C, D>, Result<Reply, AskError>)
    requires none { store.waiting ≡ [] }
    ensures reply { IsToldBy (told result.1) (answer store.engine.store store.engine.events asking.1 asking.2).0 }
    ensures events { result.0.engine.events ≡ events_after (told result.1) store.engine.events (answer store.engine.store store.engine.events asking.1 asking.2).1 }
    ensures store { result.0.engine.store ≡ store.engine.store }
    ensures names { result.0.engine.names ≡ store.engine.names }
    ensures none { result.0.waiting ≡ [] }
    ensures any_moment { LeavesOnly D.moment D.left_since store.journal.disk result.0.journal.disk
        (TellsCommits store.journal.layout result.0.engine.store result.0.engine.events store.journal.acknowledged) }
    ensures images { (image : List ℕ) → D.may_leave result.0.journal.disk image
        → TellsCommits result.0.journal.layout result.0.engine.store result.0.engine.events result.0.journal.acknowledged image }
    ensures layout { result.0.journal.layout ≡ store.journal.layout }
    ensures all { result.0.journal.stopped ≡ false → result.0.journal.acknowledged ≡ commit_count result.0.engine.events }
    ensures stopped { IsErrOf result.1 errors.Stopped → store.journal.stopped ≡ true }
    ensures full { IsErrOf result.1 errors.Full → IsFull store.engine.events (half_size store.journal.layout.capacity - store.journal.end) asking.1 asking.2 }
    ensures not_asked { IfErr result.1 (λ e. (e ≡ errors.Unsure → ⊥) → (result.0.engine ≡ store.engine) × (result.0.journal ≡ store.journal)) }
    ensures memory { D.refusals result.0.journal.disk ≡ D.refusals store.journal.disk }
    ensures sure { IsReliable D.tells_failures D.tally D.refusals store.journal.disk → IsErrOf result.1 errors.Unsure → ⊥ }
    ensures promise { (D.tally result.0.journal.disk).promise ≡ (D.tally store.journal.disk).promise }
{
    let (alloc, session, request) = asking;
    let GroupedStore { queue, journal } = store;
    let mut whole = EngineStore::join(queue, journal);
    let answered = whole.ask(alloc, session, request);
    (GroupedStore::of(alloc, whole), answered)
}

/// Joins the halves of a store, begins its next epoch, and splits it again.
fn begun<C: Chains, D: Disk>(
    store: GroupedStore<C, D>,
    next: (Global, Setup, C),
) -> (GroupedStore<C, D>, Result<(), NextError>)
    requires none { store.waiting ≡ [] }
    requires setup { IsWhole (setup_view next.1) }
    requires chains { (x : TheCell) → C.lists next.2 x ≡ [] }
    ensures refused { IfErr result.1 (IsCause store.journal.layout store.engine next.1.names.tables) }
    ensures begun { OnOk result.1 (IsStarted next.1 store.engine result.0.engine) }
    ensures running { OnOk result.1 ((result.0.journal.acknowledged ≡ 0) × (result.0.journal.stopped ≡ false)) }
    ensures kept { IfErr result.1 (λ why. (why ≡ causes.DiskFault → ⊥) → (result.0.engine ≡ store.engine) × (result.0.journal ≡ store.journal)) }
    ensures stopped { IsErrOf result.1 causes.Stopped → store.journal.stopped ≡ true }
    ensures layout { result.0.journal.layout ≡ store.journal.layout }
    ensures none { result.0.waiting ≡ [] }
    ensures memory { D.refusals result.0.journal.disk ≡ D.refusals store.journal.disk }
    ensures sure { IsReliable D.tells_failures D.tally D.refusals store.journal.disk → IsErrOf result.1 causes.DiskFault → ⊥ }
    ensures promise { (D.tally result.0.journal.disk).promise ≡ (D.tally store.journal.disk).promise }
    ensures any_moment_next { OnOk result.1 (LeavesOnly D.moment D.left_since store.journal.disk result.0.journal.disk
        (TellsCommits result.0.journal.layout result.0.engine.store result.0.engine.events 0)) }
    ensures images { (image : List ℕ) → D.may_leave result.0.journal.disk image
        → TellsCommits result.0.journal.layout result.0.engine.store result.0.engine.events result.0.journal.acknowledged image }
{
    let (alloc, setup, chains) = next;
    let GroupedStore { queue, journal } = store;
    let mut whole = EngineStore::join(queue, journal);
    let begun = whole.begin_epoch(alloc, setup, chains);
    let store = GroupedStore::of(alloc, whole);
    match begun {
        Ok(_past) => (store, Ok(())),
        Err(why) => (store, Err(why)),
    }
}

/// Returns the same journal on a renewed disk, or as it is if it is stopped or that is out of memory.
fn renewed<D: Renew>(journal: EpochJournal<D>, alloc: Global) -> (EpochJournal<D>, ())
    ensures kept { (X : Store) (H : List Event) (n : ℕ) → KeepsCommits D.seen D.may_leave X H n journal → KeepsCommits D.seen D.may_leave X H n result.0 }
    ensures same { (result.0.layout ≡ journal.layout) × (result.0.acknowledged ≡ journal.acknowledged) × (result.0.stopped ≡ journal.stopped)
        × (result.0.end ≡ journal.end) }
    ensures seen { D.seen result.0.disk ≡ D.seen journal.disk }
    ensures stop { (D.tally result.0.disk).promise.stop ≡ (D.tally journal.disk).promise.stop }
    ensures refusals { D.refusals result.0.disk ≡ D.refusals journal.disk }
{
    match journal.renew(alloc) {
        Ok(journal) => (journal, ()),
        Err(journal) => (journal, ()),
    }
}
