//! A store in a file that its caller reads and writes.

ghost use Rattle.std.specs.Prelude.{◌≡◌, ◌⊎◌, ◌<◌, ◌+◌, ◌||◌, [], true, false, length, slice_get, Some, MatchOption, IfOk, IfErr, OnOk, OnErr, IsErrOf};
ghost use Rattle.teb_rules.specs.Answer.{answer};
ghost use Rattle.crash_disk.specs.Log.{contents, step_of};
ghost use Rattle.epoch_journal.specs.Layout.{half_size};
ghost use Rattle.epoch_store.specs.Told.{told};
ghost use Rattle.teb_rules.specs.Told.{IsToldBy, events_after};
ghost use Rattle.epoch_store.specs.declared.error.AskError.TheVariants as asked;
ghost use Rattle.engine_store.specs.declared.error.NextError.TheVariants as next;
ghost use Rattle.store_setup.specs.SetupView.{setup_view};
ghost use Rattle.store_setup.specs.Sound.{IsWhole};
ghost use Rattle.tree_switch.specs.Starts.{IsStarted};
ghost use Rattle.engine_store.specs.Next.{IsCause};
ghost use Rattle.tebaldi_c.specs.Hindered.{HasWaiting, IsFullFor, IsStopped};
ghost use Rattle.tebaldi_c.specs.Ahead.{IsAhead, IsWritten};
ghost use Rattle.commit_laws.specs.Commits.{commit_count};
ghost use Rattle.tebaldi_c.specs.Shelves.{IsIdle, IsShown, calls, next_place};

use chain_pool::PooledChains;
use crash_disk::{Call, MemDisk};
use engine_core::Engine;
use engine_store::{AskError, NextError, WriteError};
use grouped_store::GroupedStore;
use std::alloc::Global;
use std::marker::Model;
use store_setup::Setup;
use teb_rules::names::{Reply, Request, Session};

/// How many calls the disk in memory notes before it forgets them: those of the commits of one epoch.
const MOST_CALLS: usize = 32_768;

/// How many bytes it notes before it forgets them, beside twice as many as the file had when it forgot them last. So the copies of the
/// file's bytes that forgetting takes are fewer than the bytes that are noted.
const MOST_BYTES: usize = 4_194_304;

/// A store in a file. It makes no call of the system: its disk in memory notes the writes and syncs, the caller performs them on the file
/// in their order, and tells of each.
///
/// The disk in memory does not fail: it has no stop, and memory for the calls of a commit or a checkpoint is reserved before the first of
/// them (`EngineStore`, clause `sure`). So `ask` does not return `Unsure`, nor `next_epoch` `DiskFault`.
#[derive(Drop)]
pub struct FileStore {
    pub(crate) store: GroupedStore<PooledChains, MemDisk>,
    pub(crate) waiting: usize,
    pub(crate) opened: bool,
    pub(crate) kept: u64,
    pub(crate) failed: bool,
    // How many bytes the disk in memory had noted when it forgot its calls last, or at the opening.
    pub(crate) noted: usize,
}

impl Model for FileStore {
    ghost use Rattle.tebaldi_c.specs.Shelves.{Filed, KeepsFile};

    ghost Value = { Filed };

    ghost view = { λ f. record {
      engine = f.store.engine;
      file = record { journal = f.store.journal; gathered = f.store.waiting; waiting = f.waiting; opened = f.opened; kept = f.kept; failed = f.failed };
    } };

    ghost invariant = { λ f. KeepsFile f.store.engine (record { journal = f.store.journal; gathered = f.store.waiting; waiting = f.waiting; opened = f.opened; kept = f.kept; failed = f.failed }) };
}

impl FileStore {
    /// Returns the engine of the present epoch.
    pub fn engine(&self) -> &Engine<PooledChains>
        ensures { result.now ≡ self.now.engine }
    {
        self.store.engine()
    }

    /// Returns the number of calls that wait to be performed on the file.
    pub fn waiting(&self) -> usize
        ensures { result ≡ self.now.file.waiting }
    {
        self.waiting
    }

    /// True if no commit waits for its calls, and no call to be performed.
    pub fn is_idle(&self) -> bool
        ensures idle { result ≡ true → IsIdle self.now.file }
        ensures busy { result ≡ false → HasWaiting self.now }
    {
        self.waiting == 0 && self.store.waiting() == 0
    }

    /// Returns the number of commits of this epoch that are in the file: a crash now leaves the rows after at least that many.
    pub fn kept(&self) -> u64
        ensures { result ≡ self.now.file.kept }
    {
        self.kept
    }

    /// True if a call on the file has failed, or the store has stopped. Nothing is asked then.
    pub fn is_stopped(&self) -> bool
        ensures { result ≡ self.now.file.failed || self.now.file.journal.stopped }
    {
        self.failed || self.store.is_stopped()
    }

    /// Returns the number of bytes that are left for the commits of this epoch.
    pub fn left(&self) -> u64
        ensures { result + self.now.file.journal.end ≡ half_size self.now.file.journal.layout.capacity }
    {
        self.store.left()
    }

    /// Returns the first call that waits, with the bytes to write; a sync has none. `None` if none waits.
    pub fn call(&self) -> Option<(Call, &[u8])>
        ensures { MatchOption result (self.now.file.waiting ≡ 0) (λ r. slice_get (calls self.now.file) (next_place self.now.file) ≡ Some (step_of r.0 r.1.now)) }
    {
        let disk = self.store.disk();
        match disk.call(disk.call_count() - self.waiting) {
            None => None,
            Some(call) => Some(call),
        }
    }

    /// Notes that the first call that waits was performed on the file. After the last one, all commits but those that wait
    /// for their calls are in the file.
    pub fn performed(&mut self)
        requires { 0 < self.old.file.waiting }
        ensures engine { self.new.engine ≡ self.old.engine }
        ensures journal { self.new.file.journal ≡ self.old.file.journal }
        ensures gathered { self.new.file.gathered ≡ self.old.file.gathered }
        ensures waiting { self.new.file.waiting + 1 ≡ self.old.file.waiting }
        ensures kept { 0 < self.new.file.waiting → self.new.file.kept ≡ self.old.file.kept }
        ensures failed { self.new.file.failed ≡ self.old.file.failed }
        ensures opened { self.old.file.opened ≡ true → self.new.file.opened ≡ true }
    {
        let _ = self.store.disk();
        let kept = self.store.acknowledged();
        let waiting = self.waiting - 1;
        if waiting > 0 {
            self.waiting = waiting;
            return;
        }
        self.waiting = 0;
        self.opened = true;
        self.kept = kept;
    }

    /// Notes that a call on the file has failed. Nothing is asked from then on.
    pub fn fail(&mut self)
        ensures engine { self.new.engine ≡ self.old.engine }
        ensures file { self.new.file ≡ record self.old.file { failed = true } }
    {
        self.failed = true;
    }

    /// Answers a request as the engine does. The calls that put a commit into the file wait then, and until they are performed the commit
    /// is to be told to nobody. If it makes no call, it forgets the calls that were performed, once they are too many.
    ///
    /// # Errors
    /// Those of `EngineStore::ask` but `Unsure`; `Stopped` also if a call on the file has failed. The store is as it was.
    pub fn ask(
        &mut self,
        alloc: Global,
        session: Session,
        request: Request,
    ) -> Result<Reply, AskError>
        requires idle { IsIdle self.old.file }
        ensures reply { IsToldBy (told result) (answer self.old.engine.store self.old.engine.events session request).0 }
        ensures events { self.new.engine.events ≡ events_after (told result) self.old.engine.events (answer self.old.engine.store self.old.engine.events session request).1 }
        ensures store { self.new.engine.store ≡ self.old.engine.store }
        ensures names { self.new.engine.names ≡ self.old.engine.names }
        ensures kept { 0 < self.new.file.waiting → self.new.file.kept ≡ self.old.file.kept }
        ensures gathered { self.new.file.gathered ≡ self.old.file.gathered }
        ensures opened { self.new.file.opened ≡ self.old.file.opened }
        ensures shown { OnOk result (IsShown self.old.file self.new.file) }
        ensures not_asked { OnErr result (self.new ≡ self.old) }
        ensures failed { self.new.file.failed ≡ self.old.file.failed }
        ensures stopped { self.old.file.failed ≡ true → IfOk result (λ _. ⊥) }
        ensures refused { IsErrOf result asked.Stopped → IsStopped self.old }
        ensures full { IsErrOf result asked.Full → IsFullFor session.0 request self.old }
        ensures sure { IsErrOf result asked.Unsure → ⊥ }
    {
        if self.failed {
            return Err(AskError::Stopped);
        }
        let before = self.store.disk().call_count();
        let reply = match self.store.ask(alloc, session, request) {
            Ok(reply) => reply,
            Err(AskError::Unsure) => unreachable!(),
            Err(why) => return Err(why),
        };
        let waiting = self.store.disk().call_count() - before;
        if waiting > 0 {
            self.waiting = waiting;
            return Ok(reply);
        }
        self.kept = self.store.acknowledged();
        self.forget_calls(alloc);
        Ok(reply)
    }

    /// True if there are more than `MOST_CALLS` calls, or they have too many bytes.
    fn notes_too_much(&self) -> bool {
        let disk = self.store.disk();
        let more = disk.byte_count().saturating_sub(self.noted);
        disk.call_count() > MOST_CALLS || more > self.noted.saturating_add(MOST_BYTES)
    }

    /// Answers a request as the engine does, also while calls wait. A commit then waits for `write`, and is to be told to nobody until the
    /// file keeps it. It makes no call. If none waits, it forgets the calls that were performed, once they are too many.
    ///
    /// # Errors
    /// `Stopped` if a call on the file has failed, `Full` if the rest of the epoch's part of the file may not hold the commit beside those
    /// that wait, `OutOfMemory`. The store is as it was.
    pub fn ask_ahead(
        &mut self,
        alloc: Global,
        session: Session,
        request: Request,
    ) -> Result<Reply, AskError>
        ensures reply { IsToldBy (told result) (answer self.old.engine.store self.old.engine.events session request).0 }
        ensures events { self.new.engine.events ≡ events_after (told result) self.old.engine.events (answer self.old.engine.store self.old.engine.events session request).1 }
        ensures store { self.new.engine.store ≡ self.old.engine.store }
        ensures names { self.new.engine.names ≡ self.old.engine.names }
        ensures file { IsAhead self.old.file self.new.file }
        ensures not_asked { OnErr result (self.new ≡ self.old) }
        ensures stopped { self.old.file.failed ≡ true → IfOk result (λ _. ⊥) }
        ensures refused { IsErrOf result asked.Stopped → IsStopped self.old }
        ensures full { IsErrOf result asked.Full → IsFullFor session.0 request self.old }
        ensures sure { IsErrOf result asked.Unsure → ⊥ }
    {
        if self.failed {
            return Err(AskError::Stopped);
        }
        let reply = match self.store.ask_ahead(alloc, session, request) {
            Ok(reply) => reply,
            Err(error) => return Err(error),
        };
        if self.waiting == 0 {
            self.forget_calls(alloc);
        }
        Ok(reply)
    }

    /// Returns how many commits this epoch has, those that wait among them.
    pub fn commits(&self) -> u64
        ensures { self.now.file.journal.stopped ≡ false → result ≡ commit_count self.now.engine.events }
    {
        // There are no more commits than events.
        let _ = self.engine().history().len();
        self.store
            .acknowledged()
            .saturating_add(self.store.waiting() as u64)
    }

    /// Makes the calls that put all commits that wait into the file: two writes and two syncs, however many they are, and none if none
    /// waits. They wait then to be performed.
    ///
    /// # Errors
    /// `OutOfMemory`, and any other error of the disk in memory: the store has stopped, and its file may keep some of the commits.
    pub fn write(&mut self, alloc: Global) -> Result<(), WriteError>
        requires no_call { self.old.file.waiting ≡ 0 }
        requires running { IsStopped self.old → ⊥ }
        ensures engine { self.new.engine ≡ self.old.engine }
        ensures written { OnOk result (IsWritten self.old.file self.new.file) }
        ensures failed { self.new.file.failed ≡ self.old.file.failed }
        ensures stopped { OnErr result (self.new.file.journal.stopped ≡ true) }
    {
        let before = self.store.disk().call_count();
        let written = self.store.write(alloc);
        self.waiting = self.store.disk().call_count() - before;
        if self.waiting == 0 {
            self.kept = self.store.acknowledged();
        }
        written
    }

    /// Forgets the calls that were performed, if they are too many, and frees the memory that they take. If that is out of memory, they
    /// are kept.
    fn forget_calls(&mut self, alloc: Global)
        requires settled { self.old.file.waiting ≡ 0 }
        ensures engine { self.new.engine ≡ self.old.engine }
        ensures gathered { self.new.file.gathered ≡ self.old.file.gathered }
        ensures waiting { self.new.file.waiting ≡ 0 }
        ensures kept { self.new.file.kept ≡ self.old.file.kept }
        ensures failed { self.new.file.failed ≡ self.old.file.failed }
        ensures opened { self.new.file.opened ≡ self.old.file.opened }
        ensures stopped { self.new.file.journal.stopped ≡ self.old.file.journal.stopped }
        ensures bytes { contents (calls self.new.file) ≡ contents (calls self.old.file) }
    {
        if self.notes_too_much() {
            self.store.renew(alloc);
            self.noted = self.store.disk().byte_count();
        }
    }

    /// Ends the present epoch, and begins the next one. The calls that put its rows into the file wait then.
    ///
    /// # Errors
    /// Those of `EngineStore::begin_epoch` but `DiskFault`; `Stopped` also if a call on the file has failed. The store is as it was.
    pub fn next_epoch(&mut self, alloc: Global, setup: Setup) -> Result<(), NextError>
        requires idle { IsIdle self.old.file }
        requires whole { IsWhole (setup_view setup) }
        ensures begun { OnOk result (IsStarted setup self.old.engine self.new.engine) }
        ensures refused { IfErr result (IsCause self.old.file.journal.layout self.old.engine setup.names.tables) }
        ensures shown { OnOk result (IsShown self.old.file self.new.file) }
        ensures halted { IsErrOf result next.Stopped → IsStopped self.old }
        ensures stays { OnErr result (self.new ≡ self.old) }
        ensures sure { IsErrOf result next.DiskFault → ⊥ }
        ensures failed { self.new.file.failed ≡ self.old.file.failed }
        ensures stopped { self.old.file.failed ≡ true → IfOk result (λ _. ⊥) }
    {
        if self.failed {
            return Err(NextError::Stopped);
        }
        let before = self.store.disk().call_count();
        match self
            .store
            .begin_epoch(alloc, setup, PooledChains::new(alloc))
        {
            Ok(()) => {
                let kept = self.store.acknowledged();
                self.waiting = self.store.disk().call_count() - before;
                self.kept = kept;
                Ok(())
            }
            Err(NextError::DiskFault) => unreachable!(),
            Err(why) => Err(why),
        }
    }
}
