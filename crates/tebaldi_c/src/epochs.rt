//! How a store goes on.

ghost use Rattle.std.specs.Prelude.{◌≡◌, ◌≢◌, ◌↔◌, ◌⊎◌, true, None, IsNone, IfOk, IfErr, OnOk};
ghost use Rattle.store_setup.specs.SetupView.{setup_view};
ghost use Rattle.store_setup.specs.Sound.{IsWhole, IsNamed, HasNames};
ghost use Rattle.teb_rules.specs.Epochs.{IsDrained};
ghost use Rattle.tree_toml.specs.SetupText.{setup_of_text};
ghost use Rattle.tree_switch.specs.Starts.{IsStarted};
ghost use Rattle.tebaldi_c.specs.Asking.{HasFailed, IfBothFiles, IfFiles, IfOpen, IsFailed, IsInMemory, IsSettled};
ghost use Rattle.tebaldi_c.specs.Buffers.{IsTold};
ghost use Rattle.tebaldi_c.specs.Epochs.{HasOtherTables, IfBoth, IsFirstUnfinished, IsFirstUntold, IsHindrance, IsNext, IsNextOf, IsOfEpoch, IsOfMemoryEpoch, IsOfMemoryNext, IsOfNext};
ghost use Rattle.tebaldi_c.specs.Hindered.{HasNoRoomForRows, HasWaiting, IsOnlyWaiting, IsStopped};
ghost use Rattle.tebaldi_c.specs.Images.{IfFiled};
ghost use Rattle.tebaldi_c.specs.Opening.{fault_line};
ghost use Rattle.tebaldi_c.specs.SetUp.{IsSetUp};
ghost use Rattle.tebaldi_c.specs.Shelves.{IsIdle, IsShown};

use crate::contents::Contents;
use crate::filed::FileStore;
use crate::opening::tell;
use crate::shelf::Shelf;
use crate::status::{
    BAD_TREE, NO_ROOM, NOT_OPEN, OK, OTHER_TABLES, OUT_OF_MEMORY, STOPPED, UNFINISHED, UNTOLD,
    WAITING,
};
use crate::store::StoreHandle;
use chain_pool::PooledChains;
use engine_core::Engine;
use engine_store::NextError;
use std::alloc::Global;
use store_setup::Setup;
use tree_switch::{SwitchError, check, start, with_rows};
use tree_toml::read_tree;

/// Ends the present epoch of a store, and begins the next one with the rows that it leaves, under a tree text with the same tables. The
/// rows of the text are not used. The history begins anew, and transactions count from 1 again. The calls that put the rows into a store's
/// file wait then, and the caller performs them before it asks anything.
///
/// # Errors
/// `NOT_OPEN`. `BAD_TREE` as in `tebaldi_open`. `UNFINISHED` if a transaction is unfinished; else `UNTOLD` if a session was not told of
/// the abort of its transaction: `who` is the first of them. `OTHER_TABLES`. `OUT_OF_MEMORY`.
/// Of a store in a file also `WAITING`, `STOPPED` if a call on the file has failed, and `NO_ROOM` if the rows do not fit the file. At each of
/// them the store is unchanged.
#[unsafe(no_mangle)]
pub extern "C" fn tebaldi_next_epoch(
    alloc: Global,
    store: &mut StoreHandle,
    tree: &[u8],
    fault: &mut [u8],
    fault_len: &mut usize,
    who: &mut u32,
) -> u32
    ensures ok { result ≡ OK → IfBoth store.old.held.value store.new.held.value (IsNextOf (setup_of_text tree.now)) }
    ensures stays { result ≢ OK → store.new.held.value ≡ store.old.held.value }
    ensures in_memory { IsInMemory store.old.held.value → IsOfMemoryEpoch result }
    ensures stays_in_memory { IsInMemory store.old.held.value ↔ IsInMemory store.new.held.value }
    ensures failed { HasFailed store.old.held.value → result ≢ OK }
    ensures not_open { result ≡ NOT_OPEN ↔ IsNone store.old.held.value }
    ensures bad_tree { result ≡ BAD_TREE → IsTold (fault_line (setup_of_text tree.now)) fault.old fault.new fault_len.new }
    ensures no_fault { result ≢ BAD_TREE → (fault.new ≡ fault.old) × (fault_len.new ≡ fault_len.old) }
    ensures unfinished { result ≡ UNFINISHED → IfOpen store.old.held.value (λ s. IsFirstUnfinished s.engine who.new) }
    ensures untold { result ≡ UNTOLD → IfOpen store.old.held.value (λ s. IsFirstUntold s.engine who.new) }
    ensures nobody { result ≢ UNFINISHED → result ≢ UNTOLD → who.new ≡ who.old }
    ensures other_tables { result ≡ OTHER_TABLES → IfOpen store.old.held.value (λ s. HasOtherTables (setup_of_text tree.now) s.engine) }
    ensures drained { IsInMemory store.old.held.value → result ≡ OK → IfOpen store.old.held.value (λ s. IsDrained s.engine.events) }
    ensures drained_tables { result ≡ OTHER_TABLES → IfOpen store.old.held.value (λ s. IsDrained s.engine.events) }
    ensures waiting { result ≡ WAITING → IfOpen store.old.held.value (λ s. IfFiled s HasWaiting) }
    ensures waits { result ≢ BAD_TREE → result ≢ OUT_OF_MEMORY → IfOpen store.old.held.value (λ s. IfFiled s IsOnlyWaiting) → result ≡ WAITING }
    ensures halts { result ≢ BAD_TREE → result ≢ OUT_OF_MEMORY → IfOpen store.old.held.value (λ s. IfFiled s IsStopped) → result ≡ STOPPED }
    ensures settled { result ≡ OK → IfOpen store.old.held.value (λ s. IsSettled s.file) }
    ensures shown { result ≡ OK → IfBothFiles IsShown store.old.held.value store.new.held.value }
    ensures no_room { result ≡ NO_ROOM → IfOpen store.old.held.value (λ s. IfFiled s HasNoRoomForRows) }
    ensures stopped { result ≡ STOPPED → IfOpen store.old.held.value (λ s. IfFiled s IsStopped) }
    ensures other { IsOfEpoch result }
{
    let Some(mut shelf) = store.take(alloc) else {
        return NOT_OPEN;
    };
    let status = match read_tree(alloc, tree) {
        Err(why) => tell(alloc, &why, fault, fault_len),
        Ok(setup) => shelf.end_epoch(alloc, setup, who),
    };
    store.put(shelf);
    status
}

impl Shelf {
    /// Begins the next epoch. Returns the status, and tells who hinders it.
    #[tactic(auto, using(crate::proofs::SetUps::set_up_next))]
    fn end_epoch(&mut self, alloc: Global, setup: Setup, who: &mut u32) -> u32
        requires whole { IsWhole (setup_view setup) }
        requires nodes { IsNamed (setup_view setup) }
        requires names { HasNames (setup_view setup) }
        ensures ok { result ≡ OK → IsNext (setup_view setup) self.old.engine self.new.engine }
        ensures stays { result ≢ OK → self.new ≡ self.old }
        ensures in_memory { self.old.file ≡ None → (result ≡ OK) ⊎ IsOfMemoryNext result }
        ensures stays_in_memory { (self.old.file ≡ None) ↔ (self.new.file ≡ None) }
        ensures failed { IsFailed self.old.file → result ≢ OK }
        ensures unfinished { result ≡ UNFINISHED → IsFirstUnfinished self.old.engine who.new }
        ensures untold { result ≡ UNTOLD → IsFirstUntold self.old.engine who.new }
        ensures nobody { result ≢ UNFINISHED → result ≢ UNTOLD → who.new ≡ who.old }
        ensures other_tables { result ≡ OTHER_TABLES → setup.names.tables ≢ self.old.engine.names.tables }
        ensures drained { self.old.file ≡ None → result ≡ OK → IsDrained self.old.engine.events }
        ensures drained_tables { result ≡ OTHER_TABLES → IsDrained self.old.engine.events }
        ensures waiting { result ≡ WAITING → IfFiled self.old HasWaiting }
        ensures waits { IfFiled self.old IsOnlyWaiting → result ≡ WAITING }
        ensures halts { IfFiled self.old IsStopped → result ≡ STOPPED }
        ensures settled { result ≡ OK → IsSettled self.old.file }
        ensures shown { result ≡ OK → IfFiles IsShown self.old.file self.new.file }
        ensures no_room { result ≡ NO_ROOM → IfFiled self.old HasNoRoomForRows }
        ensures stopped { result ≡ STOPPED → IfFiled self.old IsStopped }
        ensures status { (result ≡ OK) ⊎ IsOfNext result }
    {
        match &mut self.contents {
            Contents::Memory(engine) => end_epoch(alloc, engine, setup, who),
            Contents::File(file) => end_file_epoch(alloc, file, setup, who),
        }
    }
}

/// Begins the next epoch of a store in a file. Returns the status, and tells who hinders it.
#[tactic(auto, using(crate::proofs::SetUps::set_up_next), unfolding(crate::specs::Epochs::IsFirstUnfinished, crate::specs::Epochs::IsFirstUntold))]
fn end_file_epoch(alloc: Global, file: &mut FileStore, setup: Setup, who: &mut u32) -> u32
    requires whole { IsWhole (setup_view setup) }
    requires nodes { IsNamed (setup_view setup) }
    requires names { HasNames (setup_view setup) }
    ensures ok { result ≡ OK → IsNext (setup_view setup) file.old.engine file.new.engine }
    ensures stays { result ≢ OK → file.new ≡ file.old }
    ensures failed { file.old.file.failed ≡ true → result ≢ OK }
    ensures unfinished { result ≡ UNFINISHED → IsFirstUnfinished file.old.engine who.new }
    ensures untold { result ≡ UNTOLD → IsFirstUntold file.old.engine who.new }
    ensures nobody { result ≢ UNFINISHED → result ≢ UNTOLD → who.new ≡ who.old }
    ensures other_tables { result ≡ OTHER_TABLES → setup.names.tables ≢ file.old.engine.names.tables }
    ensures drained_tables { result ≡ OTHER_TABLES → IsDrained file.old.engine.events }
    ensures waiting { result ≡ WAITING → HasWaiting file.old }
    ensures waits { IsOnlyWaiting file.old → result ≡ WAITING }
    ensures halts { IsStopped file.old → result ≡ STOPPED }
    ensures settled { result ≡ OK → IsIdle file.old.file }
    ensures shown { result ≡ OK → IsShown file.old.file file.new.file }
    ensures no_room { result ≡ NO_ROOM → HasNoRoomForRows file.old }
    ensures stopped { result ≡ STOPPED → IsStopped file.old }
    ensures set_up { IsSetUp file.old.engine.store file.old.engine.names → IsSetUp file.new.engine.store file.new.engine.names }
    ensures status { (result ≡ OK) ⊎ IsOfNext result }
{
    if file.is_stopped() {
        return STOPPED;
    }
    if !file.is_idle() {
        return WAITING;
    }
    match file.next_epoch(alloc, setup) {
        Ok(()) => OK,
        Err(NextError::Again(txn)) => {
            *who = txn.0;
            UNFINISHED
        }
        Err(NextError::Untold(session)) => {
            *who = u32::from(session.0);
            UNTOLD
        }
        Err(NextError::OtherTables) => OTHER_TABLES,
        Err(NextError::Full) => NO_ROOM,
        Err(NextError::Stopped) => STOPPED,
        Err(NextError::DiskFault) => unreachable!(),
        Err(NextError::OutOfMemory) => OUT_OF_MEMORY,
    }
}

/// Puts the engine of the next epoch in the place of an engine. Returns the status, and tells who hinders it.
#[tactic(auto, using(crate::proofs::SetUps::set_up_next), unfolding(crate::specs::Epochs::IsFirstUnfinished, crate::specs::Epochs::IsFirstUntold))]
fn end_epoch(alloc: Global, engine: &mut Engine<PooledChains>, setup: Setup, who: &mut u32) -> u32
    requires whole { IsWhole (setup_view setup) }
    requires nodes { IsNamed (setup_view setup) }
    requires names { HasNames (setup_view setup) }
    ensures ok { result ≡ OK → IsNext (setup_view setup) engine.old engine.new }
    ensures stays { result ≢ OK → engine.new ≡ engine.old }
    ensures unfinished { result ≡ UNFINISHED → IsFirstUnfinished engine.old who.new }
    ensures untold { result ≡ UNTOLD → IsFirstUntold engine.old who.new }
    ensures nobody { result ≢ UNFINISHED → result ≢ UNTOLD → who.new ≡ who.old }
    ensures other_tables { result ≡ OTHER_TABLES → setup.names.tables ≢ engine.old.names.tables }
    ensures drained { result ≡ OK → IsDrained engine.old.events }
    ensures drained_tables { result ≡ OTHER_TABLES → IsDrained engine.old.events }
    ensures set_up { IsSetUp engine.old.store engine.old.names → IsSetUp engine.new.store engine.new.names }
    ensures status { (result ≡ OK) ⊎ IsOfMemoryNext result }
{
    match next_engine(alloc, engine, setup) {
        Ok(next) => {
            *engine = next;
            OK
        }
        Err(SwitchError::Again(txn)) => {
            *who = txn.0;
            UNFINISHED
        }
        Err(SwitchError::Untold(session)) => {
            *who = u32::from(session.0);
            UNTOLD
        }
        Err(SwitchError::Tables) => OTHER_TABLES,
        Err(SwitchError::Rows) => unreachable!(),
        Err(SwitchError::OutOfMemory) => OUT_OF_MEMORY,
    }
}

/// Returns the engine of the next epoch: under a setup, with the rows that an engine leaves as its starting rows.
///
/// # Errors
/// Returns the first cause that keeps the next epoch from beginning, if there is one. The engine is only read.
#[tactic(auto, using(crate::proofs::SetUps::hindered))]
fn next_engine(
    alloc: Global,
    engine: &Engine<PooledChains>,
    setup: Setup,
) -> Result<Engine<PooledChains>, SwitchError>
    requires { IsWhole (setup_view setup) }
    ensures refused { IfErr result (IsHindrance engine.now setup.names.tables) }
    ensures drained { OnOk result (IsDrained engine.now.events) }
    ensures started { IfOk result (λ next. IsStarted setup engine.now next) }
{
    let _ = engine.history();
    let setup = with_rows(setup, Vec::new(alloc));
    match check(engine, &setup) {
        Ok(()) => {}
        Err(why) => return Err(why),
    }
    Ok(start(alloc, engine, setup, PooledChains::new(alloc))?)
}
