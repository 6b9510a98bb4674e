//! Stores on a disk, shared by threads: the disk fails at a call, and a crash leaves each commit that was answered.

ghost use Rattle.std.specs.Prelude.{ℕ, ◌≡◌, ◌<◌, [], All, IfOk, length, slice_index_or};
ghost use Rattle.session_server.specs.Passes.{IsPassOf};

use crate::plain::ANY;
use chain_pool::PooledChains;
use commit_journal::{Durable, recover};
use crash_disk::MemDisk;
use durable_server::{DurableServer, EngineStoreServer};
use engine_core::Engine;
use engine_store::EngineStore;
use hall_server::{Server, UnaskedError};
use serial_order::tables;
use session_server::{HallOf, PassOf, ServeError};
use std::alloc::Global;
use std::process::Abort;
use std::sync::Wait;
use std::sync::atomic::AtomicI64;
use std::sync::atomic::Ordering::SeqCst;
use std::test::Fail;
use std::thread::{self, Threads};
use teb_rules::names::{Cell, Reply, Request, Rows, SESSIONS, Table};
use tree_toml::read_tree;

/// How many transactions each session has.
const COMMITS: i64 = 4;

/// How many commits there are if the disk does not fail.
const ALL: i64 = COMMITS * SESSIONS as i64;

/// How many threads serve the sessions.
const THREADS: usize = 4;

/// The disk fails at this call, amid the commits. A commit makes four calls.
const STOP: u32 = 301;

/// How many bytes the disk of a store in epochs can hold.
const CAPACITY: u64 = 65_536;

/// What all sessions together were told.
#[derive(Drop)]
struct Told {
    /// How many commits were answered.
    commits: AtomicI64,
    /// How many sessions were told that the disk has failed, once a commit of theirs was not answered.
    stops: AtomicI64,
}

/// Makes a transaction that writes a row, and returns true if its commit is answered.
fn commits<S: Server, R: Wait>(
    rt: &R,
    hall: &HallOf<S>,
    pass: &mut PassOf<S>,
    row: Cell,
    value: i64,
) -> bool
    requires { IsPassOf hall.now pass.old }
    ensures { IsPassOf hall.now pass.new × (pass.new.session ≡ pass.old.session) }
{
    hall.serve(rt, pass, Request::Begin(ANY)).is_ok()
        && hall.serve(rt, pass, Request::Write(row, value)).is_ok()
        && hall.serve(rt, pass, Request::Commit) == Ok(Reply::Committed)
}

/// Makes the transactions of a session, up to the first whose commit is not answered, and counts those that are. Each writes its number
/// to the row of the session. After a commit that is not answered it asks once more, and counts whether the disk is told to have failed.
fn run_session<S: Server, R: Wait>(rt: &R, hall: &HallOf<S>, pass: &mut PassOf<S>, told: &Told)
    requires { IsPassOf hall.now pass.old }
    ensures { IsPassOf hall.now pass.new × (pass.new.session ≡ pass.old.session) }
{
    let row = Cell {
        table: Table(0),
        key: u32::from(pass.session().0),
    };
    for number in 1..=COMMITS {
        if !commits(rt, hall, pass, row, number) {
            let behind = hall.serve(rt, pass, Request::End);
            if behind == Err(ServeError::Unasked(UnaskedError::Stopped)) {
                told.stops.fetch_add(1, SeqCst);
            }
            return;
        }
        told.commits.fetch_add(1, SeqCst);
    }
}

/// Runs each session, in threads.
fn run_sessions<S: Server + Send, R: Threads + Wait + Sync>(
    rt: &R,
    hall: &HallOf<S>,
    passes: &mut [PassOf<S>],
    told: &Told,
)
    requires { All (IsPassOf hall.now) passes.old }
    ensures { (i : ℕ) (d : _) → i < length passes.old → IsPassOf hall.now (slice_index_or passes.new i d) × ((slice_index_or passes.new i d).session ≡ (slice_index_or passes.old i d).session) }
{
    thread::for_each_mut(
        rt,
        passes,
        THREADS,
        &|_, pass| run_session(rt, hall, pass, told),
    );
}

/// Shares a server that was asked nothing yet among the sessions. Returns it, and what the sessions were told.
fn share<S: Server + Send + Drop, R: Threads + Wait + Abort + Sync>(
    rt: &R,
    alloc: Global,
    server: S,
) -> (S, Told)
    requires { S.events server ≡ [] }
{
    let told = Told {
        commits: AtomicI64::new(0),
        stops: AtomicI64::new(0),
    };
    let Ok((hall, mut passes)) = HallOf::begin(alloc, server) else {
        panic!(rt; "memory");
    };
    run_sessions(rt, &hall, &mut passes, &told);
    let (server, _entries) = hall.end(passes);
    (server, told)
}

/// Returns how many commits rows are of, if each session has one row, which counts its commits.
fn count_of(rows: &[(Cell, i64)]) -> i64 {
    let mut count = 0_i64;
    for row in rows {
        count = count.saturating_add(row.1);
    }
    count
}

/// Fails unless each commit that was answered is kept: all of them on a disk that does not fail, else some, and at most one more is kept.
/// A session is told that the disk has failed if and only if it has.
fn expect_kept<R: Abort>(rt: &R, stop: u32, told: &Told, kept: i64) {
    let answered = told.commits.load(SeqCst);
    let stops = told.stops.load(SeqCst);
    assert!(rt; (0 < stops) == (stop != 0), "{stops} stops");
    assert!(rt;
        answered <= kept && kept <= answered.saturating_add(1),
        "{kept} of {answered}"
    );
    assert!(rt;
        0 < answered && (answered == ALL) == (stop == 0),
        "{answered} answered"
    );
}

#[test]
fn a_journal_has_each_commit_that_threads_were_answered(rt: HostRuntime) -> Result<(), Fail> {
    let alloc = rt.alloc();
    for stop in [0, STOP] {
        let engine = Engine::new(alloc, read_tree(alloc, b"")?, PooledChains::new(alloc))?;
        let Ok(durable) = Durable::create(engine, MemDisk::new(alloc, stop)?) else {
            return Err(Fail::from("no journal"));
        };
        let (server, told) = share(&rt, alloc, DurableServer { durable });
        let mut left = server.durable.into_disk().left();
        let Ok(found) = recover(alloc, &mut left, &Rows::new(alloc)) else {
            return Err(Fail::from("not recovered"));
        };
        expect_kept(&rt, stop, &told, count_of(&found.rows));
    }
    Ok(())
}

/// Opens the store of the plain tree on a disk.
fn open(alloc: Global, disk: MemDisk) -> Result<EngineStore<PooledChains, MemDisk>, Fail>
    ensures { IfOk result (λ s. s.engine.events ≡ []) }
{
    let setup = read_tree(alloc, b"")?;
    match EngineStore::open(alloc, disk, setup, PooledChains::new(alloc)) {
        Ok(store) => Ok(store),
        Err(_) => Err(Fail::from("not opened")),
    }
}

#[test]
fn a_store_has_each_commit_that_threads_were_answered(rt: HostRuntime) -> Result<(), Fail> {
    let alloc = rt.alloc();
    for stop in [0, STOP] {
        let store = open(alloc, MemDisk::with_capacity(alloc, CAPACITY, stop))?;
        let (server, told) = share(&rt, alloc, EngineStoreServer { store });
        let found = open(alloc, server.store.into_disk().left())?;
        let rows = tables(alloc, found.engine())?;
        expect_kept(&rt, stop, &told, count_of(&rows));
    }
    Ok(())
}
