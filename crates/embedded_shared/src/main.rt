//! A bank in a file, shared by threads: each client has a session and a thread, and moves money between accounts.
//!
//! The store is opened by `open_file` and closed by `Store::close`; then the program prints the sums of the bank.
//!
//! `client` has what every thread needs: it asks again while an older transaction is in the way or an epoch comes to its end, and starts
//! over if the store aborts its transaction. The store goes on from epoch to epoch as the threads ask it. The program may be killed at any
//! moment. Whatever transfer it has printed is in the file when it is started again, if the file keeps what was synced.
//!
//! With the word `runs` it prints the run of each epoch of its life, which `recorded` keeps until the end. It is proved that `audit` accepts
//! each of these texts: the run is serial in the printed order, from the rows that the epoch began with.
#![tactic(auto)]

mod bank;
mod client;
mod recorded;

ghost use Rattle.std.specs.Prelude.{ℕ, ◌≡◌, ◌<◌, All, length, map, slice_index_or};
ghost use Rattle.teb_rules.specs.history.Phases.{numbers};
ghost use Rattle.shared_store.specs.Sharing.{IsNew, IsSessionOf, number_of};

use bank::{report, tree};
use client::{Work, run_client};
use file_disk::FileDisk;
use recorded::Recorded;
use shared_store::{Closed, EpochServer, NoCheckpoint, Store, StoreSession};
use std::alloc::Global;
use std::env;
use std::fs::{File, Files};
use std::sync::Wait;
use std::thread::{self, Threads};
use std::time::Clock;
use store_server::{StoreServer, open_file};
use teb_rules::names::SESSIONS;

/// A file has fewer bytes than this.
const MOST_BYTES: u64 = 1 << 40;

fn main(rt: HostRuntime) -> anyhow::Result<()> {
    let alloc = rt.alloc();
    let mut words = env::args(&rt)?.skip(1);
    let (Some(path), Some(bytes), Some(clients), Some(count)) = (
        words.next(),
        words.next(),
        words.next(),
        words.next(),
    ) else {
        println!(rt; "usage: embedded_shared FILE BYTES CLIENTS TRANSFERS [loud | runs]")?;
        return Ok(());
    };
    let word = words.next();
    let has_runs = matches!(&word, Some(word) if word.as_str() == "runs");
    let work = Work {
        count: count.parse()?,
        is_loud: word.is_some() && !has_runs,
    };
    let bytes = bytes.parse::<u64>()?;
    let clients = clients.parse()?;
    if has_runs {
        return run_recorded(&rt, alloc, &path, bytes, clients, work);
    }
    let (store, sessions) = open_file(&rt, alloc, &path, bytes, tree(alloc)?)?;
    let (server, checkpoint) = share(&rt, alloc, store, sessions, clients, work);
    print_closing(&rt, checkpoint)?;
    report(&rt, alloc, server.engine(), work.is_loud)
}

/// Shares the bank in a file among that many clients, as `main` does, and prints the run of each epoch first. The last run is empty if the
/// store was closed with a checkpoint.
fn run_recorded<R: Files<File = File> + Threads + Wait + Clock + Print + Sync>(
    rt: &R,
    alloc: Global,
    path: &str,
    bytes: u64,
    clients: usize,
    work: Work,
) -> anyhow::Result<()> {
    if bytes == 0 || MOST_BYTES <= bytes {
        println!(rt; "the file is to have 1 to {} bytes", MOST_BYTES - 1)?;
        return Ok(());
    }
    let disk = FileDisk::open_with_capacity(rt, alloc, path, bytes)?;
    let (server, log) = match StoreServer::open(alloc, disk, tree(alloc)?) {
        Ok(halves) => halves,
        Err(refused) => return Err(refused.why.into()),
    };
    let Ok((store, sessions)) = Store::new(alloc, Recorded::new(alloc, server), log) else {
        println!(rt; "out of memory")?;
        return Ok(());
    };
    let (recorded, checkpoint) = share(rt, alloc, store, sessions, clients, work);
    recorded.print(rt, alloc)?;
    print_closing(rt, checkpoint)?;
    report(rt, alloc, recorded.into_server().engine(), work.is_loud)
}

/// Prints whether the store was closed with a checkpoint, and if not, why.
fn print_closing(rt: &impl Print, checkpoint: Result<(), NoCheckpoint>) -> anyhow::Result<()> {
    println!(rt; "closed with a checkpoint: {}", checkpoint.is_ok())?;
    if let Err(why) = checkpoint {
        println!(rt; "{why}")?;
    }
    Ok(())
}

/// Shares a store among that many clients until they are done, and closes it. Returns the server, and why there is no checkpoint of its
/// rows, if there is none.
fn share<S: EpochServer + Send + Drop, R: Threads + Wait + Clock + Print + Sync>(
    rt: &R,
    alloc: Global,
    store: Store<S>,
    mut sessions: Vec<StoreSession<S>>,
    clients: usize,
    work: Work,
) -> (S, Result<(), NoCheckpoint>)
where
    S::Log: Send + Drop,
    requires sessions { All (IsNew store) sessions.items }
    requires numbers { map number_of sessions.items ≡ numbers SESSIONS }
{
    run_clients(rt, alloc, &store, &mut sessions, clients, work);
    let Closed {
        server,
        checkpoint,
        ..
    } = store.close(alloc, sessions);
    (server, checkpoint)
}

/// Runs that many clients, each with a session and in a thread of its own. The other sessions ask nothing.
fn run_clients<S: EpochServer + Send, R: Threads + Wait + Clock + Print + Sync>(
    rt: &R,
    alloc: Global,
    store: &Store<S>,
    sessions: &mut [StoreSession<S>],
    clients: usize,
    work: Work,
)
where
    S::Log: Send,
    requires { All (IsSessionOf store.now) sessions.old }
    ensures { (i : ℕ) (d : _) → i < length sessions.old → IsSessionOf store.now (slice_index_or sessions.new i d)
        × ((slice_index_or sessions.new i d).session ≡ (slice_index_or sessions.old i d).session) }
{
    let threads = usize::from(SESSIONS);
    thread::for_each_mut(
        rt,
        sessions,
        threads,
        &|i, session| {
            if i < clients {
                run_client(rt, alloc, store, session, work);
            }
        },
    );
}
