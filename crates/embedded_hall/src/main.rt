//! An example: a store in memory that threads share. Each of 32 sessions has a thread, and moves money between accounts.
//!
//! ```text
//!   setup ──► Engine ──Hall::make──► hall, 32 passes ──a thread for each pass──► Hall::close ──► engine ──► order, final rows
//! ```
//!
//! `client` has what every thread needs: it asks again while an older transaction is in the way, and starts over if the store
//! aborted its transaction. At the end the program prints whether money was moved, and the sum of all balances, which no
//! transfer changes.
//!
//! The contracts say that each pass stays a pass of its hall (`IsPassOf`), which `Hall::close` requires.
//!
//! **Not claimed**: that all transfers commit: a client stops once the store has aborted a transfer 1,000 times. No contract
//! says what the program prints.
#![tactic(auto)]

mod client;

ghost use Rattle.std.specs.Prelude.{ℕ, ◌≡◌, ◌<◌, All, length, slice_index_or};
ghost use Rattle.session_server.specs.Passes.{IsPassOf};

use chain_pool::PooledChains;
use client::run_client;
use engine_core::Engine;
use serial_order::{order, tables};
use session_server::{Hall, Pass};
use std::alloc::Global;
use std::sync::Wait;
use std::thread::{self, Threads};
use teb_rules::names::SESSIONS;
use tree_toml::read_tree;
use version_chain::Chains;

const TREE: &[u8] = br#"
format = 1
tables = ["account"]
[[type]]
name = "transfer"
[[node]]
name = "root"
control = "locks"
types = ["transfer"]
"#;

fn main(rt: HostRuntime) -> anyhow::Result<()> {
    let alloc = rt.alloc();
    let engine = Engine::new(alloc, read_tree(alloc, TREE)?, PooledChains::new(alloc))?;
    let Ok((hall, mut passes)) = Hall::make(alloc, engine) else {
        println!(rt; "out of memory")?;
        return Ok(());
    };
    run_clients(&rt, &hall, &mut passes);
    let (engine, _) = hall.close(passes);
    report(&rt, alloc, &engine)
}

/// Runs a client with each pass, each in a thread.
fn run_clients<C: Chains + Send, R: Threads + Wait + Sync>(
    rt: &R,
    hall: &Hall<C>,
    passes: &mut [Pass<C>],
)
    requires { All (IsPassOf hall.now) passes.old }
    ensures { (i : ℕ) (d : _) → i < length passes.old → IsPassOf hall.now (slice_index_or passes.new i d) × ((slice_index_or passes.new i d).session ≡ (slice_index_or passes.old i d).session) }
{
    let threads = usize::from(SESSIONS);
    thread::for_each_mut(rt, passes, threads, &|_, pass| run_client(rt, hall, pass));
}

/// Prints whether a transfer has committed, and the sum of all balances, which no transfer changes.
fn report(rt: &impl Print, alloc: Global, engine: &Engine<PooledChains>) -> anyhow::Result<()> {
    let mut sum: i64 = 0;
    for (_, balance) in &tables(alloc, engine)? {
        sum = sum.wrapping_add(*balance);
    }
    println!(rt; "money was moved: {}", !order(alloc, engine)?.is_empty())?;
    println!(rt; "sum {sum}")?;
    Ok(())
}
