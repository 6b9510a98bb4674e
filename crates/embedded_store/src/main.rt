//! An example: a store in memory within a program. Sessions move money between accounts, and the program prints the order and
//! the balances.
//!
//! | It prints | since |
//! |---|---|
//! | `rent: Ok(())` | the transfer committed |
//! | `gift: Err(TooLittle)` | the balance was too small, and the program aborted the transaction |
//! | `rent: Err(Waits)` | an older transaction has read the balance, and is still open |
//!
//! `money` has what every user of a store needs: a transaction that checks a balance, is aborted if it cannot be finished, and
//! starts over if the store aborted it.
//!
//! **Not claimed**: no contract says what the program prints. Each reply of the store is that of `Engine::ask`.
#![tactic(auto)]

mod money;

use chain_pool::PooledChains;
use engine_core::Engine;
use money::{Transfer, account, ask, move_money};
use serial_order::{order, tables};
use std::alloc::Global;
use teb_rules::names::{Request, Session};
use tree_toml::{put_fault, read_tree};

const TREE: &[u8] = br#"
format = 1
tables = ["account"]
[[type]]
name = "transfer"
[[node]]
name = "root"
control = "locks"
types = ["transfer"]
[[row]]
table = "account"
key = 1
value = 100
[[row]]
table = "account"
key = 2
value = 20
"#;

fn main(rt: HostRuntime) -> anyhow::Result<()> {
    let alloc = rt.alloc();
    let setup = match read_tree(alloc, TREE) {
        Ok(setup) => setup,
        Err(fault) => {
            let mut line = Vec::new(alloc);
            put_fault(&mut line, &fault)?;
            print!(rt; "{}", String::from_utf8_lossy(alloc, &line)?)?;
            return Ok(());
        }
    };
    let mut store = Engine::new(alloc, setup, PooledChains::new(alloc))?;
    run(&rt, alloc, &mut store)
}

/// Makes four transfers, and prints their serial order and the final balances.
fn run(rt: &impl Print, alloc: Global, store: &mut Engine<PooledChains>) -> anyhow::Result<()> {
    let rent = Transfer {
        from: 1,
        to: 2,
        amount: 30,
    };
    let gift = Transfer {
        from: 2,
        to: 1,
        amount: 500,
    };
    println!(rt; "rent: {:?}", move_money(store, Session(1), &rent))?;
    println!(rt; "gift: {:?}", move_money(store, Session(2), &gift))?;

    // Session 3 reads a balance in a transaction that stays open. A session that changes the balance has to wait.
    ask(store, Session(3), Request::Begin(money::TRANSFER))?;
    ask(store, Session(3), Request::Read(account(1)))?;
    println!(rt; "rent: {:?}", move_money(store, Session(1), &rent))?;
    ask(store, Session(3), Request::Commit)?;
    println!(rt; "rent: {:?}", move_money(store, Session(1), &rent))?;

    for txn in &order(alloc, store)? {
        println!(rt; "transaction {}", txn.0)?;
    }
    for (cell, balance) in &tables(alloc, store)? {
        println!(rt; "account {} {balance}", cell.key)?;
    }
    Ok(())
}
