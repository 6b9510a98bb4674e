//! An example: a bank whose accounts are in a file. It says what it finds there, and then moves money, one transaction after
//! another.
//!
//! ```text
//!   $ embedded_file FILE TRANSFERS [TOGETHER]
//!   found 0 transfers, and 0 in all accounts
//!   transfer 1
//!   ..
//! ```
//!
//! It may be killed at any moment. A transfer that was printed is in the file when the program is started again: its commit was
//! answered, so a crash keeps it (`EngineStore::ask`, clause `images`). `bank` has what a program with a store in a file needs:
//! the opening, a transaction, and the next epoch once this one is full. With a number TOGETHER, that many transfers share the syncs
//! of one commit, and are printed together (`together`).
//!
//! **Not claimed**: that a file keeps what was synced, which the system has to do. No contract says what the program prints.
#![tactic(auto)]

mod bank;
mod together;

use bank::{Bank, TRANSFERS, move_money, open_bank};
use file_disk::FileDisk;
use serial_order::tables;
use std::alloc::Global;
use std::env;
use together::move_money_together;

/// The most bytes that the file may have.
const CAPACITY: u64 = 67_108_864;

fn main(rt: HostRuntime) -> anyhow::Result<()> {
    let alloc = rt.alloc();
    let mut words = env::args(&rt)?.skip(1);
    let (Some(path), Some(count)) = (words.next(), words.next()) else {
        println!(rt; "usage: embedded_file FILE TRANSFERS [TOGETHER]")?;
        return Ok(());
    };
    let together = match words.next() {
        Some(number) => number.parse::<u32>()?,
        None => 1,
    };
    let disk = FileDisk::open_with_capacity(&rt, alloc, &path, CAPACITY)?;
    let mut bank = open_bank(alloc, disk)?;
    let (mut made, mut total) = (0_i64, 0_i64);
    for (cell, value) in &tables(alloc, bank.engine())? {
        if cell.table == TRANSFERS {
            made = *value;
        } else {
            total = total.saturating_add(*value);
        }
    }
    println!(rt; "found {made} transfers, and {total} in all accounts")?;
    let count = count.parse::<u32>()?;
    if together > 1 {
        return print_together(&rt, alloc, bank, count, together);
    }
    for _ in 0..count {
        let number;
        (bank, number) = move_money(alloc, bank)?;
        println!(rt; "transfer {number}")?;
    }
    Ok(())
}

/// Moves money, `together` transfers at a time, and prints each one once it is in the file.
fn print_together(
    rt: &impl Print,
    alloc: Global,
    mut bank: Bank,
    count: u32,
    together: u32,
) -> anyhow::Result<()> {
    let mut left = count;
    for _ in 0..count {
        if left == 0 {
            return Ok(());
        }
        let numbers;
        (bank, numbers) = move_money_together(alloc, bank, together.min(left))?;
        print_numbers(rt, &numbers)?;
        left = left.saturating_sub(u32::try_from(numbers.len()).unwrap_or(left));
    }
    Ok(())
}

/// Prints the numbers of transfers.
fn print_numbers(rt: &impl Print, numbers: &[i64]) -> anyhow::Result<()> {
    for number in numbers {
        println!(rt; "transfer {number}")?;
    }
    Ok(())
}
