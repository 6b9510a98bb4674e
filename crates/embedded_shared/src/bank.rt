//! The bank in a file.

use crate::client::TRANSFERS;
use chain_pool::PooledChains;
use engine_core::Engine;
use serial_order::tables;
use std::alloc::{AllocError, Global};

/// The accounts, and a row for each session that counts its transfers.
const TREE: &[u8] = br#"
format = 1
tables = ["account", "transfers"]
[[type]]
name = "transfer"
[[node]]
name = "root"
control = "locks"
types = ["transfer"]
"#;

/// Returns the tree text of the bank.
///
/// # Errors
/// Out of memory.
pub fn tree(alloc: Global) -> Result<Vec<u8>, AllocError> {
    TREE.to_vec(alloc)
}

/// Prints how many transfers there are, and the sum of all accounts, which no transfer changes; if it is loud, also the transfers of each
/// session and the balance of each account.
///
/// # Errors
/// Out of memory, or the output is not written. The first lines may be printed.
pub fn report(
    rt: &impl Print,
    alloc: Global,
    engine: &Engine<PooledChains>,
    is_loud: bool,
) -> anyhow::Result<()> {
    let mut made = 0_i64;
    let mut total = 0_i64;
    for (cell, value) in &tables(alloc, engine)? {
        let is_count = cell.table == TRANSFERS;
        if is_count {
            made = made.saturating_add(*value);
        } else {
            total = total.saturating_add(*value);
        }
        if is_loud {
            let what = if is_count { "session" } else { "account" };
            println!(rt; "{what} {} has {value}", cell.key)?;
        }
    }
    println!(rt; "{made} transfers, and {total} in all accounts")?;
    Ok(())
}
