//! Transfers that share the syncs of one.

use crate::bank::{Answers, Bank, BankError, SESSION, next_epoch, transfer};
use chain_pool::PooledChains;
use engine_store::{AskError, EngineGroup};
use file_disk::FileDisk;
use std::alloc::Global;
use teb_rules::names::{Reply, Request};

/// The bank while its commits wait.
type BankGroup = EngineGroup<PooledChains, FileDisk>;

impl Answers for BankGroup {
    fn answer(&mut self, alloc: Global, request: Request) -> Result<Reply, AskError> {
        self.ask(alloc, SESSION, request)
    }
}

/// Makes at most `most` transfers, in the next epoch if this one is full, and returns their numbers. They are in the file then.
///
/// # Errors
/// Those of `transfer` and `next_epoch`, and `OutOfMemory`. `Full` if the next epoch takes no transfer either. The bank is
/// dropped.
pub fn move_money_together(
    alloc: Global,
    bank: Bank,
    most: u32,
) -> Result<(Bank, Vec<i64>), BankError> {
    let (bank, numbers) = transfers(alloc, bank, most)?;
    if !numbers.is_empty() {
        return Ok((bank, numbers));
    }
    let (bank, numbers) = transfers(alloc, next_epoch(alloc, bank)?, most)?;
    if numbers.is_empty() {
        return Err(BankError::Full);
    }
    Ok((bank, numbers))
}

/// Makes transfers until the epoch is full, at most `most`, and returns their numbers once they are in the file.
fn transfers(alloc: Global, bank: Bank, most: u32) -> Result<(Bank, Vec<i64>), BankError> {
    let mut numbers = Vec::with_capacity(alloc, most as usize)?;
    if bank.is_stopped() {
        return Err(BankError::NoAnswer(AskError::Stopped));
    }
    let mut group = bank.begin_group(alloc);
    let ended = gather(alloc, &mut group, &mut numbers, most);
    let (bank, written) = group.sync();
    match (ended, written) {
        (Ok(()) | Err(BankError::Full), Ok(())) => Ok((bank, numbers)),
        (Err(error), Ok(())) => Err(error),
        (_, Err(_)) => Err(BankError::NoAnswer(AskError::Unsure)),
    }
}

/// Makes at most `most` transfers, which wait for the file, and appends their numbers.
fn gather(
    alloc: Global,
    group: &mut BankGroup,
    numbers: &mut Vec<i64>,
    most: u32,
) -> Result<(), BankError> {
    for _ in 0..most {
        let number = transfer(alloc, group)?;
        if numbers.push(number).is_err() {
            return Err(BankError::OutOfMemory);
        }
    }
    Ok(())
}
