//! A bank over a store in a file.

ghost use Rattle.std.specs.Prelude.{IfOk};
ghost use Rattle.store_setup.specs.SetupView.{setup_view};
ghost use Rattle.store_setup.specs.Sound.{IsWhole};

use chain_pool::PooledChains;
use engine_store::{AskError, EngineStore, NextError, OpenError};
use file_disk::FileDisk;
use std::alloc::{AllocError, Global};
use store_setup::Setup;
use teb_rules::names::{Cell, Kind, Refusal, Reply, Request, Session, Spot, Table};
use thiserror::Error;
use tree_toml::read_tree;

/// The accounts, and one row that counts the transfers.
const TREE: &[u8] = br#"
format = 1
tables = ["account", "transfers"]
[[type]]
name = "transfer"
[[node]]
name = "root"
control = "locks"
types = ["transfer"]
"#;

const ACCOUNTS: Table = Table(0);

/// The table with the row that counts the transfers.
pub const TRANSFERS: Table = Table(1);

/// How many accounts there are.
const ACCOUNT_COUNT: i64 = 100;

/// The type of transaction that moves money, by its place in the tree text.
const TRANSFER: Spot = Spot {
    kind: Kind(0),
    instance: 0,
};

/// The one session of this program.
pub const SESSION: Session = Session(1);

/// The store of the bank.
pub type Bank = EngineStore<PooledChains, FileDisk>;

/// What answers requests: the bank, or the bank while its commits wait.
pub trait Answers {
    /// Answers a request of the one session.
    ///
    /// # Errors
    /// Those of the store's `ask`.
    fn answer(&mut self, alloc: Global, request: Request) -> Result<Reply, AskError>;
}

impl Answers for Bank {
    fn answer(&mut self, alloc: Global, request: Request) -> Result<Reply, AskError> {
        self.ask(alloc, SESSION, request)
    }
}

/// Why there is no bank, or no transfer.
#[derive(Debug, Drop, Error)]
pub enum BankError {
    #[error("there is no bank in the file: {0}")]
    NotOpened(OpenError),
    /// The engine, or its part of the file, is full until the next epoch.
    #[error("the epoch is full")]
    Full,
    #[error("there is no next epoch: {0}")]
    NoEpoch(NextError),
    #[error("the store gives no answer: {0}")]
    NoAnswer(AskError),
    /// The store does not accept the request: a fault of this program.
    #[error("the store refuses the request: {0:?}")]
    Refused(Refusal),
    /// Another session is in the way: this program has only one.
    #[error("the transaction goes no further")]
    InTheWay,
    #[error("the tree text is wrong")]
    BadTree,
    #[error("out of memory")]
    OutOfMemory,
}

impl From<AllocError> for BankError {
    fn from(_error: AllocError) -> BankError {
        BankError::OutOfMemory
    }
}

/// Returns the setup of the tree text. It is read again for each epoch.
fn setup(alloc: Global) -> Result<Setup, BankError>
    ensures { IfOk result (λ s. IsWhole (setup_view s)) }
{
    match read_tree(alloc, TREE) {
        Ok(setup) => Ok(setup),
        Err(_) => Err(BankError::BadTree),
    }
}

/// Opens the bank that a disk has, or a new one on an empty disk.
///
/// # Errors
/// `NotOpened`, with the reason. `BadTree` if the tree text is not read, also if memory runs out. The disk is dropped.
pub fn open_bank(alloc: Global, disk: FileDisk) -> Result<Bank, BankError> {
    match EngineStore::open(alloc, disk, setup(alloc)?, PooledChains::new(alloc)) {
        Ok(bank) => Ok(bank),
        Err(refused) => Err(BankError::NotOpened(refused.why)),
    }
}

/// Makes the next transfer, in the next epoch if this one is full, and returns its number. The transfer is then in the file.
///
/// # Errors
/// Those of `transfer` and `next_epoch`. The bank is dropped.
pub fn move_money(alloc: Global, mut bank: Bank) -> Result<(Bank, i64), BankError> {
    match transfer(alloc, &mut bank) {
        Ok(number) => return Ok((bank, number)),
        Err(BankError::Full) => {}
        Err(error) => return Err(error),
    }
    let mut bank = next_epoch(alloc, bank)?;
    let number = transfer(alloc, &mut bank)?;
    Ok((bank, number))
}

/// Returns the bank with a checkpoint of all rows, and room for further transactions.
///
/// # Errors
/// `NoEpoch`, with the reason. `BadTree` if the tree text is not read, also if memory runs out. The bank is dropped.
pub fn next_epoch(alloc: Global, bank: Bank) -> Result<Bank, BankError> {
    match bank.next_epoch(alloc, setup(alloc)?, PooledChains::new(alloc)) {
        Ok((bank, _ended)) => Ok(bank),
        Err(refused) => Err(BankError::NoEpoch(refused.why)),
    }
}

/// Makes one transaction, and returns the number of the transfer.
///
/// # Errors
/// `Full` if the engine, or its part of the file, is full. `Refused`, `InTheWay` or `NoAnswer` if a request is not granted.
/// The transaction is ended, unless that fails too.
pub fn transfer(alloc: Global, bank: &mut impl Answers) -> Result<i64, BankError> {
    let moved = steps(alloc, bank);
    if moved.is_err() {
        let _ended = bank.answer(alloc, Request::End);
    }
    moved
}

/// Makes the requests of a transfer: 1 from one account to another, and the number of the transfer.
fn steps(alloc: Global, bank: &mut impl Answers) -> Result<i64, BankError> {
    ask(alloc, bank, Request::Begin(TRANSFER))?;
    let count = Cell {
        table: TRANSFERS,
        key: 0,
    };
    let number = ask(alloc, bank, Request::Read(count))?.saturating_add(1);
    ask(alloc, bank, Request::Write(count, number))?;
    add(alloc, bank, account(number), -1)?;
    add(alloc, bank, account(number.saturating_mul(7)), 1)?;
    ask(alloc, bank, Request::Commit)?;
    Ok(number)
}

/// Adds an amount to the balance of an account.
fn add(
    alloc: Global,
    bank: &mut impl Answers,
    account: Cell,
    amount: i64,
) -> Result<(), BankError> {
    ask(alloc, bank, Request::Read(account))?;
    ask(alloc, bank, Request::Add(account, amount))?;
    Ok(())
}

/// Asks the store. Returns the value of a row that was read, 0 if there is none, and 0 after other requests.
fn ask(alloc: Global, bank: &mut impl Answers, request: Request) -> Result<i64, BankError> {
    match bank.answer(alloc, request) {
        Ok(Reply::Value(value)) => Ok(value.unwrap_or(0)),
        Ok(Reply::Refused(Refusal::Full)) | Err(AskError::Full) => Err(BankError::Full),
        Ok(Reply::Refused(why)) => Err(BankError::Refused(why)),
        Ok(Reply::Again { .. } | Reply::Aborted(_)) => Err(BankError::InTheWay),
        Ok(_) => Ok(0),
        Err(error) => Err(BankError::NoAnswer(error)),
    }
}

/// Returns the account of a transfer.
fn account(number: i64) -> Cell {
    Cell {
        table: ACCOUNTS,
        key: u32::try_from(number % ACCOUNT_COUNT).unwrap_or(0),
    }
}
