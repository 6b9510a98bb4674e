//! A transfer of money as a transaction.

use chain_pool::PooledChains;
use engine_core::Engine;
use std::alloc::AllocError;
use teb_rules::names::{Cause, Cell, Kind, Refusal, Reply, Request, Session, Spot, Table};
use thiserror::Error;

/// The type of transaction that moves money, by its place in the tree text.
pub const TRANSFER: Spot = Spot {
    kind: Kind(0),
    instance: 0,
};

/// How often a transfer is tried if the store aborts it.
const ATTEMPTS: u32 = 8;

/// An amount to be moved from one account to another.
#[derive(Drop)]
pub struct Transfer {
    pub from: u32,
    pub to: u32,
    pub amount: i32,
}

/// Why a transaction cannot go on.
#[derive(Debug, Drop, Error)]
pub enum TransferError {
    /// An older transaction is in the way. Ask again once other sessions have gone on.
    #[error("an older transaction is in the way")]
    Waits,
    /// The store has aborted the transaction. It may start over.
    #[error("the store has aborted the transaction")]
    Aborted,
    /// The account has less than the amount.
    #[error("the account has less than the amount")]
    TooLittle,
    /// The store does not accept the request: a fault of this program.
    #[error("the store refuses the request: {0:?}")]
    Refused(Refusal),
    #[error("out of memory")]
    OutOfMemory,
}

impl From<AllocError> for TransferError {
    fn from(_error: AllocError) -> TransferError {
        TransferError::OutOfMemory
    }
}

/// Moves money in a transaction of this session, and starts over if the store aborts it.
///
/// # Errors
/// Why the transaction did not commit. Then nothing has changed, and the session has no open transaction.
pub fn move_money(
    store: &mut Engine<PooledChains>,
    session: Session,
    transfer: &Transfer,
) -> Result<(), TransferError> {
    for _ in 0..ATTEMPTS {
        match attempt(store, session, transfer) {
            Ok(()) => return Ok(()),
            Err(TransferError::Aborted) => {}
            Err(error) => {
                ask(store, session, Request::Abort)?;
                return Err(error);
            }
        }
    }
    Err(TransferError::Aborted)
}

/// Makes one transaction. An error other than `Aborted` leaves it open.
fn attempt(
    store: &mut Engine<PooledChains>,
    session: Session,
    transfer: &Transfer,
) -> Result<(), TransferError> {
    let (from, to) = (account(transfer.from), account(transfer.to));
    let amount = i64::from(transfer.amount);
    ask(store, session, Request::Begin(TRANSFER))?;
    if ask(store, session, Request::Read(from))? < amount {
        return Err(TransferError::TooLittle);
    }
    ask(store, session, Request::Add(from, -amount))?;
    ask(store, session, Request::Read(to))?;
    ask(store, session, Request::Add(to, amount))?;
    ask(store, session, Request::Commit)?;
    Ok(())
}

/// Asks the store. Returns the value of a row that was read, 0 if there is none, and 0 after other requests.
///
/// # Errors
/// Why the transaction cannot go on; `OutOfMemory` if nothing was asked.
pub fn ask(
    store: &mut Engine<PooledChains>,
    session: Session,
    request: Request,
) -> Result<i64, TransferError> {
    store.ready()?;
    match store.ask(session, request) {
        Reply::Value(value) => Ok(value.unwrap_or(0)),
        Reply::Again { .. } => Err(TransferError::Waits),
        Reply::Aborted(Cause::Asked) => Ok(0),
        Reply::Aborted(_) => Err(TransferError::Aborted),
        Reply::Refused(why) => Err(TransferError::Refused(why)),
        _ => Ok(0),
    }
}

/// Returns the row of an account.
pub fn account(key: u32) -> Cell {
    Cell {
        table: Table(0),
        key,
    }
}
