//! What a client does with its session.

ghost use Rattle.std.specs.Prelude.{◌≡◌};
ghost use Rattle.shared_store.specs.Sharing.{IsSessionOf};

use shared_store::{EpochServer, Store, StoreError, StoreReply, StoreSession, UnaskedError};
use std::alloc::Global;
use std::sync::Wait;
use std::thread;
use std::time::{Clock, Duration};
use teb_rules::names::{Cell, Kind, Refusal, Reply, Request, Session, Spot, Table};

const ACCOUNTS: Table = Table(0);

/// The table with a row for each session, which counts its transfers.
pub const TRANSFERS: Table = Table(1);

/// How many accounts there are.
const ACCOUNT_COUNT: i64 = 500;

/// How far apart the accounts are from which the sessions take money.
const STRIDE: i64 = 15;

/// The type of transaction that moves money, by its place in the tree text.
const TRANSFER: Spot = Spot {
    kind: Kind(0),
    instance: 0,
};

/// How many milliseconds a client waits before it asks again.
const PAUSE: u64 = 1;

/// How often a transfer starts over.
const ATTEMPTS: u32 = 10_000;

/// Why a transfer goes no further.
#[derive(Debug, Drop)]
pub enum TransferError {
    /// The store has aborted the transaction. It may start over.
    Aborted,
    /// The transaction does not fit this epoch. It may start over once it is ended.
    Full,
    /// The request makes no sense to the store.
    Refused(Refusal),
    /// The store was not asked, or it is not known whether a commit is kept.
    NoAnswer(StoreError),
}

/// What a client is to do.
#[derive(Clone, Copy)]
pub struct Work {
    /// How many transfers it makes.
    pub count: u32,
    /// True if it prints each transfer that was committed.
    pub is_loud: bool,
}

/// Makes transfers from the account of the session to ever other ones. It stops at an error, and says so.
pub fn run_client<S: EpochServer, R: Wait + Clock + Print>(
    rt: &R,
    alloc: Global,
    store: &Store<S>,
    session: &mut StoreSession<S>,
    work: Work,
)
    requires { IsSessionOf store.now session.old }
    ensures { IsSessionOf store.now session.new × (session.new.session ≡ session.old.session) }
{
    let number = session.session().0;
    for _ in 0..work.count {
        match move_money(rt, alloc, store, session) {
            Ok(made) => {
                if work.is_loud && println!(rt; "session {number} transfer {made}").is_err() {
                    return;
                }
            }
            Err(why) => {
                let _printed = println!(rt; "session {number} stopped: {why:?}");
                return;
            }
        }
    }
}

/// Makes the next transfer of a session, and returns its number. It starts over if the store aborts it. After an `Err` none is open.
fn move_money<S: EpochServer, R: Wait + Clock>(
    rt: &R,
    alloc: Global,
    store: &Store<S>,
    session: &mut StoreSession<S>,
) -> Result<i64, TransferError>
    requires { IsSessionOf store.now session.old }
    ensures { IsSessionOf store.now session.new × (session.new.session ≡ session.old.session) }
{
    for _ in 0..ATTEMPTS {
        match transfer(rt, alloc, store, session) {
            Err(TransferError::Aborted) => pause(rt),
            Err(TransferError::Full) => {
                let _ended = ask(rt, alloc, store, session, Request::End);
                pause(rt);
            }
            Err(why) => {
                let _ended = ask(rt, alloc, store, session, Request::End);
                return Err(why);
            }
            made => return made,
        }
    }
    Err(TransferError::Aborted)
}

/// One transaction: 1 from an account to another, and the number of the transfer. An `Err` other than `Aborted` leaves it open.
fn transfer<S: EpochServer, R: Wait + Clock>(
    rt: &R,
    alloc: Global,
    store: &Store<S>,
    session: &mut StoreSession<S>,
) -> Result<i64, TransferError>
    requires { IsSessionOf store.now session.old }
    ensures { IsSessionOf store.now session.new × (session.new.session ≡ session.old.session) }
{
    let count = count_of(session.session());
    let first = i64::from(session.session().0) * STRIDE;
    ask(rt, alloc, store, session, Request::Begin(TRANSFER))?;
    let number = ask(rt, alloc, store, session, Request::Read(count))?.saturating_add(1);
    ask(rt, alloc, store, session, Request::Write(count, number))?;
    add(rt, alloc, store, session, account(first), -1)?;
    add(
        rt,
        alloc,
        store,
        session,
        account(first.saturating_add(number)),
        1,
    )?;
    ask(rt, alloc, store, session, Request::Commit)?;
    Ok(number)
}

/// Adds an amount to the balance of an account.
fn add<S: EpochServer, R: Wait + Clock>(
    rt: &R,
    alloc: Global,
    store: &Store<S>,
    session: &mut StoreSession<S>,
    account: Cell,
    amount: i64,
) -> Result<i64, TransferError>
    requires { IsSessionOf store.now session.old }
    ensures { IsSessionOf store.now session.new × (session.new.session ≡ session.old.session) }
{
    ask(rt, alloc, store, session, Request::Read(account))?;
    ask(rt, alloc, store, session, Request::Add(account, amount))
}

/// Asks until no other transaction is in the way, and no epoch comes to its end. The value of a row that was read, 0 if there is none, and
/// 0 after other requests.
fn ask<S: EpochServer, R: Wait + Clock>(
    rt: &R,
    alloc: Global,
    store: &Store<S>,
    session: &mut StoreSession<S>,
    request: Request,
) -> Result<i64, TransferError>
    requires { IsSessionOf store.now session.old }
    ensures { IsSessionOf store.now session.new × (session.new.session ≡ session.old.session) }
{
    for _ in rt.forever() {
        match session.ask(store, rt, alloc, request) {
            Ok(StoreReply::Later | StoreReply::Reply(Reply::Again { .. })) => pause(rt),
            Ok(StoreReply::Ended(_) | StoreReply::Reply(Reply::Aborted(_))) => {
                return Err(TransferError::Aborted);
            }
            Ok(StoreReply::Reply(Reply::Refused(Refusal::Full)))
            | Err(StoreError::Unasked(UnaskedError::Full)) => return Err(TransferError::Full),
            Ok(StoreReply::Reply(Reply::Refused(why))) => return Err(TransferError::Refused(why)),
            Ok(StoreReply::Reply(Reply::Value(value))) => return Ok(value.unwrap_or(0)),
            Ok(StoreReply::Reply(_)) => return Ok(0),
            Err(why) => return Err(TransferError::NoAnswer(why)),
        }
    }
    unreachable!()
}

/// Leaves the store to other clients for a moment.
fn pause<R: Clock>(rt: &R) {
    thread::sleep(rt, Duration::from_millis(PAUSE));
}

/// The row of an account.
fn account(place: i64) -> Cell {
    Cell {
        table: ACCOUNTS,
        key: u32::try_from(place % ACCOUNT_COUNT).unwrap_or(0),
    }
}

/// The row that counts the transfers of a session.
fn count_of(session: Session) -> Cell {
    Cell {
        table: TRANSFERS,
        key: u32::from(session.0),
    }
}
