//! What a client does with its pass.

ghost use Rattle.std.specs.Prelude.{◌≡◌};
ghost use Rattle.session_server.specs.Passes.{IsPassOf};

use session_server::{AskError, Hall, Pass};
use std::sync::Wait;
use std::thread;
use teb_rules::names::{Cell, Kind, Refusal, Reply, Request, Spot, Table};
use version_chain::Chains;

/// The type of transaction that moves money, by its place in the tree text.
const TRANSFER: Spot = Spot {
    kind: Kind(0),
    instance: 0,
};

/// How many accounts there are: one for each session.
const ACCOUNTS: u32 = 32;

/// How many transfers a client makes.
const TRANSFERS: u32 = 5;

/// How often a transfer is tried if the store aborts it.
const ATTEMPTS: u32 = 1000;

/// Why a transaction cannot go on.
#[derive(Debug, Drop)]
pub enum TransferError {
    /// The store has aborted the transaction. It may start over.
    Aborted,
    /// The store does not accept the request, or is full.
    Refused(Refusal),
    /// The store was not asked.
    NotAsked(AskError),
}

/// Makes the transfers of a session, from its account to the next ones.
///
/// At an error it stops, and ends its transaction, since other clients may wait for it.
pub fn run_client<C: Chains, R: Wait>(rt: &R, hall: &Hall<C>, pass: &mut Pass<C>)
    requires { IsPassOf hall.now pass.old }
    ensures { IsPassOf hall.now pass.new × (pass.new.session ≡ pass.old.session) }
{
    let from = u32::from(pass.session().0) % ACCOUNTS;
    for i in 1..=TRANSFERS {
        if move_money(rt, hall, pass, from, (from + i) % ACCOUNTS).is_err() {
            let _ended = ask(rt, hall, pass, Request::End);
            return;
        }
    }
}

/// Moves 1 from one account to another, and starts over if the store aborts the transaction.
fn move_money<C: Chains, R: Wait>(
    rt: &R,
    hall: &Hall<C>,
    pass: &mut Pass<C>,
    from: u32,
    to: u32,
) -> Result<(), TransferError>
    requires { IsPassOf hall.now pass.old }
    ensures { IsPassOf hall.now pass.new × (pass.new.session ≡ pass.old.session) }
{
    for _ in 0..ATTEMPTS {
        match attempt(rt, hall, pass, from, to) {
            Err(TransferError::Aborted) => thread::yield_now(),
            done => return done,
        }
    }
    Err(TransferError::Aborted)
}

/// Makes one transaction. An error other than `Aborted` leaves it open.
fn attempt<C: Chains, R: Wait>(
    rt: &R,
    hall: &Hall<C>,
    pass: &mut Pass<C>,
    from: u32,
    to: u32,
) -> Result<(), TransferError>
    requires { IsPassOf hall.now pass.old }
    ensures { IsPassOf hall.now pass.new × (pass.new.session ≡ pass.old.session) }
{
    ask(rt, hall, pass, Request::Begin(TRANSFER))?;
    ask(rt, hall, pass, Request::Read(account(from)))?;
    ask(rt, hall, pass, Request::Add(account(from), -1))?;
    ask(rt, hall, pass, Request::Read(account(to)))?;
    ask(rt, hall, pass, Request::Add(account(to), 1))?;
    ask(rt, hall, pass, Request::Commit)?;
    Ok(())
}

/// Asks again until no older transaction is in the way.
fn ask<C: Chains, R: Wait>(
    rt: &R,
    hall: &Hall<C>,
    pass: &mut Pass<C>,
    request: Request,
) -> Result<Reply, TransferError>
    requires { IsPassOf hall.now pass.old }
    ensures { IsPassOf hall.now pass.new × (pass.new.session ≡ pass.old.session) }
{
    for _ in rt.forever() {
        match hall.ask(rt, pass, request) {
            Ok(Reply::Again { .. }) => thread::yield_now(),
            Ok(Reply::Aborted(_)) => return Err(TransferError::Aborted),
            Ok(Reply::Refused(why)) => return Err(TransferError::Refused(why)),
            Ok(reply) => return Ok(reply),
            Err(why) => return Err(TransferError::NotAsked(why)),
        }
    }
    unreachable!()
}

/// Returns the row of an account.
fn account(key: u32) -> Cell {
    Cell {
        table: Table(0),
        key,
    }
}
