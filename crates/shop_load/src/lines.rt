//! The generated load: transactions of a shop, from a seed.

ghost use Rattle.std.specs.Prelude.{◌≡◌, ◌+◌, ◌*◌, ◌^◌, ◌<◌, ◌≤◌, ◌++◌, length, IfOk, OnOk, vec_len};
ghost use Rattle.shop_load.specs.declared.lines.TheConstants.{MOST_LINES, MOST_SIZE};
ghost use Rattle.shop_load.specs.Loads.{next_state, drawn_from, key_from, session_of, begin, report, new_order, payment, delivery, requests_from, asked_by, numbered, loaded_lines};

use crate::shop::{ACCOUNTS, KEYS, ORDERS, STOCK};
use script_text::Line;
use std::alloc::{AllocError, Global};
use teb_rules::names::{Cell, Kind, Request, Session, Spot, Table};

const REPORT: Kind = Kind(0);

const NEW_ORDER: Kind = Kind(1);

const PAYMENT: Kind = Kind(2);

const DELIVERY: Kind = Kind(3);

/// The sessions, which take the transactions in turn.
const SESSIONS: u32 = 8;

/// The most transactions of a load.
pub const MOST_SIZE: u32 = 2_000;

/// The most lines of one transaction. Room is made at once for this number of lines for each.
const MOST_LINES: usize = 5;

/// The next state is `(MULTIPLIER * state + INCREMENT) % MODULUS`.
const MULTIPLIER: u64 = 1_103_515_245;

const INCREMENT: u64 = 12_345;

const MODULUS: u64 = 1 << 31;

/// A draw is the state divided by this number: the upper 15 bits of 31.
const DRAW_DIVISOR: u32 = 1 << 16;

/// Returns the lines of `size` transactions of eight sessions, generated from a seed: reports, new orders, payments and
/// deliveries on the tables stock 0, orders 1 and accounts 2, keys 1 to 16. The lines are numbered from 1.
///
/// # Errors
/// `AllocError`: out of memory.
pub fn loaded_lines(alloc: Global, number: u32, size: u32) -> Result<Vec<Line>, AllocError>
    requires number { number < 2 ^ 31 }
    requires size { size ≤ MOST_SIZE }
    ensures { IfOk result (λ v. v.items ≡ loaded_lines number size) }
{
    let mut lines = Vec::with_capacity(alloc, MOST_LINES * size as usize)?;
    let mut draws = Draws { state: number };
    for i in 0..size {
        add_transaction(&mut lines, &mut draws, i)?;
    }
    Ok(lines)
}

/// The sequence of numbers that a seed determines.
#[derive(Drop)]
struct Draws {
    state: u32,
    ghost below: { state < 2 ^ 31 },
}

impl Draws {
    /// Returns the next number, 0 to 32,767.
    fn draw(&mut self) -> u32
        ensures state { self.new.state ≡ next_state self.old.state }
        ensures drawn { result ≡ drawn_from self.old.state }
    {
        let next = (MULTIPLIER * u64::from(self.state) + INCREMENT) % MODULUS;
        self.state = next as u32;
        self.state / DRAW_DIVISOR
    }

    /// Returns a key, 1 to 16.
    fn key(&mut self) -> u32
        ensures state { self.new.state ≡ next_state self.old.state }
        ensures drawn { result ≡ key_from self.old.state }
    {
        1 + self.draw() % KEYS
    }
}

/// Adds the lines of transaction i.
fn add_transaction(lines: &mut Vec<Line>, draws: &mut Draws, i: u32) -> Result<(), AllocError>
    requires few { i < MOST_SIZE }
    requires room { vec_len lines.old ≤ MOST_LINES * MOST_SIZE }
    ensures state { draws.new.state ≡ next_state (next_state (next_state draws.old.state)) }
    ensures lines { OnOk result (lines.new.items ≡ lines.old.items
        ++ numbered (vec_len lines.old + 1) (asked_by (session_of i) (requests_from draws.old.state i))) }
{
    let kind = draws.draw() % 4;
    let a = draws.key();
    let b = draws.key();
    let session = Session(1 + (i % SESSIONS) as u8);
    match kind {
        0 => add_requests(lines, session, &report(a, b)),
        1 => add_requests(lines, session, &new_order(i, a, b)),
        2 => add_requests(lines, session, &payment(a, b)),
        _ => add_requests(lines, session, &delivery(a, b)),
    }
}

/// Adds a line of the session for each request.
fn add_requests(
    lines: &mut Vec<Line>,
    session: Session,
    requests: &[Request],
) -> Result<(), AllocError>
    requires { vec_len lines.old + length requests.now < 2 ^ 32 }
    ensures { OnOk result (lines.new.items ≡ lines.old.items ++ numbered (vec_len lines.old + 1) (asked_by session requests.now)) }
{
    for request in requests {
        let number = lines.len() as u32 + 1;
        lines.push(Line {
            number,
            session,
            request: *request,
        })?;
    }
    Ok(())
}

fn report(a: u32, b: u32) -> [Request; 4]
    ensures { result ≡ report a b }
{
    [
        begin(REPORT),
        Request::Read(cell(STOCK, a)),
        Request::Read(cell(ORDERS, b)),
        Request::Commit,
    ]
}

fn new_order(i: u32, a: u32, b: u32) -> [Request; 5]
    ensures { result ≡ new_order i a b }
{
    [
        begin(NEW_ORDER),
        Request::Read(cell(STOCK, a)),
        Request::Add(cell(STOCK, a), -1),
        Request::Write(cell(ORDERS, b), i64::from(i) + 1),
        Request::Commit,
    ]
}

fn payment(a: u32, b: u32) -> [Request; 5]
    ensures { result ≡ payment a b }
{
    [
        begin(PAYMENT),
        Request::Read(cell(ACCOUNTS, a)),
        Request::Add(cell(ACCOUNTS, a), -5),
        Request::Read(cell(ORDERS, b)),
        Request::Commit,
    ]
}

fn delivery(a: u32, b: u32) -> [Request; 5]
    ensures { result ≡ delivery a b }
{
    [
        begin(DELIVERY),
        Request::Read(cell(ORDERS, a)),
        Request::Read(cell(ACCOUNTS, b)),
        Request::Add(cell(ACCOUNTS, b), 5),
        Request::Commit,
    ]
}

fn begin(kind: Kind) -> Request
    ensures { result ≡ begin kind.0 }
{
    Request::Begin(Spot { kind, instance: 0 })
}

fn cell(table: Table, key: u32) -> Cell
    ensures { result ≡ record { table = table; key = key } }
{
    Cell { table, key }
}
