//! An engine that is asked the list of requests.

ghost use Rattle.std.specs.Prelude.{◌≡◌, [], IfOk, IsTrue};

use crate::error::TrialError;
use crate::lent::lent;
use crate::plan::{MIDST, READER, SALE, SOLD, TREE, requests};
use crate::refusing::Refusing;
use crate::room::make_room;
use chain_pool::PooledChains;
use engine_core::Engine;
use std::alloc::{AllocError, Global};
use std::fmt::Write;
use teb_rules::names::{Request, Session};
use tree_toml::read_tree;
use version_chain::Chains;

/// Returns the replies to the requests, and what is lent before the last two and at the end. The requests follow a transaction of
/// `before` events. The versions refuse room once, after `served` calls, or never.
///
/// # Errors
/// `Memory`: out of memory. `Changed` if a refused call changes what is lent, or if room is refused and should not be, or the
/// reverse.
pub fn engine_text(
    alloc: Global,
    before: usize,
    served: Option<usize>,
) -> Result<String, TrialError> {
    let mut engine = trial_engine(alloc, served)?;
    read_before(&mut engine, before)?;
    let mut text = String::new(alloc);
    for (i, (session, request)) in requests().into_iter().enumerate() {
        if i == MIDST {
            text.push_str(&lent(alloc, &engine)?)?;
        }
        make_room(alloc, &mut engine)?;
        write_reply(&mut text, &mut engine, session, request)?;
    }
    text.push_str(&lent(alloc, &engine)?)?;
    if engine.chains().has_refused() == served.is_some() {
        Ok(text)
    } else {
        Err(TrialError::Changed)
    }
}

/// More events than there is room for at a time.
const MOST_EVENTS: usize = 8192;

/// Returns an engine that was asked nothing yet.
///
/// # Errors
/// `Memory`: out of memory.
pub fn trial_engine(
    alloc: Global,
    served: Option<usize>,
) -> Result<Engine<Refusing<PooledChains>>, TrialError>
    ensures { IfOk result (λ e. e.events ≡ []) }
{
    let Ok(setup) = read_tree(alloc, TREE) else {
        return Err(TrialError::Memory);
    };
    let chains = Refusing::after(served, PooledChains::new(alloc));
    Ok(Engine::new(alloc, setup, chains)?)
}

/// Returns how many events an engine writes until it asks the versions for room a second time.
///
/// # Errors
/// `Memory`: out of memory. `Changed` if it does not ask a second time.
pub fn events_of_room(alloc: Global) -> Result<usize, TrialError> {
    let mut engine = trial_engine(alloc, None)?;
    answer(&mut engine, Request::Begin(SALE))?;
    for events in 1..MOST_EVENTS {
        answer(&mut engine, Request::Read(SOLD))?;
        if engine.chains().calls() > 1 {
            return Ok(events);
        }
    }
    Err(TrialError::Changed)
}

/// Makes a transaction of this many events that reads and is aborted; none for fewer than two.
fn read_before<C: Chains>(engine: &mut Engine<C>, events: usize) -> Result<(), TrialError> {
    if events < 2 {
        return Ok(());
    }
    answer(engine, Request::Begin(SALE))?;
    for _ in 2..events {
        answer(engine, Request::Read(SOLD))?;
    }
    answer(engine, Request::End)
}

/// Asks for a session that makes none of the requests.
fn answer<C: Chains>(engine: &mut Engine<C>, request: Request) -> Result<(), TrialError> {
    engine.ready()?;
    let _reply = engine.ask(READER, request);
    Ok(())
}

fn write_reply<C: Chains>(
    text: &mut String,
    engine: &mut Engine<C>,
    session: Session,
    request: Request,
) -> Result<(), AllocError>
    requires { IsTrue engine.old.ready }
{
    let reply = engine.ask(session, request);
    writeln!(text, "{} {request:?}: {reply:?}", session.0)
}
