//! A hall that two sessions ask.

ghost use Rattle.std.specs.Prelude.{◌≡◌, All, map};
ghost use Rattle.teb_rules.specs.history.Phases.{numbers};
ghost use Rattle.session_server.specs.Passes.{IsPassOf, IsNew, number_of};

use crate::engine_trial::trial_engine;
use crate::error::TrialError;
use crate::lent::lent;
use crate::plan::{REPORT, SALE, SOLD};
use crate::refusing::Refusing;
use crate::room::ATTEMPTS;
use chain_pool::PooledChains;
use engine_core::Engine;
use session_server::{AskError, Entries, Hall, Pass};
use std::alloc::Global;
use std::fmt::Write;
use std::sync::Wait;
use teb_rules::names::{Request, SESSIONS, Txn};
use version_chain::Chains;

/// How many events precede the last of the requests.
pub const HALL_EVENTS: usize = 5;

type Tried = Refusing<PooledChains>;

/// Returns the entries of a closed hall, and what its engine lends. The requests follow a transaction of `before` events. The
/// versions refuse room once, after `served` calls, or never.
///
/// # Errors
/// `Memory`: out of memory. `Changed` if a refused call changes what its pass knows, or if room is refused and should not be,
/// or the reverse.
pub fn hall_text<R: Wait>(
    rt: &R,
    alloc: Global,
    before: usize,
    served: Option<usize>,
) -> Result<String, TrialError> {
    let Ok((hall, passes)) = Hall::make(alloc, trial_engine(alloc, served)?) else {
        return Err(TrialError::Memory);
    };
    let (engine, entries) = closed_after(rt, hall, passes, before)?;
    let mut text = String::new(alloc);
    for i in 0..entries.len() {
        writeln!(text, "{:?}", entries.at(i))?;
    }
    text.push_str(&lent(alloc, &engine)?)?;
    if engine.chains().has_refused() == served.is_some() {
        Ok(text)
    } else {
        Err(TrialError::Changed)
    }
}

/// Returns the engine and the entries, after the sessions 31 and 32 have asked.
fn closed_after<R: Wait>(
    rt: &R,
    hall: Hall<Tried>,
    mut passes: Vec<Pass<Tried>>,
    before: usize,
) -> Result<(Engine<Tried>, Entries), TrialError>
    requires new { All (IsNew hall) passes.items }
    requires sessions { map number_of passes.items ≡ numbers SESSIONS }
{
    let Some(mut reader) = passes.pop() else {
        return Err(TrialError::Changed);
    };
    let Some(mut writer) = passes.pop() else {
        return Err(TrialError::Changed);
    };
    read_before(rt, &hall, &mut writer, before)?;
    write_and_read(rt, &hall, &mut writer, &mut reader)?;
    passes.push_reserved(writer);
    passes.push_reserved(reader);
    Ok(hall.close(passes))
}

/// Makes a transaction of this many events that reads and is aborted; none for fewer than two.
fn read_before<C: Chains, R: Wait>(
    rt: &R,
    hall: &Hall<C>,
    pass: &mut Pass<C>,
    events: usize,
) -> Result<(), TrialError>
    requires { IsPassOf hall.now pass.old }
    ensures { IsPassOf hall.now pass.new × (pass.new.session ≡ pass.old.session) }
{
    if events < 2 {
        return Ok(());
    }
    ask(rt, hall, pass, Request::Begin(SALE))?;
    for _ in 2..events {
        ask(rt, hall, pass, Request::Read(SOLD))?;
    }
    ask(rt, hall, pass, Request::End)
}

/// Writes a sale beside a report, which does not see it.
fn write_and_read<C: Chains, R: Wait>(
    rt: &R,
    hall: &Hall<C>,
    writer: &mut Pass<C>,
    reader: &mut Pass<C>,
) -> Result<(), TrialError>
    requires writer { IsPassOf hall.now writer.old }
    requires reader { IsPassOf hall.now reader.old }
    ensures writer { IsPassOf hall.now writer.new × (writer.new.session ≡ writer.old.session) }
    ensures reader { IsPassOf hall.now reader.new × (reader.new.session ≡ reader.old.session) }
{
    ask(rt, hall, writer, Request::Begin(SALE))?;
    ask(rt, hall, writer, Request::Write(SOLD, 5))?;
    ask(rt, hall, reader, Request::Begin(REPORT))?;
    ask(rt, hall, reader, Request::Read(SOLD))?;
    ask(rt, hall, writer, Request::Commit)?;
    ask(rt, hall, reader, Request::Commit)
}

/// Asks until there is room. If there is none, what the pass knows of the first transaction must stay.
fn ask<C: Chains, R: Wait>(
    rt: &R,
    hall: &Hall<C>,
    pass: &mut Pass<C>,
    request: Request,
) -> Result<(), TrialError>
    requires { IsPassOf hall.now pass.old }
    ensures { IsPassOf hall.now pass.new × (pass.new.session ≡ pass.old.session) }
{
    let known = hall.poll(pass, Txn(1));
    for _ in 0..ATTEMPTS {
        match hall.ask(rt, pass, request) {
            Ok(_) => return Ok(()),
            Err(AskError::PassSpent) => return Err(TrialError::Changed),
            Err(AskError::OutOfMemory) => {
                if hall.poll(pass, Txn(1)) != known {
                    return Err(TrialError::Changed);
                }
            }
        }
    }
    Err(TrialError::Memory)
}
