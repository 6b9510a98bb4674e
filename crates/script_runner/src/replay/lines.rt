//! The requests of a script, in order.

ghost use Rattle.std.specs.Prelude.{◌≡◌, ◌<◌, ◌≤◌, ◌++◌, ◌∷◌, [], IsTrue, List, OnErr, OnOk, length};
ghost use Rattle.teb_rules.specs.Answer.{answer};
ghost use Rattle.teb_rules.specs.Run.{history_after};
ghost use Rattle.script_text.specs.declared.Answered.{Answered};
ghost use Rattle.script_runner.specs.replay.Logs.{log_of, requests_of};

use answer_log::Log;
use engine_core::Engine;
use script_text::Line;
use std::alloc::AllocError;
use teb_rules::names::{Request, Session};
use version_chain::Chains;

/// How many lines are copied together.
const NEAR: usize = 64;

/// Asks each line, and logs the replies. First it makes room for one event a line, so that the list of events need not move.
/// Scans add more events than that: `Engine::ready` makes any room that is missing, and no clause speaks of it.
///
/// # Errors
/// `AllocError`: out of memory. The first lines may have been asked, with their replies in the log.
pub fn ask_lines<C: Chains, L: Log>(
    engine: &mut Engine<C>,
    lines: &[Line],
    log: &mut L,
) -> Result<(), AllocError>
    ensures store { engine.new.store ≡ engine.old.store }
    ensures names { engine.new.names ≡ engine.old.names }
    ensures log { OnOk result ((told : List Answered) → L.tells log.old engine.old.names told
        → L.tells log.new engine.old.names (told ++ log_of engine.old.store engine.old.events (requests_of lines.now))) }
    ensures events { OnOk result (engine.new.events ≡ history_after engine.old.store engine.old.events (requests_of lines.now)) }
{
    engine.reserve_ahead(lines.len())?;
    if lines.is_empty() {
        return Ok(());
    }
    let mut near = [lines[0]; NEAR];
    for piece in lines.chunks(NEAR) {
        ask_piece(engine, &mut near, piece, log)?;
    }
    Ok(())
}

/// Asks each of at most `NEAR` lines, and logs the replies. It copies them to `near` first: serving a request evicts the next
/// line of a long list from the cache.
fn ask_piece<C: Chains, L: Log>(
    engine: &mut Engine<C>,
    near: &mut [Line; NEAR],
    piece: &[Line],
    log: &mut L,
) -> Result<(), AllocError>
    requires fits { length piece.now ≤ 64 }
    ensures store { engine.new.store ≡ engine.old.store }
    ensures names { engine.new.names ≡ engine.old.names }
    ensures log { OnOk result ((told : List Answered) → L.tells log.old engine.old.names told
        → L.tells log.new engine.old.names (told ++ log_of engine.old.store engine.old.events (requests_of piece.now))) }
    ensures events { OnOk result (engine.new.events ≡ history_after engine.old.store engine.old.events (requests_of piece.now)) }
{
    let near = &mut near[..piece.len()];
    near.copy_from_slice(piece);
    ask_each(engine, near, log)
}

/// Asks each line, and logs the replies.
fn ask_each<C: Chains, L: Log>(
    engine: &mut Engine<C>,
    lines: &[Line],
    log: &mut L,
) -> Result<(), AllocError>
    ensures store { engine.new.store ≡ engine.old.store }
    ensures names { engine.new.names ≡ engine.old.names }
    ensures log { OnOk result ((told : List Answered) → L.tells log.old engine.old.names told
        → L.tells log.new engine.old.names (told ++ log_of engine.old.store engine.old.events (requests_of lines.now))) }
    ensures events { OnOk result (engine.new.events ≡ history_after engine.old.store engine.old.events (requests_of lines.now)) }
{
    for line in lines {
        ask(engine, line.session, &line.request, log)?;
    }
    Ok(())
}

/// Asks one request, and logs the reply.
///
/// # Errors
/// `AllocError`: out of memory. Nothing was asked or logged.
pub fn ask<C: Chains, L: Log>(
    engine: &mut Engine<C>,
    session: Session,
    request: &Request,
    log: &mut L,
) -> Result<(), AllocError>
    ensures store { engine.new.store ≡ engine.old.store }
    ensures names { engine.new.names ≡ engine.old.names }
    ensures log { OnOk result ((told : List Answered) → L.tells log.old engine.old.names told → L.tells log.new engine.old.names
        (told ++ record { session = session; reply = (answer engine.old.store engine.old.events session request.now).0 } ∷ [])) }
    ensures events { OnOk result (engine.new.events ≡ (answer engine.old.store engine.old.events session request.now).1) }
    ensures err { OnErr result ((engine.new.events ≡ engine.old.events)
        × ((told : List Answered) → L.tells log.old engine.old.names told → L.tells log.new engine.old.names told)) }
{
    log.ready(&engine.setup().names)?;
    engine.ready()?;
    match request {
        Request::Scan { .. } => ask_scan(engine, session, *request, log),
        _ => {
            let reply = &engine.ask_short(session, request);
            log.add_short(&engine.setup().names, session, reply);
        }
    }
    Ok(())
}

/// Asks a scan, and logs the reply. It is out of line, since scans are rare and their reply is long.
#[inline(never)]
fn ask_scan<C: Chains, L: Log>(
    engine: &mut Engine<C>,
    session: Session,
    request: Request,
    log: &mut L,
)
    requires ready { IsTrue engine.old.ready }
    requires room { L.has_room log.old }
    ensures store { engine.new.store ≡ engine.old.store }
    ensures names { engine.new.names ≡ engine.old.names }
    ensures log { (told : List Answered) → L.tells log.old engine.old.names told → L.tells log.new engine.old.names
        (told ++ record { session = session; reply = (answer engine.old.store engine.old.events session request).0 } ∷ []) }
    ensures events { engine.new.events ≡ (answer engine.old.store engine.old.events session request).1 }
{
    let reply = &engine.ask(session, request);
    log.add(&engine.setup().names, session, reply);
}
