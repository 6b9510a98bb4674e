//! The turns of the sessions.

ghost use Rattle.std.specs.Prelude.{◌≡◌, ◌+◌, ◌<◌, ◌≤◌, [], ◌∷◌, ◌++◌, All, IfOk, IfSome, IsTrue, List, OnErr, OnOk, Some, slice_get, take, drop, vec_len};
ghost use Rattle.teb_rules.specs.declared.names.Request.TheVariants.{Scan};
ghost use Rattle.script_text.specs.declared.Answered.{Answered};
ghost use Rattle.teb_rules.specs.Answer.{answer};
ghost use Rattle.teb_rules.specs.Driver.{Ascending, Follows, Seat, Turns, seat_after, seated};
ghost use Rattle.script_runner.specs.turns.Seats.{seats_in, scripts_on};
ghost use Rattle.script_runner.specs.turns.Rounds.{round_of};
ghost use Rattle.script_runner.specs.turns.Logged.{AreAnswers, IsMade};

use crate::turns::effect::Effect;
use crate::turns::ring::Ring;
use crate::turns::steps::Steps;
use answer_log::Log;
use engine_core::Engine;
use script_text::Scripts;
use std::alloc::{AllocError, Global};
use std::sync::ledger::Ledger;
use teb_rules::names::{Cell, Request, Session};
use version_chain::Chains;

/// Asks the sessions in turn, each along its script, until every script is done. The replies are added to the log, each with its
/// session, and `steps` counts the requests: at most 12 times the number of sessions times the number of lines plus one.
///
/// First it makes room for one event a line, so that the list of events seldom moves.
///
/// # Errors
/// Out of memory. The sessions have made some of their turns, and the log has the replies to those.
#[inline(never)]
pub fn turns<C: Chains, G: Log, L: Ledger>(
    alloc: Global,
    engine: &mut Engine<C>,
    scripts: &Scripts,
    log: &mut G,
    steps: &mut Steps<L>,
) -> Result<(), AllocError>
    requires new { engine.old.events ≡ [] }
    requires blank { G.tells log.old engine.old.names [] }
    requires ascending { Ascending 0 (scripts_on scripts.now) }
    ensures store { engine.new.store ≡ engine.old.store }
    ensures names { engine.new.names ≡ engine.old.names }
    ensures ok { OnOk result (AreAnswers (Turns engine.old.store (scripts_on scripts.now)) engine.old.store (scripts_on scripts.now)
        (G.tells log.new engine.old.names) engine.new.events steps.old steps.new) }
    ensures err { OnErr result (AreAnswers (Follows engine.old.store [] (seated (scripts_on scripts.now))) engine.old.store (scripts_on scripts.now)
        (G.tells log.new engine.old.names) engine.new.events steps.old steps.new) }
{
    prove!(engine.history().is_empty());
    let mut ring = Ring::new(alloc, scripts)?;
    engine.reserve_ahead(lines_in(scripts))?;
    while make_turn(engine, &mut ring, log)? {
        steps.tick();
    }
    Ok(())
}

/// Returns how many lines the scripts have. Room for this number of events is made ahead in the list of events. No clause speaks
/// of it, since `Engine::ready` makes any room that is missing.
fn lines_in(scripts: &Scripts) -> usize {
    let mut lines: usize = 0;
    for i in 0..scripts.len() {
        lines = lines.saturating_add(scripts.lines(i).len());
    }
    lines
}

/// Asks the session whose turn it is, and logs the reply. Returns false if every session is done. An error leaves the history and
/// what the log tells as they were.
#[inline(always)]
fn make_turn<C: Chains, G: Log>(
    engine: &mut Engine<C>,
    ring: &mut Ring<'_>,
    log: &mut G,
) -> Result<bool, AllocError>
    requires few { All (λ w. w.aborts ≤ 3) (seats_in ring.old.cursors.items) }
    ensures store { engine.new.store ≡ engine.old.store }
    ensures names { engine.new.names ≡ engine.old.names }
    ensures ok { IfOk result (λ asked. (told : List Answered) → G.tells log.old engine.old.names told
        → (tells : List Answered) × G.tells log.new engine.old.names tells × IsMade engine.old.store asked
        (record { history = engine.old.events; round = round_of ring.old }) told
        (record { history = engine.new.events; round = round_of ring.new }) tells) }
    ensures err { OnErr result ((engine.new.events ≡ engine.old.events)
        × ((told : List Answered) → G.tells log.old engine.old.names told → G.tells log.new engine.old.names told)) }
{
    let Some(asked) = ring.turn(engine.history()) else {
        return Ok(false);
    };
    log.ready(&engine.setup().names)?;
    engine.ready()?;
    match asked.request {
        Request::Scan { cell, count } => {
            ask_scan(engine, ring, log, asked.index, asked.session, *cell, *count);
        }
        _ => {
            let reply = &engine.ask_short(asked.session, asked.request);
            ring.take(asked.index, Effect::of(reply));
            log.add_short(&engine.setup().names, asked.session, reply);
        }
    }
    Ok(true)
}

/// Asks a scan for the session whose turn it is, and logs the reply. It is out of line, since scans are rare and their reply is
/// long.
#[inline(never)]
fn ask_scan<C: Chains, G: Log>(
    engine: &mut Engine<C>,
    ring: &mut Ring<'_>,
    log: &mut G,
    index: usize,
    session: Session,
    cell: Cell,
    count: u8,
)
    requires ready { IsTrue engine.old.ready }
    requires room { G.has_room log.old }
    requires within { index < vec_len ring.old.cursors }
    requires few { IfSome (slice_get (seats_in ring.old.cursors.items) index) (λ w. w.aborts ≤ 3) }
    ensures store { engine.new.store ≡ engine.old.store }
    ensures names { engine.new.names ≡ engine.old.names }
    ensures events { engine.new.events ≡ (answer engine.old.store engine.old.events session (Scan cell count)).1 }
    ensures log { (told : List Answered) → G.tells log.old engine.old.names told → G.tells log.new engine.old.names
        (told ++ record { session = session; reply = (answer engine.old.store engine.old.events session (Scan cell count)).0 } ∷ []) }
    ensures round { (w : Seat) → slice_get (seats_in ring.old.cursors.items) index ≡ Some w → round_of ring.new
        ≡ drop (index + 1) (seats_in ring.old.cursors.items) ++ take index (seats_in ring.old.cursors.items)
        ++ seat_after w (answer engine.old.store engine.old.events session (Scan cell count)).0 ∷ [] }
{
    let reply = &engine.ask(session, Request::Scan { cell, count });
    ring.take(index, Effect::of_full(reply));
    log.add(&engine.setup().names, session, reply);
}
