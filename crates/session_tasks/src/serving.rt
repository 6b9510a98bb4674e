//! A session along its script.

ghost use Rattle.std.specs.Prelude.{◌≡◌, ◌≢◌, ◌+◌, ◌<◌, ◌≤◌, Ok, Err, Some, true, false, IfOk};
ghost use Rattle.std.specs.Option.{IsSome};
ghost use Rattle.teb_rules.specs.Scripts.{IsWalk, asks};
ghost use Rattle.script_walk.specs.ScriptStates.{requests_on, state_of};
ghost use Rattle.finish_board.specs.declared.answer.Poll.TheVariants.{Unfinished};
ghost use Rattle.session_server.specs.Passes.{IsPassOf, known, looked, mine};
ghost use Rattle.session_tasks.specs.Looks.{LookedInVain};
ghost use Rattle.session_tasks.specs.declared.serving.TheConstants.{LOOKS};
ghost use Rattle.session_tasks.specs.Walks.{IsUnderWay, number_at};
ghost use Rattle.session_tasks.specs.Stops.{FoundRaised, FoundClear};
ghost use Rattle.session_server.specs.Waits.{WaitsAmong};
ghost use Rattle.session_server.specs.declared.error.AskError.TheVariants.{PassSpent, OutOfMemory};

use crate::gate::Gate;
use crate::stop::is_raised;
use script_text::Line;
use script_walk::Walker;
use session_server::{AskError, Hall, MOST_ASKS, Pass, Poll};
use std::sync::Wait;
use std::sync::atomic::{AtomicIn, AtomicU64, Rule};
use std::time::Duration;
use teb_rules::names::{MOST_TXNS, Reply, Request, Txn};
use version_chain::Chains;

/// How often a session looks at the transaction that it waits for before it asks again.
const LOOKS: u32 = 64;

/// How long it rests between two looks, in microseconds.
const REST: u64 = 50;

/// Serves a session from its walker's line on. `Ok(true)` says that all its lines are done.
///
/// If there is a stop word, it is looked at before each request. `Ok(false)` says that such a look found that it is not 0;
/// nothing is asked unless a look found 0. The word may have any rule, so only a look can tell. A call with another stop word, or
/// with none, goes on from there. After an Again the session looks at the transaction that it waits for until that has finished,
/// at most 64 times, and then asks again.
///
/// # Errors
/// The first error of [`Hall::ask`]: `PassSpent` if the pass has asked `MOST_ASKS` times; `OutOfMemory` only if it has asked at
/// this call. The pass and the walker keep what was answered before.
#[tactic(auto, using(crate::proofs::Walking::walk_ends, crate::proofs::Walking::walk_same))]
pub fn serve<C: Chains, G: Gate, S: Rule, R: Wait>(
    rt: &R,
    hall: &Hall<C>,
    pass: &mut Pass<C>,
    lines: &[Line],
    walker: &mut Walker,
    stop: Option<&AtomicIn<S>>,
    gate: &G,
) -> Result<bool, AskError>
    requires pass { IsPassOf hall.now pass.old }
    requires way { IsUnderWay lines.now (mine pass.old) walker.old }
    ensures pass { IsPassOf hall.now pass.new × (pass.new.session ≡ pass.old.session) }
    ensures way { IsUnderWay lines.now (mine pass.new) walker.new }
    ensures walk { result ≡ Ok true → IsWalk (requests_on lines.now) (mine pass.new) }
    ensures stopped { result ≡ Ok false → IsSome stop.entry × FoundRaised S.invariant }
    ensures looked { IsSome stop.entry → pass.new.asks ≢ pass.old.asks → FoundClear S.invariant }
    ensures spent { result ≡ Err PassSpent → pass.new.asks ≡ MOST_ASKS }
    ensures memory { result ≡ Err OutOfMemory → pass.old.asks < pass.new.asks }
{
    for _ in rt.forever() {
        let Some(request) = walker.next(lines) else {
            return Ok(true);
        };
        if is_raised(stop) {
            return Ok(false);
        }
        match ask_next(rt, hall, pass, lines, walker, request, gate) {
            Ok(Reply::Again { who, .. }) => look_for(rt, hall, pass, who),
            Ok(_) => {}
            Err(error) => return Err(error),
        }
    }
    unreachable!()
}

/// Asks what the session asks next, and takes the reply.
fn ask_next<C: Chains, G: Gate, R: Wait>(
    rt: &R,
    hall: &Hall<C>,
    pass: &mut Pass<C>,
    lines: &[Line],
    walker: &mut Walker,
    request: &Request,
    gate: &G,
) -> Result<Reply, AskError>
    requires pass { IsPassOf hall.now pass.old }
    requires way { IsUnderWay lines.now (mine pass.old) walker.old }
    requires next { asks (state_of lines.now walker.old) ≡ Some request.now }
    ensures pass { IsPassOf hall.now pass.new × (pass.new.session ≡ pass.old.session) }
    ensures way { IsUnderWay lines.now (mine pass.new) walker.new }
    ensures waits { IfOk result (WaitsAmong MOST_TXNS) }
    ensures asks { pass.old.asks ≤ pass.new.asks }
    ensures spent { result ≡ Err PassSpent → pass.new.asks ≡ MOST_ASKS }
    ensures memory { result ≡ Err OutOfMemory → pass.new.asks ≡ pass.old.asks + 1 }
{
    let number = number_at(walker, lines);
    let session = pass.session();
    gate.before(session, number);
    match hall.ask(rt, pass, *request) {
        Ok(reply) => {
            gate.after(session, number);
            walker.take(lines, &reply);
            Ok(reply)
        }
        Err(error) => {
            gate.after(session, number);
            Err(error)
        }
    }
}

/// Returns the number of the walker's line, or 0 after the last.
fn number_at(walker: &Walker, lines: &[Line]) -> u32
    ensures { result ≡ number_at walker.now lines.now }
{
    match lines.get(walker.at) {
        Some(line) => line.number,
        None => 0,
    }
}

/// Looks at a transaction until it has finished, at most 64 times, and rests after each look. If the pass does not know then that it
/// has, each of the 64 looks found that it had not.
#[tactic(auto, using(crate::proofs::Walking::mine_same))]
fn look_for<C: Chains, R: Wait>(rt: &R, hall: &Hall<C>, pass: &mut Pass<C>, who: Txn)
    requires pass { IsPassOf hall.now pass.old }
    requires who { (1 ≤ who.0) × (who.0 ≤ MOST_TXNS) }
    ensures pass { IsPassOf hall.now pass.new × (pass.new.session ≡ pass.old.session) × (pass.new.asks ≡ pass.old.asks) }
    ensures mine { mine pass.new ≡ mine pass.old }
    ensures looks { known pass.new who.0 ≡ Unfinished → LookedInVain who.0 LOOKS (looked pass.old) (looked pass.new) }
{
    // Nobody wakes it: a rest ends with its time.
    let word = AtomicU64::new(0);
    for _ in 0..LOOKS {
        if let Poll::Finished(_) = hall.poll(pass, who) {
            return;
        }
        word.park_timeout(rt, 0, Duration::from_micros(REST));
    }
}
