//! How the queue is filled.

ghost use Rattle.std.specs.Prelude.{◌≡◌, [], true, length};
ghost use Rattle.crossbeam_queue.specs.Passes.{view, IsPassOf, ruled_capacity};
ghost use Rattle.session_tasks.specs.pool.Suits.{AreOnRoster};
ghost use Rattle.session_tasks.specs.pool.Tallies.{tally};

use crate::pool::queue::{Roster, SessionQueue, Token};
use crate::pool::steps::Put;
use crate::pool::waiting::Waiting;
use std::collections::VecDeque;
use std::sync::Wait;
use version_chain::Chains;

/// Pushes the sessions, in order.
pub(crate) fn fill<C: Chains, J: Roster, R: Wait>(
    rt: &R,
    line: &SessionQueue<C, J>,
    token: &mut Token<C>,
    mut waiting: VecDeque<Waiting<C>>,
)
    requires token { IsPassOf line.now token.old × (view token.old ≡ tally 256 true 0 []) }
    requires room { ruled_capacity line.now ≡ length J.numbers }
    requires roster { AreOnRoster waiting.items J.numbers J.hall }
    ensures token { IsPassOf line.now token.new × (view token.new ≡ tally 256 true (length J.numbers) []) }
{
    while let Some(next) = waiting.pop_front() {
        match line.push_as::<Put, R>(rt, token, next) {
            Ok(()) => {}
            Err(_) => unreachable!(),
        }
    }
}
