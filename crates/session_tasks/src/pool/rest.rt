//! What the workers have taken, and what is left.

ghost use Rattle.std.specs.Prelude.{◌≡◌, ℕ, ◌+◌, ◌-◌, ◌<◌, [], true, All, map, length, IfOk, OnOk, vec_len};
ghost use Rattle.turn_lock.specs.Counts.{total};
ghost use Rattle.crossbeam_queue.specs.Passes.{view, IsPassOf};
ghost use Rattle.session_tasks.specs.Tasks.{IsTask};
ghost use Rattle.session_tasks.specs.pool.Hands.{IsFirst, taken_in, weight_of};
ghost use Rattle.session_tasks.specs.pool.Rising.{Rising};
ghost use Rattle.session_tasks.specs.pool.Suits.{Suits};
ghost use Rattle.session_tasks.specs.pool.Tallies.{IsWhole, tally};
ghost use Rattle.session_tasks.specs.pool.Workers.{HasToken};

use crate::pool::queue::{Roster, SessionQueue, Token};
use crate::pool::steps::{TakeRest, Whole};
use crate::pool::worker::Worker;
use crate::{Gate, Run, Task};
use std::alloc::{AllocError, Global};
use std::collections::VecDeque;
use std::sync::Wait;
use version_chain::Chains;

/// Returns the hands of the workers. Their tokens go into this one, which is then the only one, and knows what is in all hands.
pub(crate) fn dismiss<C: Chains, J: Roster>(
    alloc: Global,
    line: &SessionQueue<C, J>,
    token: &mut Token<C>,
    workers: Vec<Worker<C>>,
) -> Result<Vec<Vec<Task<C>>>, AllocError>
    requires token { IsPassOf line.now token.old × (view token.old ≡ tally (256 - vec_len workers) true (length J.numbers) []) }
    requires few { vec_len workers < 256 }
    requires workers { All (HasToken line.now) workers.items }
    ensures token { IsPassOf line.now token.new }
    ensures whole { OnOk result (IsWhole (length J.numbers) (view token.new)) }
    ensures hands { IfOk result (λ v. v.items ≡ map (λ w. w.hand) workers.items) }
    ensures shared { IfOk result (λ v. (weight : ℕ → ℕ) → weight_of weight v.items ≡ total weight (view token.new).taken) }
{
    let mut hands = Vec::with_capacity(alloc, workers.len())?;
    let mut workers = VecDeque::from(workers);
    while let Some(worker) = workers.pop_front() {
        line.absorb::<Whole>(token, worker.token);
        hands.push_reserved(worker.hand);
    }
    Ok(hands)
}

/// Takes what is left in the queue into a hand, and begins it. The token is the only one left.
pub(crate) fn take_rest<C: Chains, G: Gate, J: Roster, R: Wait>(
    rt: &R,
    run: &Run<'_, C, G>,
    line: &SessionQueue<C, J>,
    token: &mut Token<C>,
    hand: &mut Vec<Task<C>>,
)
    requires suits { Suits run.now.hall.now J.numbers J.hall }
    requires token { IsPassOf line.now token.old × IsWhole (length J.numbers) (view token.old) }
    requires first { IsFirst run.now.hall.now run.now.scripts.now hand.old (view token.old) }
    ensures tasks { All (IsTask run.now.hall.now run.now.scripts.now) hand.new.items }
    ensures rising { Rising 0 (taken_in hand.new) }
    ensures rest { (weight : ℕ → ℕ) → total weight (taken_in hand.new) + total weight (view token.old).taken ≡ total weight (taken_in hand.old) + total weight J.numbers }
{
    while let Some(next) = line.pop_as::<TakeRest<J>, R>(rt, token) {
        hand.push_reserved(run.begin(next.pass));
    }
}
