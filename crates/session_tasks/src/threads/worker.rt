//! The workers.

ghost use Rattle.std.specs.Prelude.{ℕ, ◌<◌, All, map, length, slice_index_or};
ghost use Rattle.session_tasks.specs.Tasks.{IsTask, AreTasks, number_in};

use crate::{Gate, Run, Stops, Task};
use std::sync::Wait;
use std::sync::atomic::AtomicIn;
use std::thread;
use std::thread::Threads;
use version_chain::Chains;

/// Serves the tasks of each hand, each hand in a thread.
pub(crate) fn work<C: Chains + Send, G: Gate + Sync, R: Threads + Wait + Sync>(
    run: &Run<'_, C, G>,
    rt: &R,
    hands: &mut [Vec<Task<C>>],
)
    requires some { 0 < length hands.old }
    requires tasks { All (λ v. All (IsTask run.now.hall.now run.now.scripts.now) v.items) hands.old }
    ensures { (i : ℕ) (d : _) → i < length hands.old → AreTasks run.now.hall.now run.now.scripts.now (map number_in (slice_index_or hands.old i d).items) (slice_index_or hands.new i d).items }
{
    let stop = AtomicIn::<Stops>::new(0);
    let threads = hands.len();
    thread::for_each_mut(
        rt,
        hands,
        threads,
        &|_, hand| serve_hand(run, rt, hand, &stop),
    );
}

/// Serves the tasks of a hand, from the top down, until one is stopped or meets an error.
fn serve_hand<C: Chains, G: Gate, R: Wait>(
    run: &Run<'_, C, G>,
    rt: &R,
    hand: &mut Vec<Task<C>>,
    stop: &AtomicIn<Stops>,
)
    requires { All (IsTask run.now.hall.now run.now.scripts.now) hand.old.items }
    ensures { AreTasks run.now.hall.now run.now.scripts.now (map number_in hand.old.items) hand.new.items }
{
    for i in (0..hand.len()).rev() {
        if !run.serve(rt, &mut hand[i], stop) {
            return;
        }
    }
}
