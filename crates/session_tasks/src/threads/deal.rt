//! How the sessions are divided among the workers.

ghost use Rattle.std.specs.Prelude.{◌<◌, IfOk};
ghost use Rattle.teb_rules.specs.history.Phases.{numbers};
ghost use Rattle.session_tasks.specs.threads.Hands.{AreDealt};

use crate::threads::hand::hand_of;
use crate::{Gate, Start, Task, empty_hands};
use std::alloc::{AllocError, Global};
use teb_rules::names::SESSIONS;
use version_chain::Chains;

/// Begins a task for each pass, and deals them into this number of hands, the last session first.
pub(crate) fn deal<C: Chains, G: Gate>(
    start: Start<'_, C, G>,
    alloc: Global,
    workers: usize,
) -> Result<Vec<Vec<Task<C>>>, AllocError>
    requires { 0 < workers }
    ensures { IfOk result (λ v. AreDealt start.entry.run.now.hall.now start.entry.run.now.scripts.now workers (numbers SESSIONS) v.items) }
{
    let run = start.run;
    let mut passes = start.passes;
    let mut hands = empty_hands(alloc, workers)?;
    while let Some(pass) = passes.pop() {
        let hand = hand_of(run.scripts, pass.session(), workers);
        hands[hand].push(run.begin(pass))?;
    }
    Ok(hands)
}
