//! How the sessions are collected from the workers.

ghost use Rattle.std.specs.Prelude.{◌≡◌, ◌<◌, [], vec_len, vec_capacity};
ghost use Rattle.teb_rules.specs.declared.names.TheConstants.{SESSIONS};
ghost use Rattle.teb_rules.specs.history.Phases.{numbers};
ghost use Rattle.session_tasks.specs.Tasks.{AreTasks};
ghost use Rattle.session_tasks.specs.threads.Hands.{AreDealt};

use crate::threads::hand::hand_of;
use crate::{Gate, Run, Task};
use teb_rules::names::{SESSIONS, Session};
use version_chain::Chains;

/// Returns the tasks of all sessions, in order. They are put into `tasks`, which is empty and has room for all.
pub(crate) fn gather<C: Chains, G: Gate>(
    run: &Run<'_, C, G>,
    mut tasks: Vec<Task<C>>,
    mut hands: Vec<Vec<Task<C>>>,
) -> Vec<Task<C>>
    requires none { tasks.items ≡ [] }
    requires room { vec_capacity tasks ≡ SESSIONS }
    requires some { 0 < vec_len hands }
    requires dealt { AreDealt run.now.hall.now run.now.scripts.now (vec_len hands) (numbers SESSIONS) hands.items }
    ensures { AreTasks run.now.hall.now run.now.scripts.now (numbers SESSIONS) result.items }
{
    for passed in 0..SESSIONS {
        let hand = hand_of(run.scripts, Session(passed + 1), hands.len());
        let task = hands[hand].pop().unwrap();
        tasks.push_reserved(task);
    }
    tasks
}
