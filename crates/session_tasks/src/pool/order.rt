//! The tasks of all hands, in the order of their sessions.

ghost use Rattle.std.specs.Prelude.{◌≡◌, ℕ, ◌++◌, map, IfOk};
ghost use Rattle.std.specs.List.{flat_map};
ghost use Rattle.std.specs.List.Sorted.{IsPermutation};
ghost use Rattle.teb_rules.specs.history.Phases.{numbers};
ghost use Rattle.turn_lock.specs.Counts.{total};
ghost use Rattle.session_tasks.specs.Tasks.{number_in};
ghost use Rattle.session_tasks.specs.pool.Hands.{taken_in};
ghost use Rattle.session_tasks.specs.pool.Taken.{numbers_in};

use crate::Task;
use std::alloc::{AllocError, Global};
use std::collections::VecDeque;
use teb_rules::names::{SESSIONS, Session};
use version_chain::Chains;

/// Returns the sessions in each hand.
pub(crate) fn sessions_in<C: Chains>(
    alloc: Global,
    hands: &[Vec<Task<C>>],
) -> Result<Vec<Vec<Session>>, AllocError>
    ensures { IfOk result (λ v. numbers_in v.items ≡ map taken_in hands.now) }
{
    let mut lists = Vec::with_capacity(alloc, hands.len())?;
    for hand in hands {
        lists.push_reserved(sessions_of(alloc, hand)?);
    }
    Ok(lists)
}

/// Returns the sessions of some tasks.
fn sessions_of<C: Chains>(alloc: Global, tasks: &[Task<C>]) -> Result<Vec<Session>, AllocError>
    ensures { IfOk result (λ v. map (λ s. s.0) v.items ≡ map number_in tasks.now) }
{
    let mut sessions = Vec::with_capacity(alloc, tasks.len())?;
    for task in tasks {
        sessions.push_reserved(task.pass.session());
    }
    Ok(sessions)
}

/// Returns these tasks, followed by those of each hand.
pub(crate) fn all_tasks<C: Chains>(
    mut tasks: Vec<Task<C>>,
    hands: Vec<Vec<Task<C>>>,
) -> Result<Vec<Task<C>>, AllocError>
    ensures { IfOk result (λ v. v.items ≡ tasks.items ++ flat_map (λ hand. hand.items) hands.items) }
{
    let mut hands = VecDeque::from(hands);
    while let Some(mut hand) = hands.pop_front() {
        tasks.append(&mut hand)?;
    }
    Ok(tasks)
}

/// Returns the tasks in the order of their sessions, each of which has one.
pub(crate) fn in_order<C: Chains>(mut tasks: Vec<Task<C>>) -> Vec<Task<C>>
    requires { (weight : ℕ → ℕ) → total weight (map number_in tasks.items) ≡ total weight (numbers SESSIONS) }
    ensures sessions { map number_in result.items ≡ numbers SESSIONS }
    ensures same { IsPermutation tasks.items result.items }
{
    tasks.sort_unstable_by_key(|task| task.pass.session().0);
    tasks
}
