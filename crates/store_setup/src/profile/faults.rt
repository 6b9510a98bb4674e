//! What may be wrong with a list of steps.

ghost use Rattle.std.specs.Prelude.{◌≡◌, ◌+◌, ◌≤◌, length};
ghost use Rattle.teb_rules.specs.Setup.{among};
ghost use Rattle.store_setup.specs.profile.Faults.{step_fault, first_step_fault, steps_fault};
ghost use Rattle.store_setup.specs.profile.Steps.{numbers_of, steps_of, has_twice};

use teb_rules::names::Table;

const MOST_STEPS: usize = 16;

/// Why a list of steps is no profile.
#[derive(Clone, Copy, Debug, PartialEq, Eq)]
pub enum StepsError {
    /// There are not 1 to 16 steps.
    Steps,
    /// The step of this number, from 0, has no table.
    EmptyStep(u8),
    /// The step of this number, from 0, has a table twice.
    Twice(u8),
}

/// Returns the first fault of a list of steps, or `None` if it is a profile.
pub fn steps_fault(steps: &[Vec<Table>]) -> Option<StepsError>
    ensures { result ≡ steps_fault (steps_of steps.now) }
{
    if steps.is_empty() || MOST_STEPS < steps.len() {
        return Some(StepsError::Steps);
    }
    first_step_fault(0, steps)
}

// Returns the fault of the first step that has one. The steps are numbered from `number` on.
fn first_step_fault(number: u8, steps: &[Vec<Table>]) -> Option<StepsError>
    requires { number + length steps.now ≤ 16 }
    ensures { result ≡ first_step_fault number (steps_of steps.now) }
{
    match steps {
        [] => None,
        [step, rest @ ..] => match step_fault(number, step) {
            Some(fault) => Some(fault),
            None => first_step_fault(number + 1, rest),
        },
    }
}

fn step_fault(number: u8, tables: &[Table]) -> Option<StepsError>
    ensures { result ≡ step_fault number (numbers_of tables.now) }
{
    if tables.is_empty() {
        Some(StepsError::EmptyStep(number))
    } else if has_twice(tables) {
        Some(StepsError::Twice(number))
    } else {
        None
    }
}

fn has_twice(tables: &[Table]) -> bool
    ensures { result ≡ has_twice (numbers_of tables.now) }
{
    match tables {
        [] => false,
        [table, rest @ ..] => has_table(rest, *table) || has_twice(rest),
    }
}

/// Returns whether a list has a table.
pub fn has_table(tables: &[Table], table: Table) -> bool
    ensures { result ≡ among table.0 (numbers_of tables.now) }
{
    match tables {
        [] => false,
        [first, rest @ ..] => *first == table || has_table(rest, table),
    }
}
