//! Profiles, and the step to which an access moves a transaction.

ghost use Rattle.std.specs.Prelude.{◌≡◌, ◌==◌, ◌<◌, [], None, Some, MatchResult, length, slice_index_or};
ghost use Rattle.teb_rules.specs.Steps.{least_step};
ghost use Rattle.store_setup.specs.profile.Faults.{steps_fault};
ghost use Rattle.store_setup.specs.profile.Steps.{numbers_of, steps_of, IsProfile};

use crate::profile::StepsError;
use crate::profile::faults::{has_table, steps_fault};
use std::marker::Model;
use teb_rules::names::Table;

/// 1 to 16 steps, each with at least one table and none twice. Contracts see the list of the steps, each as the list
/// of the numbers of its tables.
#[derive(Drop)]
pub struct Profile {
    steps: Vec<Vec<Table>>,
}

impl Model for Profile {
    ghost use Rattle.std.specs.Prelude.{List, ℕ};
    ghost use Rattle.store_setup.specs.profile.Steps.{steps_of, IsProfile};

    ghost Value = { List (List ℕ) };

    ghost view = { λ p. steps_of p.steps.items };

    ghost invariant = { λ p. IsProfile (steps_of p.steps.items) };
}

impl Profile {
    /// Returns the profile of these steps. Takes no memory.
    ///
    /// # Errors
    /// The first fault of the steps: `Steps`, or else that of the first step at fault. The steps are dropped.
    pub fn new(steps: Vec<Vec<Table>>) -> Result<Profile, StepsError>
        ensures { let asked = steps_of steps.items in
            MatchResult result (λ profile. (steps_fault asked ≡ None) × (profile ≡ asked)) (λ fault. steps_fault asked ≡ Some fault) }
    {
        match steps_fault(&steps) {
            Some(fault) => Err(fault),
            None => Ok(Profile { steps }),
        }
    }

    /// Returns how many steps there are, 1 to 16.
    pub fn len(&self) -> u8
        ensures count { result ≡ length self.now }
        ensures profile { IsProfile self.now }
    {
        self.steps.len() as u8
    }

    pub fn is_empty(&self) -> bool
        ensures { result ≡ (length self.now == 0) }
    {
        self.steps.is_empty()
    }

    /// Returns the tables of a step, which are numbered from 0.
    pub fn step(&self, i: u8) -> &[Table]
        requires { i < length self.now }
        ensures { numbers_of result.now ≡ slice_index_or self.now i [] }
    {
        &self.steps[usize::from(i)]
    }

    /// Returns the step to which an access of the table moves a transaction that is at the step `cursor`: the least step from there
    /// on that has the table, or `None` if no such step has it.
    pub fn cursor_after(&self, cursor: u8, table: Table) -> Option<u8>
        ensures { result ≡ least_step self.now cursor table.0 }
    {
        for i in cursor..self.len() {
            if has_table(self.step(i), table) {
                return Some(i);
            }
        }
        None
    }
}
