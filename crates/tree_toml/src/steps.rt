//! The steps of a type.

ghost use Rattle.std.specs.Prelude.{◌≡◌, ◌<◌, ◌++◌, ◌∷◌, [], None, length, map, option_map, IfOk};
ghost use Rattle.std.specs.List.{list_all};
ghost use Rattle.teb_rules.specs.Setup.{among};
ghost use Rattle.teb_rules.specs.Tree.{below};
ghost use Rattle.toml.specs.View.{view, table_view};
ghost use Rattle.store_setup.specs.profile.Steps.{numbers_of, steps_of};
ghost use Rattle.tree_toml.specs.Reading.{Answers, Gives, each};
ghost use Rattle.tree_toml.specs.Types.{is_text as spec_is_text, is_step as spec_is_step, steps_form as spec_steps_form, step_table, step_table_at, step_from, step_in, steps_from, steps_in};

use crate::fault::{FieldWhy, Place, TreeTextError, at};
use crate::fields::{array_at, as_list, numbered};
use std::alloc::{AllocError, Global};
use store_setup::profile::Profile;
use teb_rules::names::{Names, Table as TableNumber};
use toml::{Table, Value};

const MOST_STEPS: usize = 16;

/// Returns the profile of a type. If no steps are given, it has one with all tables.
///
/// # Errors
/// `Field` at the place: `Form`, `Many`, `NoSuch` or `Repeated`, the first fault of the steps. `OutOfMemory`: out of memory.
pub fn read_profile(
    alloc: Global,
    place: Place,
    tables: &Names,
    entry: &Table,
) -> Result<Profile, TreeTextError>
    requires { 0 < length tables.now }
    ensures { Answers (λ p. p) result (steps_in place tables.now (table_view entry.now)) }
{
    let steps = read_steps(alloc, place, tables, entry)?;
    match Profile::new(steps) {
        Ok(profile) => Ok(profile),
        Err(_) => unreachable!(),
    }
}

fn read_steps(
    alloc: Global,
    place: Place,
    tables: &Names,
    entry: &Table,
) -> Result<Vec<Vec<TableNumber>>, TreeTextError>
    ensures { Answers (λ v. steps_of v.items) result (steps_in place tables.now (table_view entry.now)) }
{
    let mut steps = Vec::new(alloc);
    match at(place, steps_form(entry))? {
        None => {
            steps.push(all_tables(alloc, tables)?)?;
        }
        Some(array) => add_steps(alloc, &mut steps, place, tables, array)?,
    }
    Ok(steps)
}

fn all_tables(alloc: Global, tables: &Names) -> Result<Vec<TableNumber>, AllocError>
    ensures { IfOk result (λ v. numbers_of v.items ≡ below (length tables.now)) }
{
    let mut step = Vec::new(alloc);
    for number in 0..tables.len() {
        step.push(TableNumber(number))?;
    }
    Ok(step)
}

// Returns the steps, if they are given: 1 to 16 arrays of texts.
fn steps_form(entry: &Table) -> Result<Option<&[Value]>, FieldWhy>
    ensures { Gives (option_map (λ a. map view a.now)) result (spec_steps_form (table_view entry.now)) }
{
    match array_at(entry, "steps")? {
        None => Ok(None),
        Some(array) if !are_steps(array) => Err(FieldWhy::Form),
        Some(array) if array.is_empty() || MOST_STEPS < array.len() => Err(FieldWhy::Many),
        Some(array) => Ok(Some(array)),
    }
}

fn are_steps(array: &[Value]) -> bool
    ensures { result ≡ list_all spec_is_step (map view array.now) }
{
    for value in array {
        if !is_step(value) {
            return false;
        }
    }
    true
}

fn is_step(value: &Value) -> bool
    ensures { result ≡ spec_is_step (view value.now) }
{
    match as_list(value) {
        None => false,
        Some(array) => are_texts(array),
    }
}

/// Returns whether each value is a text.
pub fn are_texts(array: &[Value]) -> bool
    ensures { result ≡ list_all spec_is_text (map view array.now) }
{
    for value in array {
        if !value.is_str() {
            return false;
        }
    }
    true
}

fn add_steps(
    alloc: Global,
    steps: &mut Vec<Vec<TableNumber>>,
    place: Place,
    tables: &Names,
    array: &[Value],
) -> Result<(), TreeTextError>
    requires { steps_of steps.old.items ≡ [] }
    ensures { Answers (λ _. steps_of steps.new.items) result (steps_from place tables.now (map view array.now)) }
{
    for value in array {
        add_step(alloc, steps, place, tables, value)?;
    }
    Ok(())
}

#[tactic(auto, using(crate::proofs::Numbers::steps_pushed))]
fn add_step(
    alloc: Global,
    steps: &mut Vec<Vec<TableNumber>>,
    place: Place,
    tables: &Names,
    value: &Value,
) -> Result<(), TreeTextError>
    ensures { Answers (λ _. steps_of steps.new.items) result (step_in place tables.now 0 (steps_of steps.old.items) (view value.now)) }
{
    match as_list(value) {
        None => Err(place.fault(FieldWhy::Form)),
        Some(array) => {
            let step = read_step(alloc, place, tables, array)?;
            steps.push(step)?;
            Ok(())
        }
    }
}

#[tactic(auto, unfolding(crate::specs::Types::step_from))]
fn read_step(
    alloc: Global,
    place: Place,
    tables: &Names,
    array: &[Value],
) -> Result<Vec<TableNumber>, TreeTextError>
    ensures { Answers (λ v. numbers_of v.items) result (step_from place tables.now (map view array.now)) }
{
    if array.is_empty() {
        return Err(place.fault(FieldWhy::Many));
    }
    let mut step = Vec::new(alloc);
    add_tables(&mut step, place, tables, array)?;
    Ok(step)
}

fn add_tables(
    step: &mut Vec<TableNumber>,
    place: Place,
    tables: &Names,
    array: &[Value],
) -> Result<(), TreeTextError>
    requires { step.old.items ≡ [] }
    ensures { Answers (λ _. numbers_of step.new.items) result (each (step_table_at place tables.now) 0 [] (map view array.now)) }
{
    for value in array {
        add_table(step, place, tables, value)?;
    }
    Ok(())
}

#[tactic(auto, using(crate::proofs::Numbers::numbers_pushed))]
fn add_table(
    step: &mut Vec<TableNumber>,
    place: Place,
    tables: &Names,
    value: &Value,
) -> Result<(), TreeTextError>
    ensures { Answers (λ _. numbers_of step.new.items) result (step_table_at place tables.now 0 (numbers_of step.old.items) (view value.now)) }
{
    let table = at(place, next_table(tables, step, value))?;
    step.push(table)?;
    Ok(())
}

// Returns the next table of a step, or `Repeated` if the step has it already.
fn next_table(tables: &Names, step: &[TableNumber], value: &Value) -> Result<TableNumber, FieldWhy>
    ensures { Gives (λ t. numbers_of step.now ++ t.0 ∷ []) result (step_table tables.now (numbers_of step.now) (view value.now)) }
{
    let Some(name) = value.as_str() else {
        return Err(FieldWhy::Form);
    };
    let table = TableNumber(numbered(tables, name)?);
    if has_table(step, table) {
        return Err(FieldWhy::Repeated);
    }
    Ok(table)
}

fn has_table(step: &[TableNumber], table: TableNumber) -> bool
    ensures { result ≡ among table.0 (numbers_of step.now) }
{
    step.contains(&table)
}
