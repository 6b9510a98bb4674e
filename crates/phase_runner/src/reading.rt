//! The reading of the phases of an input.

ghost use Rattle.std.specs.Prelude.{◌≡◌, ◌≤◌, All, length, None};
ghost use Rattle.std.specs.Option.{option_copied};
ghost use Rattle.script_text.specs.Input.{parts_of};
ghost use Rattle.store_setup.specs.SetupView.{setup_view};
ghost use Rattle.phase_runner.specs.Inputs.{phases_of, tasks_from, task_at, following, behind, is_long as spec_is_long};
ghost use Rattle.phase_runner.specs.Parts.{AreParts, pairs_of, texts};
ghost use Rattle.phase_runner.specs.Readings.{IsRead};

use crate::error::{PhaseError, PhaseWhy};
use crate::parts::parts;
use input_reader::{Input, InputError};
use script_text::{MOST_BYTES, MOST_LINES, has_more_lines, parse_script, split_input};
use std::alloc::Global;
use std::collections::VecDeque;
use store_setup::Setup;
use tree_switch::same_names;
use tree_toml::read_tree;

/// The most pairs of a tree part and a script part.
const MOST_PAIRS: usize = 16;

/// Returns the phases of these bytes: tree part, script part, tree part, script part, and so on, between lines `%%`.
///
/// # Errors
/// `BadPhase` if there are more than 16 pairs, or the last one has no script part; else `BadInput` with `TooLong` if there are
/// more than `MOST_LINES` lines after the first `%%`. Else the first fault of the pairs, one after another, and in each pair that
/// of its tree part, of its tables and rows (`BadPhase`), and of its script part, whose lines are numbered from 1. `BadInput`
/// with `OutOfMemory` may come in place of each.
pub fn read_phases(alloc: Global, bytes: &[u8]) -> Result<VecDeque<Input>, PhaseError>
    requires { length bytes.now ≤ MOST_BYTES }
    ensures { (parts : _) × AreParts bytes.now parts × IsRead (λ v. v.items) result (phases_of bytes.now parts) }
{
    let parts = parts(alloc, bytes)?;
    if parts.len() > 2 * MOST_PAIRS {
        return Err(bad_phase(MOST_PAIRS as u8 + 1, PhaseWhy::Many));
    }
    if parts.len() % 2 == 1 {
        return Err(bad_phase((parts.len() / 2 + 1) as u8, PhaseWhy::Script));
    }
    if is_long(bytes) {
        return Err(PhaseError::BadInput(InputError::TooLong));
    }
    read_pairs(alloc, &parts)
}

fn bad_phase(pair: u8, why: PhaseWhy) -> PhaseError
    ensures { result ≡ PhaseError.BadPhase pair why }
{
    PhaseError::BadPhase { pair, why }
}

/// Returns whether more lines follow the first separator than a script may have.
fn is_long(bytes: &[u8]) -> bool
    ensures { result ≡ spec_is_long (parts_of bytes.now) }
{
    match split_input(bytes) {
        Some((_, behind)) => has_more_lines(behind, MOST_LINES),
        None => false,
    }
}

/// Reads one pair after another.
fn read_pairs(alloc: Global, parts: &[&[u8]]) -> Result<VecDeque<Input>, PhaseError>
    requires few { length parts.now ≤ 32 }
    requires small { All (λ p. length p ≤ MOST_BYTES) (texts parts.now) }
    ensures { IsRead (λ v. v.items) result (tasks_from 1 None (pairs_of (texts parts.now))) }
{
    let mut tasks = VecDeque::new(alloc);
    for i in 0..parts.len() / 2 {
        let pair = Pair {
            number: i as u8 + 1,
            tree: parts[2 * i],
            script: parts[2 * i + 1],
        };
        let task = read_pair(alloc, tasks.back(), pair)?;
        tasks.push_back(task)?;
    }
    Ok(tasks)
}

/// A tree part and the script part after it.
#[derive(Clone, Copy)]
struct Pair<'a> {
    /// Its number, from 1.
    number: u8,
    tree: &'a [u8],
    script: &'a [u8],
}

fn read_pair(alloc: Global, before: Option<&Input>, pair: Pair) -> Result<Input, PhaseError>
    requires { length pair.script.now ≤ MOST_BYTES }
    ensures { IsRead (λ task. task) result (task_at pair.entry.number (option_copied before.entry) (pair.entry.tree.now, pair.entry.script.now)) }
{
    let setup = read_tree(alloc, pair.tree)?;
    check_following(pair.number, before, &setup)?;
    let lines = parse_script(alloc, pair.script, &setup.names, setup.format)?;
    Ok(Input::new(setup, lines))
}

/// Checks whether a setup may be that of the first phase, or of a phase after another one.
fn check_following(number: u8, before: Option<&Input>, setup: &Setup) -> Result<(), PhaseError>
    ensures { result ≡ following number (option_copied before.entry) (setup_view setup.now) }
{
    match before {
        Some(before) => check_behind(number, before.setup(), setup),
        None => Ok(()),
    }
}

/// Checks whether a setup may be that of the phase after one with another setup.
fn check_behind(number: u8, before: &Setup, setup: &Setup) -> Result<(), PhaseError>
    ensures { result ≡ behind number (setup_view before.now) (setup_view setup.now) }
{
    if !same_names(&setup.names.tables, &before.names.tables) {
        return Err(bad_phase(number, PhaseWhy::Tables));
    }
    if !setup.rows.is_empty() {
        return Err(bad_phase(number, PhaseWhy::Rows));
    }
    Ok(())
}
