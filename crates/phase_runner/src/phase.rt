//! One phase of a store.

ghost use Rattle.std.specs.Prelude.{◌≡◌, ◌++◌, ◌∷◌, [], length, IfOk, OnOk};
ghost use Rattle.teb_rules.specs.declared.names.Cell.{Cell};
ghost use Rattle.teb_rules.specs.Epochs.{AreFinalRows, IsDrained};
ghost use Rattle.store_setup.specs.SetupView.{setup_view};
ghost use Rattle.store_setup.specs.Sound.{IsWhole};
ghost use Rattle.tree_switch.specs.Courses.{IsCourse};
ghost use Rattle.tree_switch.specs.Refusals.{MaySwitch};
ghost use Rattle.tree_switch.specs.Starts.{IsStarted};
ghost use Rattle.phase_runner.specs.Runs.{IsPhase};
ghost use Rattle.phase_runner.specs.Steps.{HasRun};

use answer_log::ReplyText;
use engine_core::Engine;
use input_reader::Input;
use script_runner::replay::replay;
use script_runner::report_of;
use script_text::Line;
use std::alloc::{AllocError, Global};
use store_setup::Setup;
use tree_switch::{Phases, SwitchError};
use version_chain::Chains;

/// Returns the first phase, after the task has run in it over chains with no version. Its report is appended.
///
/// # Errors
/// `AllocError`: out of memory. What has run is dropped.
pub fn first_phase<C: Chains>(
    alloc: Global,
    chains: C,
    task: Input,
    text: &mut Vec<u8>,
) -> Result<Phases<C>, AllocError>
    requires { (x : Cell) → C.lists chains x ≡ [] }
    ensures course { IfOk result IsCourse }
    ensures past { IfOk result (λ p. p.past ≡ []) }
    ensures run { IfOk result (λ p. HasRun task.setup.rows task p.present text.old.items text.new.items) }
{
    let (setup, lines) = task.into_parts();
    let engine = Engine::new(alloc, setup, chains)?;
    run_present(alloc, Phases::new(alloc, engine), &lines, text)
}

/// Returns the phases with one more, after the task has run in it over the tables that the previous phase left. Its report is
/// appended.
///
/// # Errors
/// `AllocError`: out of memory. All phases are dropped.
pub fn next_phase<C: Chains>(
    alloc: Global,
    chains: C,
    mut phases: Phases<C>,
    task: Input,
    text: &mut Vec<u8>,
) -> Result<Phases<C>, AllocError>
    requires chains { (x : Cell) → C.lists chains x ≡ [] }
    requires may { MaySwitch phases.present task.setup }
    ensures course { IfOk result IsCourse }
    ensures past { IfOk result (λ p. p.past ≡ phases.past ++ phases.present ∷ []) }
    ensures run { IfOk result (λ p. (rows : _) × AreFinalRows phases.present.store phases.present.events rows × HasRun rows task p.present text.old.items text.new.items) }
{
    let (setup, lines) = task.into_parts();
    switch(alloc, &mut phases, setup, chains)?;
    run_present(alloc, phases, &lines, text)
}

/// Starts the next phase, if no condition forbids it.
fn switch<C: Chains>(
    alloc: Global,
    phases: &mut Phases<C>,
    setup: Setup,
    chains: C,
) -> Result<(), AllocError>
    requires setup { IsWhole (setup_view setup) }
    requires chains { (x : Cell) → C.lists chains x ≡ [] }
    requires may { MaySwitch phases.old.present (setup_view setup) }
    ensures past { OnOk result (phases.new.past ≡ phases.old.past ++ phases.old.present ∷ []) }
    ensures present { OnOk result (IsStarted setup phases.old.present phases.new.present) }
{
    match phases.switch(alloc, setup, chains) {
        Ok(()) => Ok(()),
        Err(why) => Err(out_of_memory(why)),
    }
}

/// Out of memory: the only remaining cause, if no condition forbids the switch.
fn out_of_memory(why: SwitchError) -> AllocError
    requires { why ≡ SwitchError.OutOfMemory }
{
    match why {
        SwitchError::OutOfMemory => AllocError,
        _ => unreachable!(),
    }
}

/// Replays the lines in the present phase, which has an empty history, and appends the report.
fn run_present<C: Chains>(
    alloc: Global,
    phases: Phases<C>,
    lines: &[Line],
    text: &mut Vec<u8>,
) -> Result<Phases<C>, AllocError>
    requires new { phases.present.events ≡ [] }
    requires named { length phases.present.store.setup.tree ≡ length phases.present.names.nodes }
    ensures course { IfOk result IsCourse }
    ensures past { IfOk result (λ p. p.past ≡ phases.past) }
    ensures store { IfOk result (λ p. p.present.store ≡ phases.present.store) }
    ensures names { IfOk result (λ p. p.present.names ≡ phases.present.names) }
    ensures drained { IfOk result (λ p. IsDrained p.present.events) }
    ensures run { IfOk result (λ p. (front : _) × IsPhase phases.present.store phases.present.names lines.now p.present.events front × (text.new.items ≡ text.old.items ++ front)) }
{
    let (past, mut engine) = phases.into_parts();
    prove!(engine.setup().tree.len() == engine.setup().names.nodes.len());
    let mut replies = ReplyText::new(alloc);
    replay(alloc, &mut engine, lines, &mut replies)?;
    let report = report_of(alloc, &engine, replies)?;
    text.extend_from_slice(&report)?;
    Ok(Phases::from_parts(past, engine))
}
