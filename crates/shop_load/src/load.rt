//! The command `load`: a generated input, run in turns over the shop.

ghost use Rattle.std.specs.Prelude.{◌≡◌, ◌<◌, ◌≤◌, ◌^◌, IfOk};
ghost use Rattle.script_runner.specs.Runs.{IsSerialized};
ghost use Rattle.shop_load.specs.Loads.{loaded_lines};
ghost use Rattle.shop_load.specs.declared.lines.TheConstants.{MOST_SIZE};
ghost use Rattle.shop_load.specs.Runs.{IsLoad};
ghost use Rattle.shop_load.specs.Shop.{shop as spec_shop};

use crate::lines::loaded_lines;
use crate::shop::shop_setup;
use crate::summary::summary_of;
use answer_log::AnswerCount;
use command_output::Output;
use input_reader::Input;
use script_runner::{in_turns, output_of};
use std::alloc::{AllocError, Global};

/// Runs `size` transactions that are generated from a seed, and returns the summary.
///
/// # Errors
/// `AllocError`: out of memory.
pub fn run_load(alloc: Global, number: u32, size: u32) -> Result<Output, AllocError>
    requires number { number < 2 ^ 31 }
    requires size { size ≤ MOST_SIZE }
    ensures shown { IfOk result (IsLoad number size) }
    ensures serialized { IfOk result (λ o. IsSerialized (λ m. spec_shop ≡ m) o.history) }
{
    let mut requests = AnswerCount::new();
    let engine = in_turns(alloc, load_input(alloc, number, size)?, &mut requests)?;
    let text = summary_of(alloc, number, size, &engine, requests.count)?;
    Ok(output_of(engine, text))
}

/// Returns the shop, and the lines of `size` transactions that are generated from a seed.
///
/// # Errors
/// `AllocError`: out of memory.
#[tactic(auto, using(crate::proofs::LoadedSessions::loaded_sessions))]
pub fn load_input(alloc: Global, number: u32, size: u32) -> Result<Input, AllocError>
    requires number { number < 2 ^ 31 }
    requires size { size ≤ MOST_SIZE }
    ensures { IfOk result (λ i. i ≡ record { setup = spec_shop; lines = loaded_lines number size }) }
{
    let lines = loaded_lines(alloc, number, size)?;
    Ok(Input::new(shop_setup(alloc)?, lines))
}
