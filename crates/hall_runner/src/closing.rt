//! The end of a hall whose scripts are done.

ghost use Rattle.std.specs.Prelude.{◌≡◌, All, map, IfOk};
ghost use Rattle.teb_rules.specs.history.Phases.{numbers};
ghost use Rattle.teb_rules.specs.Driver.{Ascending};
ghost use Rattle.script_runner.specs.turns.Seats.{scripts_on};
ghost use Rattle.session_server.specs.Passes.{base_of, number_of};
ghost use Rattle.session_tasks.specs.Served.{IsServed};
ghost use Rattle.hall_runner.specs.Outcomes.{IsServedOver, IsSerializedOver, AreSetUp, history_in};

use crate::printed::output_of;
use crate::served::Served;
use chain_pool::PooledChains;
use script_text::Scripts;
use session_server::{Hall, Pass};
use std::alloc::{AllocError, Global};
use teb_rules::names::SESSIONS;

/// Closes the hall, and returns its printed run and its entries.
///
/// # Errors
/// `AllocError`: out of memory. The engine and the entries are dropped.
pub fn closed(
    alloc: Global,
    hall: Hall<PooledChains>,
    passes: Vec<Pass<PooledChains>>,
    scripts: &Scripts,
) -> Result<Served, AllocError>
    requires setup { AreSetUp (base_of hall).store (base_of hall).names }
    requires sessions { map number_of passes.items ≡ numbers SESSIONS }
    requires served { All (IsServed hall scripts.now) passes.items }
    requires ascending { Ascending 0 (scripts_on scripts.now) }
    ensures served { IfOk result (IsServedOver (base_of hall).store (base_of hall).names scripts.now) }
    ensures serialized { IfOk result (λ s. IsSerializedOver (base_of hall).store (history_in s)) }
{
    let (engine, entries) = hall.close(passes);
    let output = output_of(alloc, engine)?;
    Ok(Served::Through { output, entries })
}
