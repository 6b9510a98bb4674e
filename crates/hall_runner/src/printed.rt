//! The output of a run: its printed run, and its history.

ghost use Rattle.std.specs.Prelude.{◌≡◌, Some, IfOk};
ghost use Rattle.audit_check.specs.Audit.{IsAudited};
ghost use Rattle.printed_run.specs.Printed.{IsNamedBy, IsPrintedRun};

use chain_pool::PooledChains;
use command_output::Output;
use command_output::status::OK;
use engine_core::Engine;
use printed_run::printed_run;
use std::alloc::{AllocError, Global};

/// Returns the printed run of an engine, with status 0, and its history.
///
/// # Errors
/// `AllocError`: out of memory. The engine is dropped.
pub fn output_of(alloc: Global, engine: Engine<PooledChains>) -> Result<Output, AllocError>
    requires { IsNamedBy engine.store engine.names }
    ensures run { IfOk result (λ o. (o.status ≡ 0) × (o.history ≡ Some engine.events)
        × IsPrintedRun engine.store engine.names engine.events o.text) }
    ensures audited { IfOk result (λ o. IsAudited o.text) }
{
    let text = printed_run(alloc, &engine)?;
    Ok(Output::new(OK, text, Some(engine.into_history())))
}
