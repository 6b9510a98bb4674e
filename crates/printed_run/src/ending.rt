//! The end of a printed run, and of a report.

ghost use Rattle.std.specs.Prelude.{◌≡◌, OnErr, OnOk};
ghost use Rattle.script_text.specs.Named.{RowsNamed};
ghost use Rattle.teb_rules.specs.Epochs.{AreFinalRows};
ghost use Rattle.printed_run.specs.Printed.{IsReportAfter};

use engine_core::Engine;
use script_text::put_report;
use serial_order::{order, tables};
use std::alloc::{AllocError, Global};
use version_chain::Chains;

/// Appends the serial order and the final tables.
///
/// # Errors
/// `AllocError`: out of memory. Nothing is appended.
pub fn put_ending<C: Chains>(
    alloc: Global,
    out: &mut Vec<u8>,
    engine: &Engine<C>,
) -> Result<(), AllocError>
    requires { (rows : _) → AreFinalRows engine.now.store engine.now.events rows → RowsNamed engine.now.names rows }
    ensures ok { OnOk result (IsReportAfter out.old.items engine.now.store engine.now.names engine.now.events out.new.items) }
    ensures err { OnErr result (out.new.items ≡ out.old.items) }
{
    let order = order(alloc, engine)?;
    let rows = tables(alloc, engine)?;
    put_report(out, &engine.setup().names, &order, &rows)
}
