//! The start of the next phase.

ghost use Rattle.std.specs.Prelude.{◌≡◌, [], IfOk};
ghost use Rattle.teb_rules.specs.declared.names.Cell.{Cell};
ghost use Rattle.teb_rules.specs.names.Rows.{IsAscending};
ghost use Rattle.store_setup.specs.SetupView.{setup_view};
ghost use Rattle.store_setup.specs.Sound.{IsWhole};
ghost use Rattle.engine_core.specs.EngineModel.{IsOfEngine};
ghost use Rattle.tree_switch.specs.Starts.{IsStarted};

use engine_core::Engine;
use serial_order::tables;
use std::alloc::{AllocError, Global};
use store_setup::Setup;
use teb_rules::names::{Cell, Rows};
use version_chain::Chains;

/// Returns an engine under a setup, with the tables that another engine leaves as its starting rows. Nothing has happened in it.
///
/// # Errors
/// Out of memory. The engine before is only read.
pub fn start<C: Chains>(
    alloc: Global,
    before: &Engine<C>,
    setup: Setup,
    chains: C,
) -> Result<Engine<C>, AllocError>
    requires engine { IsOfEngine before.now }
    requires setup { IsWhole (setup_view setup) }
    requires tables { setup.names.tables ≡ before.now.names.tables }
    requires chains { (x : Cell) → C.lists chains x ≡ [] }
    ensures { IfOk result (λ e. IsStarted setup before.now e) }
{
    prove!(before.setup().names.tables.len() == setup.names.tables.len());
    let rows = tables(alloc, before)?;
    Engine::new(alloc, with_rows(setup, rows), chains)
}

/// Returns the setup with these rows in place of those that it has.
pub fn with_rows(mut setup: Setup, rows: Vec<(Cell, i64)>) -> Setup
    requires { IsAscending rows.items }
    ensures rows { result.rows ≡ rows.items }
    ensures names { result.names ≡ setup.names }
    ensures profiles { result.profiles ≡ setup.profiles }
    ensures tree { result.tree ≡ setup.tree }
{
    setup.rows = Rows::from_sorted(rows);
    setup
}
