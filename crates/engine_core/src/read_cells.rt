//! Reading the cells of a scan.

ghost use Rattle.std.specs.Prelude.{◌≡◌};
ghost use Rattle.teb_rules.specs.Answer.{cells_from, read_all};
ghost use Rattle.teb_rules.specs.laws.Lawful.{Lawful};
ghost use Rattle.engine_core.specs.Cells.{HasKeys};
ghost use Rattle.store_setup.specs.Stores.{store_of};
ghost use Rattle.engine_core.specs.States.{IsReady};

use crate::append_event::append_event;
use crate::engine_state::EngineState;
use crate::scans::cell_at;
use candidate_reads::Place;
use teb_rules::history::Event;
use teb_rules::names::{Cell, ScanList, Txn};
use version_chain::Chains;

/// Reads the cells one after the other, and returns their values. Each is read in the history with the reads before it.
pub fn read_cells<C: Chains>(state: &mut EngineState<C>, t: Txn, first: Cell, count: u8) -> ScanList
    requires leads { Lawful (store_of state.old.setup).setup (read_all (store_of state.old.setup) state.old.history.events t.0 (cells_from first count)).1 }
    requires keys { HasKeys first count }
    requires ready { IsReady state.old }
    ensures values { result ≡ (read_all (store_of state.old.setup) state.old.history.events t.0 (cells_from first count)).0 }
    ensures events { state.new.history.events ≡ (read_all (store_of state.old.setup) state.old.history.events t.0 (cells_from first count)).1 }
    ensures setup { state.new.setup ≡ state.old.setup }
{
    let mut values = ScanList::new();
    for i in 0..count {
        let cell = cell_at(first, i);
        let (from, value) = state.read(t, cell);
        append_event(
            state,
            Event::Got {
                txn: t,
                cell,
                from,
                value,
            },
            Place::FRONT,
        );
        values.push(value);
    }
    values
}
