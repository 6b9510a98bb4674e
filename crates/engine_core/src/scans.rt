//! The answer to a scan: cells with consecutive keys are read, in ascending order.

ghost use Rattle.std.specs.Prelude.{◌≡◌, ◌≤◌, ◌<◌, ◌+◌, ◌^◌};
ghost use Rattle.teb_rules.specs.declared.names.Request.TheVariants as request;
ghost use Rattle.teb_rules.specs.Stops.{scan_stop};
ghost use Rattle.teb_rules.specs.Answer.{answer_of, cells_from, is_scan};
ghost use Rattle.engine_core.specs.Views.{store_in, events_in};
ghost use Rattle.engine_core.specs.Cells.{cell_at};
ghost use Rattle.engine_core.specs.Decisions.{carried, IsBounded};

use crate::access::Access;
use crate::accesses::refusal;
use crate::asking::Asking;
use crate::decision::{Decision, refused, stopped};
use crate::stops::read_stop;
use teb_rules::Stop;
use teb_rules::names::{Cell, Refusal};
use version_chain::Chains;

/// Decides a scan of `count` cells.
pub fn decide_scan<C: Chains>(asking: &Asking<'_, C>, first: Cell, count: u8) -> Decision
    ensures answer { carried (store_in asking.now.view.now) (events_in asking.now.view.now) result ≡ answer_of (store_in asking.now.view.now) (events_in asking.now.view.now) asking.now.txn.0
        (request.Scan first count) }
    ensures bounded { IsBounded (C.lists asking.now.view.now.state.now.chains) (store_in asking.now.view.now).setup (events_in asking.now.view.now) result }
{
    if let Some(why) = refusal(asking, first) {
        return refused(why);
    }
    if !is_scan(first, count) {
        return refused(Refusal::Range);
    }
    match scan_stop(
        &Access {
            asking,
            cell: first,
        },
        count,
    ) {
        Stop::Go => Decision::Scan(asking.txn, first, count),
        stop => stopped(asking.txn, stop),
    }
}

/// Returns whether there are 1 to 16 cells, the last of which has a key.
fn is_scan(first: Cell, count: u8) -> bool
    ensures { result ≡ is_scan first count }
{
    let after = u64::from(first.key) + u64::from(count);
    (1..=16).contains(&count) && after <= 1 << 32
}

/// Returns the cell whose key is `i` greater than that of the first.
pub fn cell_at(first: Cell, i: u8) -> Cell
    requires { first.key + i < 2 ^ 32 }
    ensures { result ≡ cell_at first i }
{
    Cell {
        table: first.table,
        key: first.key + u32::from(i),
    }
}

/// Returns the stop of a scan: that of the first cell whose read stops.
fn scan_stop<C: Chains>(first: &Access<'_, C>, count: u8) -> Stop
    requires keys { first.now.cell.key + count ≤ 2 ^ 32 }
    ensures { result ≡ scan_stop (store_in first.now.asking.now.view.now).setup (events_in first.now.asking.now.view.now) first.now.asking.now.txn.0 (cells_from first.now.cell count) }
{
    let asking = first.asking;
    for i in 0..count {
        let cell = cell_at(first.cell, i);
        match read_stop(&Access { asking, cell }) {
            Stop::Go => {}
            stop => return stop,
        }
    }
    Stop::Go
}
