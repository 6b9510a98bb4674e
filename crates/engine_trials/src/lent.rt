//! What an engine lends, as text.

ghost use Rattle.std.specs.Prelude.{IsTrue};
ghost use Rattle.phase_api.specs.FactsView.{setup_of, events_of};
ghost use Rattle.phase_api.specs.Calls.{IsPair, Writes};
ghost use Rattle.phase_api.specs.Standing.{StandAll};
ghost use Rattle.nexus_locks.specs.Controls.{LocksStandFor};
ghost use Rattle.runtime_pipeline.specs.Standing.{PipelineStands};
ghost use Rattle.timestamp_node.specs.Controls.{StampsStandFor};
ghost use Rattle.snapshot_node.specs.Controls.{SnapshotStandsFor, snapshot_node_number};
ghost use Rattle.engine_core.specs.AnyControls.{any_node_number, any_stands};

use crate::plan::{ORDERED, PLACED, REPORTED, SOLD};
use dependency_book::Book;
use engine_core::{AnyControl, Engine};
use nexus_locks::Locks;
use phase_api::{Control, Facts};
use runtime_pipeline::Pipeline;
use snapshot_node::Snapshot;
use std::alloc::{AllocError, Global};
use std::fmt::Write;
use teb_rules::names::{Cell, Txn};
use timestamp_node::Stamps;
use version_chain::Chains;

/// The cells of the trials.
const CELLS: [Cell; 4] = [SOLD, ORDERED, PLACED, REPORTED];

/// The first report.
const FIRST_REPORT: Txn = Txn(6);

/// Returns the history, the versions, the book, and what each control lends.
///
/// # Errors
/// `AllocError`: out of memory.
pub fn lent<C: Chains>(alloc: Global, engine: &Engine<C>) -> Result<String, AllocError> {
    let mut text = String::new(alloc);
    for event in engine.history().events() {
        writeln!(text, "{event:?}")?;
    }
    write_versions(&mut text, engine.chains())?;
    write_book(&mut text, engine.book())?;
    let setup = engine.setup();
    let facts = Facts {
        history: engine.history(),
        tree: &setup.tree,
        profiles: &setup.profiles,
    };
    write_controls(&mut text, &facts, engine.controls())?;
    Ok(text)
}

fn write_versions<C: Chains>(text: &mut String, chains: &C) -> Result<(), AllocError> {
    for cell in CELLS {
        write!(text, "versions of {}.{}:", cell.table.0, cell.key)?;
        for place in 0..chains.len_of(cell) {
            let (writer, value) = chains.at(cell, place);
            write!(text, " {} {value:?}", writer.0)?;
        }
        writeln!(text)?;
    }
    Ok(())
}

/// Writes for each cell its readers with their sources, and its writers; then the unfinished transactions, each with its sources.
fn write_book(text: &mut String, book: &Book) -> Result<(), AllocError> {
    for cell in CELLS {
        let readers = book.readers(cell);
        let writers = book.writers(cell);
        writeln!(
            text,
            "book {}.{}: {readers:?} {writers:?}",
            cell.table.0, cell.key
        )?;
    }
    for txn in book.unfinished() {
        writeln!(text, "unfinished {} from {:?}", txn.0, book.read_from(*txn))?;
    }
    Ok(())
}

/// Writes what each control lends, in ascending number of the nodes.
fn write_controls(
    text: &mut String,
    facts: &Facts,
    controls: &[AnyControl],
) -> Result<(), AllocError>
    requires { StandAll any_node_number any_stands controls.now (setup_of facts.now) (events_of facts.now) }
{
    for control in controls {
        write_control(text, facts, control)?;
    }
    Ok(())
}

fn write_control(text: &mut String, facts: &Facts, control: &AnyControl) -> Result<(), AllocError>
    requires { any_stands control.now (setup_of facts.now) (events_of facts.now) }
{
    match control {
        AnyControl::Locks(locks) => write_locks(text, facts, locks),
        AnyControl::Pipeline(pipeline) => write_pipeline(text, facts, pipeline),
        AnyControl::Timestamp(stamps) => write_stamps(text, facts, stamps),
        AnyControl::Snapshot(snapshot) => write_snapshot(text, facts, snapshot),
    }
}

/// Writes the holders of each cell at a locks node.
fn write_locks(text: &mut String, facts: &Facts, locks: &Locks) -> Result<(), AllocError>
    requires { LocksStandFor locks.now (setup_of facts.now) (events_of facts.now) }
{
    for cell in CELLS {
        writeln!(
            text,
            "locks {}.{}: {:?}",
            cell.table.0,
            cell.key,
            locks.holds(facts, cell)
        )?;
    }
    Ok(())
}

/// Writes the holders of each cell at a pipeline, and for each unfinished transaction those that are ahead of it.
fn write_pipeline(text: &mut String, facts: &Facts, pipeline: &Pipeline) -> Result<(), AllocError>
    requires { PipelineStands pipeline.now (setup_of facts.now) (events_of facts.now) }
{
    for cell in CELLS {
        writeln!(
            text,
            "pipeline {}.{}: {:?}",
            cell.table.0,
            cell.key,
            pipeline.holds(facts, cell)
        )?;
    }
    for txn in facts.history.live() {
        if facts.history.is_unfinished(*txn) {
            writeln!(text, "before {}: {:?}", txn.0, pipeline.before(facts, *txn))?;
        }
    }
    Ok(())
}

/// Writes the readers of each cell at a timestamp node, with their sources.
fn write_stamps(text: &mut String, facts: &Facts, stamps: &Stamps) -> Result<(), AllocError>
    requires { StampsStandFor stamps.now (setup_of facts.now) (events_of facts.now) }
{
    for cell in CELLS {
        writeln!(
            text,
            "stamps {}.{}: {:?}",
            cell.table.0,
            cell.key,
            stamps.reads(facts, cell)
        )?;
    }
    Ok(())
}

/// Writes the committed writers of each cell at a snapshot node, and whether the first report sees what the first and the second
/// sale have put.
fn write_snapshot(text: &mut String, facts: &Facts, snapshot: &Snapshot) -> Result<(), AllocError>
    requires { SnapshotStandsFor snapshot.now (setup_of facts.now) (events_of facts.now) }
{
    for cell in CELLS {
        writeln!(
            text,
            "committed {}.{}: {:?}",
            cell.table.0,
            cell.key,
            snapshot.committed(facts, cell)
        )?;
    }
    for writer in [Txn(1), Txn(3)] {
        if may_ask(facts, snapshot, FIRST_REPORT, writer, SOLD) {
            let sees = snapshot.sees(facts, FIRST_REPORT, writer, SOLD);
            writeln!(
                text,
                "snapshot {} sees {}: {sees}",
                FIRST_REPORT.0, writer.0
            )?;
        }
    }
    Ok(())
}

/// Returns whether two transactions meet at a node and are not aborted, and the second has put a cell or is unfinished.
fn may_ask(facts: &Facts, snapshot: &Snapshot, t: Txn, u: Txn, cell: Cell) -> bool
    requires { SnapshotStandsFor snapshot.now (setup_of facts.now) (events_of facts.now) }
    ensures pair { IsTrue result → IsPair facts.now (snapshot_node_number snapshot.now) t.0 u.0 }
    ensures writes { IsTrue result → Writes (events_of facts.now) u.0 cell }
{
    let history = facts.history;
    if !history.has_begun(t) || !history.has_begun(u) {
        return false;
    }
    if history.is_aborted(t) || history.is_aborted(u) {
        return false;
    }
    facts.meet_at(snapshot.node(), t, u) && (history.wrote(u, cell) || history.is_unfinished(u))
}
