//! How a store is opened: the rows of the disk are read, an engine begins with them, and so does an epoch of the journal.

ghost use Rattle.std.specs.Prelude.{◌≡◌, ◌+◌, ◌*◌, ◌<◌, [], length, IfOk, IfErr};
ghost use Rattle.teb_rules.specs.declared.names.Cell.{Cell as TheCell};
ghost use Rattle.teb_rules.specs.names.Rows.{row_of, IsAscending};
ghost use Rattle.store_setup.specs.SetupView.{setup_view};
ghost use Rattle.store_setup.specs.Sound.{IsWhole};
ghost use Rattle.crash_disk.specs.Calls.{IsUpTo};
ghost use Rattle.epoch_journal.specs.Layout.{half_size};
ghost use Rattle.epoch_journal.specs.Read.{half_found_at};
ghost use Rattle.engine_store.specs.Opening.{AreOfTables, HasRowOutside, IsBeginning, IsOpened, IsRefused, layout_of};
ghost use Rattle.engine_store.specs.OpeningSteps.{IsRecovered};
ghost use Rattle.engine_store.specs.declared.open_error.OpenError.TheVariants as errors;

use crate::found::are_of_tables;
use crate::label::label_of;
use crate::open_error::{NotOpened, OpenError};
use crash_disk::Disk;
use engine_core::Engine;
use epoch_journal::{EpochJournal, RecoveredDisk};
use std::alloc::{AllocError, Global};
use store_setup::Setup;
use teb_rules::names::Cell;
use tree_switch::with_rows;
use version_chain::Chains;

/// Opens what a disk has under the tables of a setup, or begins on an empty disk, with the rows of the setup. Returns an engine under
/// the setup with the rows that were found, in which nothing has happened, and the journal of an epoch that begins with them.
///
/// # Errors
/// `Damaged`, `OtherCapacity`, `OtherTables`, `Full` and `OutOfMemory`: nothing was written. `DiskFault` if a call of the disk fails.
/// The disk is handed back, and may be opened again.
pub(crate) fn open_parts<C: Chains, D: Disk>(
    alloc: Global,
    disk: D,
    setup: Setup,
    chains: C,
) -> Result<(Engine<C>, EpochJournal<D>), NotOpened<D>>
    requires setup { IsWhole (setup_view setup) }
    requires chains { (x : TheCell) → C.lists chains x ≡ [] }
    ensures engine { IfOk result (λ o. IsBeginning setup o.0) }
    ensures opened { IfOk result (λ o. IsOpened D.seen D.may_leave D.moment D.left_since (layout_of (D.capacity disk) setup) (row_of setup.rows) disk o.0.store.rows o.1) }
    ensures refused { IfErr result (λ back. IsRefused D.seen D.may_leave D.moment D.left_since D.faults D.capacity
        (layout_of (D.capacity disk) setup) (row_of setup.rows) (length setup.names.tables) disk back.disk back.why) }
    ensures granted { IfOk result (λ o. D.refusals o.1.disk ≡ D.refusals disk) }
    ensures calls { IfOk result (λ o. IsUpTo (3 * half_size (D.capacity disk) + 28) (half_size (D.capacity disk) + 14) (D.tally disk) (D.tally o.1.disk)) }
    ensures calls_back { IfErr result (λ back. IsUpTo (3 * half_size (D.capacity disk) + 28) (half_size (D.capacity disk) + 14) (D.tally disk) (D.tally back.disk)) }
{
    let recovered = match recover(alloc, disk, &setup) {
        Ok(recovered) => recovered,
        Err(back) => return Err(back),
    };
    let engine = match engine_over(alloc, setup, recovered.rows(), chains) {
        Ok(engine) => engine,
        Err(error) => {
            return Err(NotOpened {
                disk: recovered.into_disk(),
                why: error.into(),
            });
        }
    };
    match recovered.begin(alloc) {
        Ok((journal, _rows)) => Ok((engine, journal)),
        Err(back) => Err(NotOpened {
            disk: back.disk,
            why: back.why.into(),
        }),
    }
}

/// Reads the rows that a disk has under the tables of a setup, over the rows of the setup. Each is of one of the tables. Nothing is
/// written.
fn recover<D: Disk>(alloc: Global, disk: D, setup: &Setup) -> Result<RecoveredDisk<D>, NotOpened<D>>
    ensures recovered { IfOk result (λ d. IsRecovered D.seen D.may_leave D.moment D.left_since D.faults D.capacity
        (layout_of (D.capacity disk) setup.now) (row_of setup.now.rows) disk d) }
    ensures inside { IfOk result (λ d. AreOfTables (length setup.now.names.tables) d.rows) }
    ensures refused { IfErr result (λ back. IsRefused D.seen D.may_leave D.moment D.left_since D.faults D.capacity
        (layout_of (D.capacity disk) setup.now) (row_of setup.now.rows) (length setup.now.names.tables) disk back.disk back.why) }
    ensures granted { IfOk result (λ d. D.refusals d.disk ≡ D.refusals disk) }
    ensures calls { IfOk result (λ d. IsUpTo (3 * half_size (D.capacity disk) + 20) 0 (D.tally disk) (D.tally d.disk)) }
    ensures calls_back { IfErr result (λ back. IsUpTo (3 * half_size (D.capacity disk) + 20) 0 (D.tally disk) (D.tally back.disk)) }
{
    let label = match label_of(alloc, &setup.names.tables) {
        Ok(label) => label,
        Err(error) => {
            return Err(NotOpened {
                disk,
                why: error.into(),
            });
        }
    };
    match RecoveredDisk::recover(alloc, disk, &label, setup.rows.rows()) {
        Ok(recovered) => check_rows(recovered, setup.names.tables.len()),
        Err(back) => Err(NotOpened {
            disk: back.disk,
            why: back.why.into(),
        }),
    }
}

/// Returns a disk that was read if each of its rows is of one of the first `tables` tables.
///
/// # Errors
/// `Damaged` at the half that was read if not.
fn check_rows<D: Disk>(
    recovered: RecoveredDisk<D>,
    tables: u8,
) -> Result<RecoveredDisk<D>, NotOpened<D>>
    ensures inside { IfOk result (λ d. (d ≡ recovered) × AreOfTables tables d.rows) }
    ensures outside { IfErr result (λ back. (back.disk ≡ recovered.disk) × HasRowOutside tables (row_of recovered.rows)
        × (back.why ≡ errors.Damaged (half_found_at recovered.layout.capacity recovered.current))) }
{
    if are_of_tables(recovered.rows(), tables) {
        return Ok(recovered);
    }
    let at = recovered.half_at();
    Err(NotOpened {
        disk: recovered.into_disk(),
        why: OpenError::Damaged { at },
    })
}

/// Returns an engine under a setup, with these rows in place of those of the setup. Nothing has happened in it.
fn engine_over<C: Chains>(
    alloc: Global,
    setup: Setup,
    rows: &[(Cell, i64)],
    chains: C,
) -> Result<Engine<C>, AllocError>
    requires setup { IsWhole (setup_view setup) }
    requires chains { (x : TheCell) → C.lists chains x ≡ [] }
    requires ascending { IsAscending rows.now }
    requires tables { AreOfTables (length setup.names.tables) rows.now }
    ensures engine { IfOk result (λ e. IsBeginning setup e) }
    ensures rows { IfOk result (λ e. e.store.rows ≡ rows.now) }
{
    let rows = Vec::from_slice(alloc, rows)?;
    Engine::new(alloc, with_rows(setup, rows), chains)
}
