//! What a store comes to: the serial order, and the final tables.

ghost use Rattle.std.specs.Prelude.{◌≡◌, ◌≢◌, ◌↔◌, Some, IsNone, IfOk, List, ℤ};
ghost use Rattle.teb_rules.specs.declared.names.Cell.{Cell as TheCell};
ghost use Rattle.teb_rules.specs.Ranks.{serial_order};
ghost use Rattle.serial_order.specs.Commits.{txn_numbers};
ghost use Rattle.teb_rules.specs.Epochs.{AreFinalRows};
ghost use Rattle.c_forms.specs.Rows.{row_forms};
ghost use Rattle.tebaldi_c.specs.Asking.{IfOpen};
ghost use Rattle.tebaldi_c.specs.Buffers.{IsTold};
ghost use Rattle.tebaldi_c.specs.Ended.{AreFinal};

use crate::buffers::lay_over;
use crate::status::{NOT_OPEN, OK, OUT_OF_MEMORY};
use crate::store::StoreHandle;
use c_forms::{RowForm, row_form};
use chain_pool::PooledChains;
use engine_core::Engine;
use serial_order::{order, tables};
use std::alloc::{AllocError, Global};
use teb_rules::names::{Cell, Txn};

/// Copies as many of the committed transactions, in the serial order, as fit to `out`; `len` is how many there are.
///
/// # Errors
/// `NOT_OPEN`, `OUT_OF_MEMORY`. At each of them `out` and `len` are unchanged.
#[unsafe(no_mangle)]
pub extern "C" fn tebaldi_order(
    alloc: Global,
    store: &mut StoreHandle,
    out: &mut [u32],
    len: &mut usize,
) -> u32
    ensures ok { result ≡ OK → IfOpen store.old.held.value (λ s. IsTold (Some (serial_order s.engine.store.setup s.engine.events)) out.old out.new len.new) }
    ensures stays { store.new.held.value ≡ store.old.held.value }
    ensures not_open { result ≡ NOT_OPEN ↔ IsNone store.old.held.value }
    ensures not_told { result ≢ OK → (out.new ≡ out.old) × (len.new ≡ len.old) }
    ensures other { result ≢ OK → result ≢ NOT_OPEN → result ≡ OUT_OF_MEMORY }
{
    let Some(shelf) = store.take(alloc) else {
        return NOT_OPEN;
    };
    let status = match numbers(alloc, shelf.engine()) {
        Ok(numbers) => {
            *len = lay_over(out, &numbers);
            OK
        }
        Err(_) => OUT_OF_MEMORY,
    };
    store.put(shelf);
    status
}

/// Copies as many of the rows of the final tables, in ascending order, as fit to `out`; `len` is how many there are.
///
/// # Errors
/// `NOT_OPEN`, `OUT_OF_MEMORY`. At each of them `out` and `len` are unchanged.
#[unsafe(no_mangle)]
pub extern "C" fn tebaldi_rows(
    alloc: Global,
    store: &mut StoreHandle,
    out: &mut [RowForm],
    len: &mut usize,
) -> u32
    ensures ok { result ≡ OK → IfOpen store.old.held.value (λ s. AreFinal s.engine out.old out.new len.new) }
    ensures stays { store.new.held.value ≡ store.old.held.value }
    ensures not_open { result ≡ NOT_OPEN ↔ IsNone store.old.held.value }
    ensures not_told { result ≢ OK → (out.new ≡ out.old) × (len.new ≡ len.old) }
    ensures other { result ≢ OK → result ≢ NOT_OPEN → result ≡ OUT_OF_MEMORY }
{
    let Some(shelf) = store.take(alloc) else {
        return NOT_OPEN;
    };
    let status = match forms(alloc, shelf.engine()) {
        Ok(forms) => {
            *len = lay_over(out, &forms);
            OK
        }
        Err(_) => OUT_OF_MEMORY,
    };
    store.put(shelf);
    status
}

/// Returns the numbers of the committed transactions, in the serial order.
fn numbers(alloc: Global, engine: &Engine<PooledChains>) -> Result<Vec<u32>, AllocError>
    ensures { IfOk result (λ v. v.items ≡ serial_order engine.now.store.setup engine.now.events) }
{
    numbers_of(alloc, &order(alloc, engine)?)
}

fn numbers_of(alloc: Global, txns: &[Txn]) -> Result<Vec<u32>, AllocError>
    ensures { IfOk result (λ v. v.items ≡ txn_numbers txns.now) }
{
    let mut numbers = Vec::with_capacity(alloc, txns.len())?;
    for txn in txns {
        numbers.push(txn.0)?;
    }
    Ok(numbers)
}

/// Returns the rows of the final tables, in ascending order.
fn forms(alloc: Global, engine: &Engine<PooledChains>) -> Result<Vec<RowForm>, AllocError>
    ensures { IfOk result (λ v. (rows : List (TheCell × ℤ)) × (AreFinalRows engine.now.store engine.now.events rows × (v.items ≡ row_forms rows))) }
{
    forms_of(alloc, &tables(alloc, engine)?)
}

fn forms_of(alloc: Global, rows: &[(Cell, i64)]) -> Result<Vec<RowForm>, AllocError>
    ensures { IfOk result (λ v. v.items ≡ row_forms rows.now) }
{
    let mut forms = Vec::with_capacity(alloc, rows.len())?;
    for row in rows {
        forms.push(row_form(*row))?;
    }
    Ok(forms)
}
