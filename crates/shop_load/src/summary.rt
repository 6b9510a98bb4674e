//! The summary of a generated load.

ghost use Rattle.std.specs.Prelude.{◌≡◌, ◌++◌, ◌∷◌, [], codes, decimal, IfOk, length, List, OnOk};
ghost use Rattle.script_text.specs.declared.Answered.{Answered};
ghost use Rattle.script_text.specs.Texts.{line_text};
ghost use Rattle.teb_rules.specs.history.Phases.{committed as is_committed, aborted as is_aborted};
ghost use Rattle.shop_load.specs.Summaries.{IsSummary, count_of, count_line, added, sum_in, sum_line};

use crate::shop::{ACCOUNTS, ORDERS, STOCK};
use engine_core::Engine;
use itoa::Buffer;
use serial_order::tables;
use std::alloc::{AllocError, Global};
use teb_rules::history::History;
use teb_rules::names::{Cell, Table, Txn};
use version_chain::Chains;

/// Returns what was asked for, the counts of transactions and requests, and the sums of the final tables. It costs one pass over
/// the history and over the final rows.
///
/// # Errors
/// `AllocError`: out of memory.
pub fn summary_of<C: Chains>(
    alloc: Global,
    number: u32,
    size: u32,
    engine: &Engine<C>,
    requests: usize,
) -> Result<Vec<u8>, AllocError>
    ensures { IfOk result (λ v. (answers : List Answered) → length answers ≡ requests
        → IsSummary number size engine.now.store engine.now.events answers v.items) }
{
    let rows = tables(alloc, engine)?;
    let Counts { committed, aborted } = counts_of(engine.history());
    let mut text = Vec::new(alloc);
    put_load(&mut text, number, size)?;
    put_count(&mut text, "committed", committed as usize)?;
    put_count(&mut text, "aborted", aborted as usize)?;
    put_count(&mut text, "requests", requests)?;
    put_sum(&mut text, "stock", sum_in(&rows, STOCK))?;
    put_sum(&mut text, "orders", sum_in(&rows, ORDERS))?;
    put_sum(&mut text, "acct", sum_in(&rows, ACCOUNTS))?;
    text.extend_from_slice(b"end\n")?;
    Ok(text)
}

/// How many transactions have committed, and how many were aborted.
struct Counts {
    committed: u32,
    aborted: u32,
}

fn counts_of(history: &History) -> Counts
    ensures committed { result.committed ≡ count_of (is_committed history.now.events) history.now.events }
    ensures aborted { result.aborted ≡ count_of (is_aborted history.now.events) history.now.events }
{
    let mut counts = Counts {
        committed: 0,
        aborted: 0,
    };
    for i in 0..history.begun() {
        let txn = Txn(i + 1);
        counts.committed += u32::from(history.is_committed(txn));
        counts.aborted += u32::from(history.is_aborted(txn));
    }
    counts
}

/// Returns the sum of a table's rows.
fn sum_in(rows: &[(Cell, i64)], table: Table) -> i128
    ensures { result ≡ sum_in table.0 rows.now }
{
    let mut sum = 0;
    for row in rows {
        sum += i128::from(added(row, table));
    }
    sum
}

/// Returns what a row adds to the sum of a table.
fn added(row: &(Cell, i64), table: Table) -> i64
    ensures { result ≡ added table.0 row.now }
{
    if row.0.table == table { row.1 } else { 0 }
}

fn put_load(out: &mut Vec<u8>, number: u32, size: u32) -> Result<(), AllocError>
    ensures { OnOk result (out.new.items ≡ out.old.items ++ line_text (codes "load" ∷ decimal number ∷ decimal size ∷ [])) }
{
    out.extend_from_slice(b"load ")?;
    out.extend_from_slice(Buffer::new().format(number).as_bytes())?;
    out.push(b' ')?;
    out.extend_from_slice(Buffer::new().format(size).as_bytes())?;
    out.extend_from_slice(b"\n")
}

fn put_count(out: &mut Vec<u8>, word: &str, count: usize) -> Result<(), AllocError>
    ensures { OnOk result (out.new.items ≡ out.old.items ++ count_line word.now count) }
{
    out.extend_from_slice(word.as_bytes())?;
    out.push(b' ')?;
    out.extend_from_slice(Buffer::new().format(count).as_bytes())?;
    out.extend_from_slice(b"\n")
}

fn put_sum(out: &mut Vec<u8>, table: &str, sum: i128) -> Result<(), AllocError>
    ensures { OnOk result (out.new.items ≡ out.old.items ++ sum_line table.now sum) }
{
    out.extend_from_slice(b"sum ")?;
    out.extend_from_slice(table.as_bytes())?;
    out.push(b' ')?;
    out.extend_from_slice(Buffer::new().format(sum).as_bytes())?;
    out.extend_from_slice(b"\n")
}
