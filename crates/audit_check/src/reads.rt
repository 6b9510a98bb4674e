//! The transactions of a printed run, run serially.

ghost use Rattle.std.specs.Prelude.{◌≡◌, ℕ, ◌<◌, ◌^◌, ◌++◌, ◌∷◌, [], true, length, IfOk, OnOk, if◌then◌else◌, slice_index_or, take};
ghost use Rattle.audit_check.specs.Faults.{wrong_read, are_distinct};
ghost use Rattle.audit_check.specs.Findings.{Finds};
ghost use Rattle.audit_check.specs.Keeps.{HoldsTable, StepsLine, RunsTo, Replays, own_from, is_own};
ghost use Rattle.audit_check.specs.Marks.{is_marked, list_at};
ghost use Rattle.audit_check.specs.Tables.{Values, last_table, order_in};
ghost use Rattle.audit_check.specs.Views.{views, line_view};
ghost use Rattle.audit_check.specs.declared.error.AuditWhy.TheVariants.{Read};
ghost use Rattle.audit_check.specs.declared.line.Line.TheVariants.{End};

use super::error::{AuditError, AuditWhy, no};
use super::line::Line;
use super::marks::{keep, list_at, marked};
use super::table::{Table, put, starting_table, value_at};
use std::alloc::{AllocError, Global};

/// The result of the order: the last table, and for each line whether it is a wrong read.
pub struct Replay<'a> {
    pub table: Table<'a>,
    wrong: Vec<bool>,
}

/// Hand-written `Drop`, so that callers do not re-prove the drop glue.
impl<'a> Drop for Replay<'a> {
    fn drop(self) {
        let Replay {
            table: _table,
            wrong: _wrong,
        } = self;
    }
}

/// Runs the transactions of the order line serially, and returns the result.
///
/// # Errors
/// `No` with `Read` names the first wrong read. `OutOfMemory`: out of memory.
pub fn check_reads<'a>(alloc: Global, lines: &[Line<'a>]) -> Result<Replay<'a>, AuditError>
    requires few { length lines.now < 2 ^ 32 }
    requires once { are_distinct (order_in (views lines.now)) ≡ true }
    ensures read { Finds Read (wrong_read (views lines.now)) (views lines.now) result }
    ensures table { IfOk result (λ r. HoldsTable r.table.values.entries (last_table (views lines.now))) }
{
    let replay = replayed(alloc, lines)?;
    first_wrong(lines, &replay.wrong)?;
    Ok(replay)
}

/// Finds the first marked line.
fn first_wrong(lines: &[Line], wrong: &[bool]) -> Result<(), AuditError>
    requires few { length lines.now < 2 ^ 32 }
    requires told { (i : ℕ) → i < length lines.now → is_marked wrong.now i ≡ wrong_read (views lines.now) (views (take i lines.now)) (line_view (slice_index_or lines.now i End)) }
    ensures { Finds Read (wrong_read (views lines.now)) (views lines.now) result }
{
    for i in 0..lines.len() {
        if marked(wrong, i as u32) {
            return Err(no(i, AuditWhy::Read));
        }
    }
    Ok(())
}

/// Runs the transactions of the order line serially from the starting rows.
fn replayed<'a>(alloc: Global, lines: &[Line<'a>]) -> Result<Replay<'a>, AllocError>
    requires few { length lines.now < 2 ^ 32 }
    requires once { are_distinct (order_in (views lines.now)) ≡ true }
    ensures length { IfOk result (λ r. length r.wrong.items ≡ length lines.now) }
    ensures replays { IfOk result (λ r. Replays (order_in (views lines.now)) lines.now r.table.values.entries r.wrong.items) }
{
    let own = own_lines(alloc, lines)?;
    let mut replay = Replay {
        table: starting_table(alloc, lines)?,
        wrong: vec![in alloc; false; lines.len()]?,
    };
    for txn in order(lines) {
        run(&mut replay, lines, &own, *txn)?;
    }
    Ok(replay)
}

/// Returns the transactions of the order line.
fn order<'b>(lines: &'b [Line]) -> &'b [u32]
    ensures { result.now ≡ order_in (views lines.now) }
{
    for i in 0..lines.len() {
        if let Line::Order(txns) = &lines[lines.len() - 1 - i] {
            return txns.as_slice();
        }
    }
    &[]
}

/// Returns for each transaction the lines by which it reads and writes.
fn own_lines(alloc: Global, lines: &[Line]) -> Result<Vec<Vec<u32>>, AllocError>
    requires { length lines.now < 2 ^ 32 }
    ensures { IfOk result (λ own. (t : ℕ) → list_at own.items t ≡ own_from t 0 lines.now) }
{
    let mut own = Vec::new(alloc);
    for i in 0..lines.len() {
        keep_own(alloc, &mut own, &lines[i], i as u32)?;
    }
    Ok(own)
}

fn keep_own(alloc: Global, own: &mut Vec<Vec<u32>>, line: &Line, at: u32) -> Result<(), AllocError>
    ensures { OnOk result ((t : ℕ) → list_at own.new.items t ≡ (if is_own t (line_view line.now) then list_at own.old.items t ++ at ∷ [] else list_at own.old.items t)) }
{
    match line {
        Line::Got { txn, .. } | Line::Put { txn, .. } => keep(alloc, own, *txn, at),
        _ => Ok(()),
    }
}

/// Runs one transaction, by its own lines.
fn run<'a>(
    replay: &mut Replay<'a>,
    lines: &[Line<'a>],
    own: &[Vec<u32>],
    txn: u32,
) -> Result<(), AllocError>
    requires own { (t : ℕ) → list_at own.now t ≡ own_from t 0 lines.now }
    requires all { length replay.old.wrong.items ≡ length lines.now }
    ensures length { OnOk result (length replay.new.wrong.items ≡ length lines.now) }
    ensures runs { OnOk result ((T : Values) → HoldsTable replay.old.table.values.entries T → RunsTo (length lines.now) txn lines.now T replay.old.wrong.items replay.new.table.values.entries
        replay.new.wrong.items) }
{
    for at in list_at(own, txn) {
        let i = *at as usize;
        step(replay, &lines[i], i)?;
    }
    Ok(())
}

/// Runs one line.
fn step<'a>(replay: &mut Replay<'a>, line: &Line<'a>, i: usize) -> Result<(), AllocError>
    requires { i < length replay.old.wrong.items }
    ensures length { OnOk result (length replay.new.wrong.items ≡ length replay.old.wrong.items) }
    ensures steps { OnOk result ((T : Values) → HoldsTable replay.old.table.values.entries T → StepsLine T (line_view line.now) i replay.old.wrong.items replay.new.table.values.entries
        replay.new.wrong.items) }
{
    match line {
        Line::Got { row_key, value, .. } => {
            replay.wrong[i] = value_at(&replay.table, *row_key) != *value;
            Ok(())
        }
        Line::Put { row_key, value, .. } => put(&mut replay.table, *row_key, *value),
        _ => Ok(()),
    }
}
