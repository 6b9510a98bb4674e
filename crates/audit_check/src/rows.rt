//! The final rows of a printed run.

ghost use Rattle.std.specs.Prelude.{◌≡◌, ◌<◌, ◌^◌, ◌∷◌, ◌++◌, [], if◌then◌else◌, length, not, OnOk, List};
ghost use Rattle.std.specs.List.{list_any};
ghost use Rattle.audit_check.specs.Faults.{wrong_row, is_missing, row_keys_in};
ghost use Rattle.audit_check.specs.Findings.{Finds};
ghost use Rattle.audit_check.specs.Items.{Item};
ghost use Rattle.audit_check.specs.Keeps.{HoldsTable, SeesRows, row_key_passes};
ghost use Rattle.audit_check.specs.Tables.{last_table};
ghost use Rattle.audit_check.specs.Views.{views, line_view, row_key_view, row_keys, has_row_key};
ghost use Rattle.audit_check.specs.declared.error.AuditWhy.TheVariants.{Row};

use super::error::{AuditError, AuditWhy, no};
use super::line::{Line, RowKey};
use super::table::{Table, value_at};
use indexmap::IndexSet;
use std::alloc::{AllocFailed, Global};

/// Checks that each row line is a row of the last table, and that each row of the table has a line.
///
/// # Errors
/// `No` with `Row` names the first row line that is not in the table, or the line `end` if a row of the table has no line.
/// `OutOfMemory`: out of memory.
pub fn check_rows<'a>(
    alloc: Global,
    table: &Table<'a>,
    lines: &[Line<'a>],
) -> Result<(), AuditError>
    requires few { length lines.now < 2 ^ 32 }
    requires table { HoldsTable table.now.values.entries (last_table (views lines.now)) }
    ensures { Finds Row (wrong_row (views lines.now)) (views lines.now) result }
{
    let mut seen = IndexSet::new(alloc);
    see_rows(&mut seen, table, lines)
}

/// The same, if no row has been seen.
fn see_rows<'a>(
    seen: &mut IndexSet<RowKey<'a>>,
    table: &Table<'a>,
    lines: &[Line<'a>],
) -> Result<(), AuditError>
    requires none { seen.old.keys ≡ [] }
    requires few { length lines.now < 2 ^ 32 }
    requires table { HoldsTable table.now.values.entries (last_table (views lines.now)) }
    ensures { Finds Row (wrong_row (views lines.now)) (views lines.now) result }
{
    for i in 0..lines.len() {
        let line = &lines[i];
        if !is_right(table, seen, lines, line) {
            return Err(no(i, AuditWhy::Row));
        }
        see(seen, line)?;
    }
    Ok(())
}

/// Keeps the row key of a row line.
fn see<'a>(seen: &mut IndexSet<RowKey<'a>>, line: &Line<'a>) -> Result<(), AllocFailed<RowKey<'a>>>
    ensures { OnOk result ((past : List Item) → SeesRows seen.old.keys past → SeesRows seen.new.keys (line_view line.now ∷ past)) }
{
    match line {
        Line::Row(row_key, _) => see_row_key(seen, *row_key),
        _ => Ok(()),
    }
}

fn see_row_key<'a>(
    seen: &mut IndexSet<RowKey<'a>>,
    row_key: RowKey<'a>,
) -> Result<(), AllocFailed<RowKey<'a>>>
    ensures { OnOk result (seen.new.keys ≡ (if has_row_key (row_keys seen.old.keys) (row_key_view row_key.entry) then seen.old.keys else seen.old.keys ++ row_key.entry ∷ [])) }
{
    seen.insert(row_key)?;
    Ok(())
}

/// Returns true unless the line is a wrong row, or an end with a row missing.
fn is_right(table: &Table, seen: &IndexSet<RowKey>, lines: &[Line], line: &Line) -> bool
    requires { HoldsTable table.now.values.entries (last_table (views lines.now)) }
    ensures { (past : List Item) → SeesRows seen.now.keys past → result ≡ not (wrong_row (views lines.now) past (line_view line.now)) }
{
    match line {
        Line::Row(row_key, value) => value_at(table, *row_key) == Some(*value),
        Line::End => !any_missing(table, seen, lines),
        _ => true,
    }
}

/// Returns whether a row of the table has not been seen.
fn any_missing(table: &Table, seen: &IndexSet<RowKey>, lines: &[Line]) -> bool
    requires { HoldsTable table.now.values.entries (last_table (views lines.now)) }
    ensures { (past : List Item) → SeesRows seen.now.keys past → result ≡ list_any (is_missing (views lines.now) past) (row_keys_in (views lines.now)) }
{
    lines.iter().any(|line| misses(table, seen, line))
}

/// Returns whether the line is of a row key that has a row and has not been seen.
fn misses(table: &Table, seen: &IndexSet<RowKey>, line: &Line) -> bool
    ensures { (H : List Item) (past : List Item) → HoldsTable table.now.values.entries (last_table H) → SeesRows seen.now.keys past → result ≡ row_key_passes (is_missing H past) (line_view line.now) }
{
    match line {
        Line::Start(row_key, _) => misses_row_key(table, seen, *row_key),
        Line::Put { row_key, .. } => misses_row_key(table, seen, *row_key),
        _ => false,
    }
}

#[tactic(auto, using(crate::proofs::RowSteps::missed))]
fn misses_row_key(table: &Table, seen: &IndexSet<RowKey>, row_key: RowKey) -> bool
    ensures { (H : List Item) (past : List Item) → HoldsTable table.now.values.entries (last_table H) → SeesRows seen.now.keys past → result ≡ is_missing H past (row_key_view row_key.entry) }
{
    let has_row = value_at(table, row_key).is_some();
    let was_seen = sees(seen, row_key);
    has_row && !was_seen
}

fn sees(seen: &IndexSet<RowKey>, row_key: RowKey) -> bool
    ensures { result ≡ has_row_key (row_keys seen.now.keys) (row_key_view row_key.entry) }
{
    seen.contains(&row_key)
}
