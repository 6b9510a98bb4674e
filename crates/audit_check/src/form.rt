//! The form of a printed run: its lines, in their order, with no cell twice.

ghost use Rattle.std.specs.Prelude.{◌≡◌, ◌<◌, ◌^◌, ◌∷◌, [], ◌++◌, ◌+◌, length, not, IsTrue, IfOk, OnOk, IfErr, List};
ghost use Rattle.audit_check.specs.Items.{Item};
ghost use Rattle.audit_check.specs.Lines.{parts_of, items_of, items_from, fits, fitting, repeats, is_over, may_follow, part, part_after};
ghost use Rattle.audit_check.specs.Views.{nows, line_view, views, row_key_view, row_keys, has_row_key, KeepsCells, Takes, ReadsLines, ReadsInto};
ghost use Rattle.audit_check.specs.declared.error.AuditError.TheVariants.{OutOfMemory};
ghost use Rattle.audit_check.specs.declared.error.AuditWhy.TheVariants.{Form};

use super::error::{AuditError, AuditWhy, no};
use super::line::{Line, RowKey};
use super::reading::read_line;
use indexmap::IndexSet;
use std::alloc::{AllocError, AllocFailed, Global};

/// The cells of the starting rows so far, and those of the final rows.
#[derive(Drop)]
struct Cells<'a> {
    starts: IndexSet<RowKey<'a>>,
    rows: IndexSet<RowKey<'a>>,
}

/// Returns the lines of a text, which are those of a printed run.
///
/// # Errors
/// `No` with `Form` names the first line that does not fit after those before it. `OutOfMemory`: out of memory.
#[tactic(auto, using(crate::proofs::FormSteps::has_part, crate::proofs::FormSteps::as_many), unfolding(crate::specs::Lines::items_of))]
pub fn read_lines<'a>(alloc: Global, text: &'a [u8]) -> Result<Vec<Line<'a>>, AuditError>
    requires { length (parts_of text.now) < 2 ^ 32 }
    ensures lines { ReadsLines result (items_of text.now) }
    ensures few { IfOk result (λ v. length v.items < 2 ^ 32) }
{
    let parts = parts(alloc, text)?;
    lines_in(alloc, &parts)
}

/// The same for the parts of a text.
#[tactic(auto, using(crate::proofs::FormSteps::not_read))]
fn lines_in<'a>(alloc: Global, parts: &[&'a [u8]]) -> Result<Vec<Line<'a>>, AuditError>
    requires some { 0 < length parts.now }
    requires few { length parts.now < 2 ^ 32 }
    ensures lines { ReadsLines result (items_from [] (nows parts.now)) }
    ensures few { IfOk result (λ v. length v.items < length parts.now) }
{
    let mut lines = Vec::new(alloc);
    add_lines(alloc, &mut lines, parts)?;
    Ok(lines)
}

/// Adds the lines of the parts to an empty list.
fn add_lines<'a>(
    alloc: Global,
    lines: &mut Vec<Line<'a>>,
    parts: &[&'a [u8]],
) -> Result<(), AuditError>
    requires first { lines.old.items ≡ [] }
    requires some { 0 < length parts.now }
    requires few { length parts.now < 2 ^ 32 }
    ensures lines { ReadsInto result lines.new.items (items_from [] (nows parts.now)) }
    ensures few { OnOk result (length lines.new.items < length parts.now) }
{
    let mut cells = Cells {
        starts: IndexSet::new(alloc),
        rows: IndexSet::new(alloc),
    };
    take_parts(alloc, lines, &mut cells, parts)
}

/// The same, if no cell is kept yet.
fn take_parts<'a>(
    alloc: Global,
    lines: &mut Vec<Line<'a>>,
    cells: &mut Cells<'a>,
    parts: &[&'a [u8]],
) -> Result<(), AuditError>
    requires first { lines.old.items ≡ [] }
    requires cells { KeepsCells cells.old.starts.keys cells.old.rows.keys [] }
    requires some { 0 < length parts.now }
    requires few { length parts.now < 2 ^ 32 }
    ensures lines { ReadsInto result lines.new.items (items_from [] (nows parts.now)) }
    ensures few { OnOk result (length lines.new.items < length parts.now) }
{
    let last = parts.len() - 1;
    for i in 0..last {
        if !take_part(alloc, lines, cells, parts[i])? {
            return Err(no(i, AuditWhy::Form));
        }
    }
    if is_over(lines, parts[last]) {
        Ok(())
    } else {
        Err(no(last, AuditWhy::Form))
    }
}

fn parts(alloc: Global, text: &[u8]) -> Result<Vec<&[u8]>, AllocError>
    ensures { IfOk result (λ v. nows v.items ≡ parts_of text.now) }
{
    text.split(|b| *b == b'\n').collect(alloc)
}

fn is_over(lines: &[Line], rest: &[u8]) -> bool
    ensures { result ≡ is_over (views lines.now) rest.now }
{
    last_part(lines) == 4 && rest.is_empty()
}

/// Appends the line if it fits, and returns whether it does.
#[tactic(auto, unfolding(crate::specs::Lines::fitting))]
fn take_part<'a>(
    alloc: Global,
    lines: &mut Vec<Line<'a>>,
    cells: &mut Cells<'a>,
    part: &'a [u8],
) -> Result<bool, AuditError>
    requires { KeepsCells cells.old.starts.keys cells.old.rows.keys (views lines.old.items) }
    ensures fits { IfOk result (λ ok. Takes (views lines.old.items) ok (views lines.new.items) (fitting (views lines.old.items) part.now)) }
    ensures kept { IfOk result (λ ok. IsTrue ok → KeepsCells cells.new.starts.keys cells.new.rows.keys (views lines.new.items)) }
    ensures err { IfErr result (λ e. e ≡ OutOfMemory) }
{
    match read_line(alloc, part)? {
        None => Ok(false),
        Some(line) => take_line(lines, cells, line),
    }
}

#[tactic(auto, using(crate::proofs::Cells::views_push))]
fn take_line<'a>(
    lines: &mut Vec<Line<'a>>,
    cells: &mut Cells<'a>,
    line: Line<'a>,
) -> Result<bool, AuditError>
    requires { KeepsCells cells.old.starts.keys cells.old.rows.keys (views lines.old.items) }
    ensures fits { IfOk result (λ ok. ok ≡ fits (views lines.old.items) (line_view line.entry)) }
    ensures taken { IfOk result (λ ok. IsTrue ok → views lines.new.items ≡ line_view line.entry ∷ views lines.old.items) }
    ensures kept { IfOk result (λ ok. IsTrue ok → KeepsCells cells.new.starts.keys cells.new.rows.keys (views lines.new.items)) }
    ensures err { IfErr result (λ e. e ≡ OutOfMemory) }
{
    if !may_follow(last_part(lines), part(&line)) {
        return Ok(false);
    }
    if !is_new(cells, &line)? {
        return Ok(false);
    }
    lines.push(line)?;
    Ok(true)
}

/// Returns false if the line is a row of a cell that had one. Otherwise, if it is a row, its cell is kept.
#[tactic(auto, using(crate::proofs::Cells::start_kept, crate::proofs::Cells::row_kept))]
fn is_new<'a>(cells: &mut Cells<'a>, line: &Line<'a>) -> Result<bool, AllocFailed<RowKey<'a>>>
    ensures new { IfOk result (λ new. (past : List Item) → KeepsCells cells.old.starts.keys cells.old.rows.keys past → new ≡ not (repeats past (line_view line.now))) }
    ensures kept { IfOk result (λ new. (past : List Item) → KeepsCells cells.old.starts.keys cells.old.rows.keys past → IsTrue new → KeepsCells cells.new.starts.keys cells.new.rows.keys
        (line_view line.now ∷ past)) }
{
    match line {
        Line::Start(row_key, _) => add_row_key(&mut cells.starts, *row_key),
        Line::Row(row_key, _) => add_row_key(&mut cells.rows, *row_key),
        _ => Ok(true),
    }
}

/// Keeps a row key, and returns whether it is new.
fn add_row_key<'a>(
    set: &mut IndexSet<RowKey<'a>>,
    row_key: RowKey<'a>,
) -> Result<bool, AllocFailed<RowKey<'a>>>
    ensures new { IfOk result (λ new. new ≡ not (has_row_key (row_keys set.old.keys) (row_key_view row_key.entry))) }
    ensures kept { IfOk result (λ new. IsTrue new → row_keys set.new.keys ≡ row_keys set.old.keys ++ row_key_view row_key.entry ∷ []) }
{
    set.insert(row_key)
}

/// Returns the number of the part of a printed run to which a line belongs.
fn part(line: &Line) -> u8
    ensures { result ≡ part (line_view line.now) }
{
    match line {
        Line::Start(_, _) => 0,
        Line::Order(_) => 2,
        Line::Row(_, _) => 3,
        Line::End => 4,
        _ => 1,
    }
}

fn last_part(lines: &[Line]) -> u8
    ensures { result ≡ part_after (views lines.now) }
{
    match lines {
        [] => 0,
        [.., line] => part(line),
    }
}

fn may_follow(before: u8, next: u8) -> bool
    ensures { result ≡ may_follow before next }
{
    let within = if next <= 2 {
        before < 2
    } else {
        1 < before && before < 4
    };
    before <= next && within
}
