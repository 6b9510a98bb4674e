//! Commits before a transaction that was read from.

ghost use Rattle.std.specs.Prelude.{◌≡◌, ℕ, ◌<◌, ◌^◌, ◌||◌, ◌&&◌, ◌==◌, Bool, [], length, not, OnOk, List};
ghost use Rattle.std.specs.List.{list_any};
ghost use Rattle.audit_check.specs.Faults.{wrong_after, reads_from};
ghost use Rattle.audit_check.specs.Findings.{Finds};
ghost use Rattle.audit_check.specs.Items.{Item};
ghost use Rattle.audit_check.specs.Keeps.{MarksCommits, KeepsSources};
ghost use Rattle.audit_check.specs.Marks.{is_marked, list_at};
ghost use Rattle.audit_check.specs.Views.{views, line_view};
ghost use Rattle.audit_check.specs.declared.error.AuditWhy.TheVariants.{After};

use super::commits::mark_commit;
use super::error::{AuditError, AuditWhy, no};
use super::line::Line;
use super::marks::{keep, list_at, marked};
use std::alloc::{AllocError, Global};

/// Checks that no line commits a transaction before one that it read from.
///
/// # Errors
/// `No` with `After` names the first line that does. `OutOfMemory`: out of memory.
pub fn check_after(alloc: Global, lines: &[Line]) -> Result<(), AuditError>
    requires { length lines.now < 2 ^ 32 }
    ensures { Finds After wrong_after (views lines.now) result }
{
    let mut done = Vec::new(alloc);
    let mut sources = Vec::new(alloc);
    first_early(alloc, &mut done, &mut sources, lines)
}

/// The same, if nothing is marked or kept yet.
fn first_early(
    alloc: Global,
    done: &mut Vec<bool>,
    sources: &mut Vec<Vec<u32>>,
    lines: &[Line],
) -> Result<(), AuditError>
    requires done { done.old.items ≡ [] }
    requires sources { sources.old.items ≡ [] }
    requires few { length lines.now < 2 ^ 32 }
    ensures { Finds After wrong_after (views lines.now) result }
{
    for i in 0..lines.len() {
        let line = &lines[i];
        if is_early(done, sources, line) {
            return Err(no(i, AuditWhy::After));
        }
        mark_commit(done, line)?;
        keep_source(alloc, sources, line)?;
    }
    Ok(())
}

/// Returns whether the line commits a transaction before one that it read from.
fn is_early(done: &[bool], sources: &[Vec<u32>], line: &Line) -> bool
    ensures { (past : List Item) → MarksCommits done.now past → KeepsSources sources.now past → result ≡ wrong_after past (line_view line.now) }
{
    match line {
        Line::Done(txn) => any_open(done, list_at(sources, *txn)),
        _ => false,
    }
}

/// Returns whether one of the transactions is not marked.
fn any_open(done: &[bool], txns: &[u32]) -> bool
    ensures { result ≡ list_any (λ t. not (is_marked done.now t)) txns.now }
{
    txns.iter().any(|txn| !marked(done, *txn))
}

/// Keeps the transaction that this line reads from, for the one that reads.
fn keep_source(alloc: Global, sources: &mut Vec<Vec<u32>>, line: &Line) -> Result<(), AllocError>
    ensures { OnOk result ((p : ℕ → Bool) (t : ℕ) → list_any p (list_at sources.new.items t) ≡ (reads_from p t (line_view line.now) || list_any p (list_at sources.old.items t))) }
{
    match line {
        Line::Got { txn, from, .. } => keep_from(alloc, sources, *txn, *from),
        _ => Ok(()),
    }
}

#[tactic(auto, using(crate::proofs::AfterRules::source_kept, crate::proofs::AfterRules::source_own, crate::proofs::AfterRules::source_start))]
fn keep_from(
    alloc: Global,
    sources: &mut Vec<Vec<u32>>,
    txn: u32,
    from: u32,
) -> Result<(), AllocError>
    ensures { OnOk result ((p : ℕ → Bool) (t : ℕ) → list_any p (list_at sources.new.items t) ≡ (txn == t && not (from == t) && not (from == 0) && p from || list_any p (list_at sources.old.items t))) }
{
    if from == txn || from == 0 {
        return Ok(());
    }
    keep(alloc, sources, txn, from)
}
