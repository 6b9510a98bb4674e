//! Which transactions have committed, and whether an order lists them.

ghost use Rattle.std.specs.Prelude.{◌≡◌, ℕ, ◌<◌, ◌^◌, ◌||◌, ◌&&◌, length, not, IfOk, OnOk, List};
ghost use Rattle.std.specs.List.{list_all};
ghost use Rattle.audit_check.specs.Faults.{wrong_order, is_among, are_distinct_and};
ghost use Rattle.audit_check.specs.Findings.{Finds};
ghost use Rattle.audit_check.specs.Items.{Item};
ghost use Rattle.audit_check.specs.Keeps.{MarksCommits, Lists, commit_passes};
ghost use Rattle.audit_check.specs.Marks.{is_marked};
ghost use Rattle.audit_check.specs.Standings.{committed, commits, is_done};
ghost use Rattle.audit_check.specs.Views.{views, line_view};
ghost use Rattle.audit_check.specs.declared.error.AuditWhy.TheVariants.{Order};

use super::error::{AuditError, AuditWhy, no};
use super::line::Line;
use super::marks::{mark, marked};
use std::alloc::{AllocError, Global};

/// Checks that the order line lists each committed transaction once, and no other.
///
/// # Errors
/// `No` with `Order` names the order line if it does not. `OutOfMemory`: out of memory.
pub fn check_order(alloc: Global, lines: &[Line]) -> Result<(), AuditError>
    requires { length lines.now < 2 ^ 32 }
    ensures { Finds Order (wrong_order (views lines.now)) (views lines.now) result }
{
    let done = committed(alloc, lines)?;
    for i in 0..lines.len() {
        if !is_right(alloc, lines, &done, &lines[i])? {
            return Err(no(i, AuditWhy::Order));
        }
    }
    Ok(())
}

/// Marks each transaction that commits.
fn committed(alloc: Global, lines: &[Line]) -> Result<Vec<bool>, AllocError>
    ensures { IfOk result (λ done. MarksCommits done.items (views lines.now)) }
{
    let mut done = Vec::new(alloc);
    for line in lines {
        mark_commit(&mut done, line)?;
    }
    Ok(done)
}

/// Marks the transaction of a line, if the line commits it.
///
/// # Errors
/// `AllocError`: out of memory.
pub fn mark_commit(done: &mut Vec<bool>, line: &Line) -> Result<(), AllocError>
    ensures { OnOk result ((t : ℕ) → is_marked done.new.items t ≡ (is_done t (line_view line.now) || is_marked done.old.items t)) }
{
    match line {
        Line::Done(txn) => mark(done, *txn),
        _ => Ok(()),
    }
}

/// Returns true unless the line is an order that is wrong.
fn is_right(alloc: Global, lines: &[Line], done: &[bool], line: &Line) -> Result<bool, AllocError>
    requires { MarksCommits done.now (views lines.now) }
    ensures { IfOk result (λ ok. (past : List Item) → ok ≡ not (wrong_order (views lines.now) past (line_view line.now))) }
{
    match line {
        Line::Order(txns) => is_order(alloc, lines, done, txns),
        _ => Ok(true),
    }
}

fn is_order(alloc: Global, lines: &[Line], done: &[bool], txns: &[u32]) -> Result<bool, AllocError>
    requires { MarksCommits done.now (views lines.now) }
    ensures { IfOk result (λ ok. ok ≡ (are_distinct_and (committed (views lines.now)) txns.now && list_all (is_among txns.now) (commits (views lines.now)))) }
{
    match listed(alloc, done, txns)? {
        None => Ok(false),
        Some(listed) => Ok(are_listed(lines, &listed)),
    }
}

/// Marks the transactions of an order, or returns `None` if one is listed twice or does not commit.
fn listed(alloc: Global, done: &[bool], txns: &[u32]) -> Result<Option<Vec<bool>>, AllocError>
    ensures { IfOk result (λ o. Lists (is_marked done.now) txns.now o) }
{
    let mut listed = Vec::new(alloc);
    for txn in txns {
        if marked(&listed, *txn) || !marked(done, *txn) {
            return Ok(None);
        }
        mark(&mut listed, *txn)?;
    }
    Ok(Some(listed))
}

/// Returns whether each transaction that commits is marked.
#[tactic(auto, using(crate::proofs::OrderRules::commits_pass))]
fn are_listed(lines: &[Line], listed: &[bool]) -> bool
    ensures { result ≡ list_all (is_marked listed.now) (commits (views lines.now)) }
{
    all_pass(lines, listed)
}

fn all_pass(lines: &[Line], listed: &[bool]) -> bool
    ensures { result ≡ list_all (λ l. commit_passes (is_marked listed.now) (line_view l)) lines.now }
{
    lines.iter().all(|line| passes(line, listed))
}

fn passes(line: &Line, listed: &[bool]) -> bool
    ensures { result ≡ commit_passes (is_marked listed.now) (line_view line.now) }
{
    match line {
        Line::Done(txn) => marked(listed, *txn),
        _ => true,
    }
}
