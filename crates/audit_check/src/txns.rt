//! What a transaction can do in its present state.

ghost use Rattle.std.specs.Prelude.{◌≡◌, ◌<◌, ◌^◌, ◌&&◌, nat_lt, nat_le, length, false, not, OnOk, List, ◌∷◌};
ghost use Rattle.audit_check.specs.Faults.{wrong_txn};
ghost use Rattle.audit_check.specs.Findings.{Finds};
ghost use Rattle.audit_check.specs.Items.{Item};
ghost use Rattle.audit_check.specs.Keeps.{KeepsStandings};
ghost use Rattle.audit_check.specs.Standings.{unfinished};
ghost use Rattle.audit_check.specs.Views.{views, line_view};
ghost use Rattle.audit_check.specs.declared.error.AuditWhy.TheVariants.{Txn};

use super::error::{AuditError, AuditWhy, no};
use super::line::Line;
use super::marks::{mark, marked};
use std::alloc::{AllocError, Global};

/// How many transactions have begun, which have committed, and which have aborted.
#[derive(Drop)]
struct Standings {
    begun: u32,
    done: Vec<bool>,
    gone: Vec<bool>,
}

/// Checks that the transaction of each line can do what the line says.
///
/// # Errors
/// `No` with `Txn` names the first line whose transaction cannot. `OutOfMemory`: out of memory.
pub fn check_txns(alloc: Global, lines: &[Line]) -> Result<(), AuditError>
    requires { length lines.now < 2 ^ 32 }
    ensures { Finds Txn wrong_txn (views lines.now) result }
{
    let mut standings = Standings {
        begun: 0,
        done: Vec::new(alloc),
        gone: Vec::new(alloc),
    };
    for i in 0..lines.len() {
        let line = &lines[i];
        if !is_right(&standings, line) {
            return Err(no(i, AuditWhy::Txn));
        }
        take(&mut standings, line)?;
    }
    Ok(())
}

/// Returns whether the transaction of the line can do this.
#[tactic(auto, using(crate::proofs::TxnSteps::is_next, crate::proofs::TxnSteps::told_right, crate::proofs::TxnSteps::open_right))]
fn is_right(standings: &Standings, line: &Line) -> bool
    ensures { (past : List Item) → KeepsStandings standings.now.begun standings.now.done.items standings.now.gone.items past → result ≡ not (wrong_txn past (line_view line.now)) }
{
    match line {
        Line::Began(txn) => u64::from(*txn) == u64::from(standings.begun) + 1,
        Line::Told(txn) => marked(&standings.gone, *txn),
        Line::Got { txn, .. } => is_open(standings, *txn),
        Line::Put { txn, .. } => is_open(standings, *txn),
        Line::Ready(txn) => is_open(standings, *txn),
        Line::Done(txn) => is_open(standings, *txn),
        Line::Gone(txn) => is_open(standings, *txn),
        _ => true,
    }
}

/// Returns whether the transaction is unfinished.
fn is_open(standings: &Standings, txn: u32) -> bool
    ensures { (past : List Item) → KeepsStandings standings.now.begun standings.now.done.items standings.now.gone.items past → result ≡ unfinished past txn }
{
    let done = marked(&standings.done, txn);
    let gone = marked(&standings.gone, txn);
    let begun = has_begun(standings.begun, txn);
    is_unfinished(begun, done, gone)
}

fn is_unfinished(begun: bool, done: bool, gone: bool) -> bool
    ensures { result ≡ (begun && not done && not gone) }
{
    begun && !done && !gone
}

fn has_begun(begun: u32, txn: u32) -> bool
    ensures { result ≡ (nat_lt 0 txn && nat_le txn begun) }
{
    0 < txn && txn <= begun
}

/// Updates the state of the transaction of a right line.
fn take(standings: &mut Standings, line: &Line) -> Result<(), AllocError>
    ensures { OnOk result ((past : List Item) → wrong_txn past (line_view line.now) ≡ false → KeepsStandings standings.old.begun standings.old.done.items standings.old.gone.items past
        → KeepsStandings standings.new.begun standings.new.done.items standings.new.gone.items (line_view line.now ∷ past)) }
{
    match line {
        Line::Began(txn) => {
            standings.begun = *txn;
            Ok(())
        }
        Line::Done(txn) => mark(&mut standings.done, *txn),
        Line::Gone(txn) => mark(&mut standings.gone, *txn),
        _ => Ok(()),
    }
}
