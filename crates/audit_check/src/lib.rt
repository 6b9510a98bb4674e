//! Checks a printed run by its lines alone: does its serial order reproduce every read and the final rows?
//!
//! `threads` and `pool` print such a run. [`audit`] needs neither the tree nor the engine, so a printed run may come from
//! anywhere.
//!
//! ```text
//!   start t 1 5          starting rows: table, key, value
//!   began t1 1 any       events, in the order in which they happened: t1 begins, of session 1 and type any
//!   got t1 t 1 t0 5      t1 reads 5, which is a starting row (t0)
//!   put t1 t 1 6         t1 writes 6
//!   done t1              t1 commits; `gone` would be an abort
//!   order t1             the serial order
//!   row t 1 6            final rows
//!   end
//! ```
//!
//! The tests run in this order. The first that finds a wrong line names the first one, and why ([`AuditWhy`],
//! `specs/Faults.antt`):
//!
//! | Why | A line is wrong if |
//! |---|---|
//! | `Form` | it is no line of a printed run, or out of its place, or it repeats the cell of a starting or of a final row |
//! | `Txn` | its transaction cannot do this: they begin as 1, 2, 3 and so on, only an unfinished one acts, and only an aborted one is told |
//! | `Order` | the order does not list each committed transaction once, and no other |
//! | `After` | it commits a transaction that read from one which has not committed |
//! | `Read` | it is a read of a listed transaction, and the table at that point of the serial run has another value |
//! | `Row` | the last table has another value, or a row without a line (then the line `end` is wrong) |
//!
//! **What is proved.** [`audit`] returns the fault that `audit_of` (`specs/Audit.antt`) finds in the text, `Ok` if there is
//! none, or out of memory. The definition runs the transactions serially on a plain table. `audit_law` proves that every run of
//! an accepted tree passes.
//!
//! **Not claimed**: that the events obey the rules of a tree. The reads of transactions that did not commit are not compared.
//! Of a read only the value is compared with the serial order: the writer that it names counts for `After` alone. Of a cause of
//! an abort only the form is read.
#![tactic(auto)]

mod after;
mod commits;
mod error;
mod form;
mod line;
mod marks;
mod numbers;
mod reading;
mod reads;
mod rows;
mod table;
mod txns;

ghost use Rattle.std.specs.Prelude.{◌<◌, ◌^◌, length};
ghost use Rattle.audit_check.specs.Lines.{parts_of};
ghost use Rattle.audit_check.specs.Audit.{audit_of, fault_in};
ghost use Rattle.audit_check.specs.Findings.{Answers};
ghost use Rattle.audit_check.specs.Views.{views};

use after::check_after;
use commits::check_order;
pub use error::{AuditError, AuditWhy};
use form::read_lines;
use line::Line;
use reads::check_reads;
use rows::check_rows;
use std::alloc::Global;
use txns::check_txns;

/// Checks a printed run: a text of fewer than 2^32 - 1 lines with starting rows, events, the order and the final rows. Returns
/// `Ok` if no line is wrong. Then running the transactions serially in the printed order, from the starting rows, reproduces
/// every read of a committed transaction and the final rows, and no transaction committed before one that it read from.
///
/// # Errors
/// `AuditError::No` names the first wrong line, counted from 1, by the first reason in the order of `AuditWhy` that some line
/// has. `AuditError::OutOfMemory`: out of memory.
#[tactic(auto, using(crate::proofs::Faults::form_fault, crate::proofs::Faults::form_right))]
pub fn audit(alloc: Global, text: &[u8]) -> Result<(), AuditError>
    requires { length (parts_of text.now) < 2 ^ 32 }
    ensures { Answers result (audit_of text.now) }
{
    check_lines(alloc, &read_lines(alloc, text)?)
}

/// The same for lines that have the form of a printed run.
#[tactic(auto, unfolding(crate::specs::Audit::fault_in))]
fn check_lines(alloc: Global, lines: &[Line]) -> Result<(), AuditError>
    requires { length lines.now < 2 ^ 32 }
    ensures { Answers result (fault_in (views lines.now)) }
{
    check_txns(alloc, lines)?;
    check_order(alloc, lines)?;
    check_after(alloc, lines)?;
    let replay = check_reads(alloc, lines)?;
    check_rows(alloc, &replay.table, lines)
}
