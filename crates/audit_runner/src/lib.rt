//! The command `audit`: a printed run is checked, and one line says what was found.
//!
//! | What [`run_audit`] returns | Text | Status |
//! |---|---|---|
//! | the text is audited | `audit yes` | 0 |
//! | a line is wrong | `audit no line N WHY`, with N from 1, and WHY `form`, `txn`, `order`, `after`, `read` or `row` | 11 |
//!
//! **What is proved.** The output is that of `audit_of`, the definition of `audit_check` (clause `shown`: `audited` in
//! `specs/Verdicts.antt`). No history is kept (`history`).
//!
//! **Not claimed**: anything of a text above 4,194,304 bytes. The caller, `tebaldi`, refuses it before.
#![tactic(auto)]

ghost use Rattle.std.specs.Prelude.{◌≡◌, ◌≤◌, length, None, IfOk};
ghost use Rattle.audit_runner.specs.Verdicts.{audited, why_text};

use audit_check::{AuditError, AuditWhy, audit};
use command_output::Output;
use command_output::status::{AUDIT_NO, OK};
use script_text::MOST_BYTES;
use std::alloc::{AllocError, Global};

/// Returns `audit yes` if the text is a printed run whose order reproduces its reads and its final rows. Otherwise returns the
/// first wrong line and why.
///
/// # Errors
/// `AllocError`: out of memory.
pub fn run_audit(alloc: Global, text: &[u8]) -> Result<Output, AllocError>
    requires { length text.now ≤ MOST_BYTES }
    ensures shown { IfOk result (λ o. o ≡ audited text.now) }
    ensures history { IfOk result (λ o. o.history ≡ None) }
{
    match audit(alloc, text) {
        Ok(()) => Output::line(alloc, OK, "audit yes"),
        Err(AuditError::No { line, why }) => {
            Output::numbered_line(alloc, AUDIT_NO, "audit no line ", line, why_text(why))
        }
        Err(AuditError::OutOfMemory) => Err(AllocError),
    }
}

fn why_text(why: AuditWhy) -> &'static str
    ensures { result.now ≡ why_text why }
{
    match why {
        AuditWhy::Form => "form",
        AuditWhy::Txn => "txn",
        AuditWhy::Order => "order",
        AuditWhy::After => "after",
        AuditWhy::Read => "read",
        AuditWhy::Row => "row",
    }
}
