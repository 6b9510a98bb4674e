//! The audit of a printed run.

ghost use Rattle.std.specs.Prelude.{◌≡◌, ◌≢◌, ◌≤◌, ◌^◌, ◌-◌, length};
ghost use Rattle.audit_check.specs.Audit.{IsAudited, audit_of};
ghost use Rattle.audit_check.specs.Lines.{parts_of};
ghost use Rattle.tebaldi_c.specs.Auditing.{IsFault, why_number as number};

use crate::status::{BAD_RUN, OK, OUT_OF_MEMORY, TOO_LONG};
use audit_check::{AuditError, AuditWhy, audit};
use std::alloc::Global;

/// Checks a printed run, as `tebaldi audit` does.
///
/// # Errors
/// `BAD_RUN` if a line is wrong: `line` is the number of the first one, from 1, and `why` is 1 (form), 2 (txn), 3 (order), 4 (after),
/// 5 (read) or 6 (row). `TOO_LONG` if the text has 2^32 - 1 bytes or more. `OUT_OF_MEMORY`. At the last two, `line` and `why` are
/// unchanged.
#[unsafe(no_mangle)]
pub extern "C" fn tebaldi_audit(alloc: Global, text: &[u8], line: &mut u32, why: &mut u8) -> u32
    ensures ok { result ≡ OK → IsAudited text.now }
    ensures bad_run { result ≡ BAD_RUN → IsFault (audit_of text.now) line.new why.new }
    ensures not_told { result ≢ BAD_RUN → (line.new ≡ line.old) × (why.new ≡ why.old) }
    ensures too_long { result ≡ TOO_LONG → 2 ^ 32 - 1 ≤ length text.now }
    ensures other { result ≢ OK → result ≢ BAD_RUN → result ≢ TOO_LONG → result ≡ OUT_OF_MEMORY }
{
    if text.len() >= 0xffff_ffff {
        return TOO_LONG;
    }
    match audit(alloc, text) {
        Ok(()) => OK,
        Err(
            AuditError::No {
                line: wrong,
                why: cause,
            },
        ) => {
            *line = wrong;
            *why = why_number(cause);
            BAD_RUN
        }
        Err(AuditError::OutOfMemory) => OUT_OF_MEMORY,
    }
}

fn why_number(why: AuditWhy) -> u8
    ensures { result ≡ number why }
{
    match why {
        AuditWhy::Form => 1,
        AuditWhy::Txn => 2,
        AuditWhy::Order => 3,
        AuditWhy::After => 4,
        AuditWhy::Read => 5,
        AuditWhy::Row => 6,
    }
}
