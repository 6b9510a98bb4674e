//! Every printed run of an accepted tree passes the audit.
//!
//! `hall_runner` applies the first law to the text that `threads` and `pool` print.
//!
//! | Law | |
//! |---|---|
//! | [`printed_runs_are_audited`] | for every sound store and every list of requests, the text of the starting rows, the events and the report passes `audit_check` |
//! | [`orders_list_the_committed`] | if a text has the form of a printed run and its order is right, the order lists exactly the transactions that commit |
//!
//! - A *printed run* is the starting rows, the events with the oldest first, the serial order, the final rows, and `end`
//!   (`printed_run` in `specs/Law.antt`).
//! - A text is *audited* if `audit_of` finds no fault in it (`IsAudited` of `audit_check`).
//!
//! The first law is about a history that the rules reach (`OfEveryStore` of `teb_rules::laws`). Its premises: the starting rows
//! ascend, the printed order is the serial order of the history and the printed rows are its final table (`Reports`), all numbers
//! and names can be printed, and no two tables have the same name (`CanPrint`). By the second law the reads of exactly the committed
//! transactions are checked.
//!
//! **Not claimed**: that a text which passes comes from this store. No function here prints or checks: the bodies are empty,
//! and the proofs are in `proofs/`.
#![tactic(auto)]

ghost use Rattle.audit_law.specs.Law.{OrdersListTheCommitted, PrintedRunsAreAudited};

/// For every list of requests of an accepted tree, the text of the starting rows, the events and the report is audited.
pub fn printed_runs_are_audited()
    ensures { PrintedRunsAreAudited }
{}

/// If a text has the form of a printed run and its order is right, the order lists exactly the transactions that commit. These
/// are the ones whose reads are checked.
pub fn orders_list_the_committed()
    ensures { OrdersListTheCommitted }
{}
