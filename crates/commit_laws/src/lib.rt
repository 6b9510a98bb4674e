//! The first k commits of a history: the rows that they leave, and the records that say so on a disk.
//!
//! `commit_journal` and `engine_store` write a record for each commit. By these laws, what is recovered from the first k
//! records is a state of a serial execution.
//!
//! ```text
//!   history      t1 writes x    t2 writes y    t2 commits    t1 commits    t3 ..
//!   records                                        r1            r2
//!   rows_after 1 = starting rows, r1         = the final table of the history up to the first commit
//!   rows_after 2 = starting rows, r1, r2     = the final table of the history up to the second commit
//! ```
//!
//! - The *record* of a commit has the last write of the transaction to each cell, unless a committed version of the cell
//!   follows it in the version order (`record_of` in `specs/Records.antt`).
//! - `rows_after X H k` is the final table if only the first k commits count (`specs/Commits.antt`).
//!
//! | Law | For every lawful history of a sound store |
//! |---|---|
//! | [`records_leave_the_rows`] | the first k records, applied in order to the starting rows, give `rows_after X H k` |
//! | [`first_commits_serialize`] | the history up to the k-th commit serializes, and `rows_after X H k` is its final table, if all reads of starting rows read their values (`ReadsRows`) |
//!
//! **Not claimed**: anything of a disk. That a crash leaves the first k records is proved in `record_journal` and
//! `epoch_journal`.
#![tactic(auto)]

ghost use Rattle.commit_laws.specs.Laws.{RecordsLeaveTheRows, FirstCommitsSerialize};

/// Applying the records of the first commits in order to the starting rows gives the final table in which only those commits
/// count.
pub fn records_leave_the_rows()
    ensures { RecordsLeaveTheRows }
{}

/// That table is the result of a whole serial execution: the history up to the last of those commits serializes, in its own
/// serial order.
pub fn first_commits_serialize()
    ensures { FirstCommitsSerialize }
{}
