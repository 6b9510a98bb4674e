//! The ranks of tables: the static order in which a pipeline node lets transactions go through the tables.
//!
//! Table *a reaches b* if a profile has both in one step, or has `a` in an earlier step than `b`, or if `a` reaches `b` through other
//! tables. The *rank* of a table is the length of the longest chain of tables to it, in which each reaches the next and is not
//! reached back. So tables on a cycle have the same rank.
//!
//! ```text
//!   profiles      item, stock, orders        stock, item, log        (one table a step)
//!
//!   arrows        item <-> stock             item, stock -> orders   item, stock -> log
//!   ranks         item 0    stock 0          orders 1                log 1
//! ```
//!
//! [`ranks`] computes them in three steps: the arrows of the profiles (`arrows`), their transitive closure by Warshall's algorithm
//! (`closure`), and rounds of longest chains (`chains`). A row of the closure is one 64-bit number, so there are at most 64 tables.
//!
//! **What is proved.** The rank of each table is `table_rank` of `teb_rules` over the given profiles (the contract of [`ranks`]).
//!
//! **Not claimed**: which profiles count at a node; `runtime_pipeline` chooses those of the types under it.
#![tactic(auto)]

mod arrows;
mod chains;
mod closure;
mod rank_list;
mod ranking;
mod table_set;
mod tables;

pub use rank_list::Ranks;
pub use ranking::ranks;
pub use tables::ranked_tables;
