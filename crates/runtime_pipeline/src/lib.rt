//! The control of a pipeline node: runtime pipelining, in which a transaction uses a table once the one before it has moved on.
//!
//! Tables have a static order, their *ranks* (`static_steps`). A transaction has *passed* a rank once its cursor is at a step of a
//! greater rank, or it is prepared or finished. Its writes of that table are then seen, although it has not committed.
//!
//! ```text
//!   x is a row of accounts (rank 0), y of log (rank 1), z of totals (rank 2)
//!
//!   t1    put x    put y    put z    commit
//!   t2             put x    put y    put z     commit        each put waits until t1 has passed the rank of its table
//! ```
//!
//! | Rule | Waits for the lowest-numbered transaction that |
//! |---|---|
//! | entry: an access would move `t` to a step of a greater rank | is *earlier* than `t`, and has not passed that rank |
//! | access | is in the way of the access, and has not passed the rank of the table |
//! | commit | is earlier than `t` |
//!
//! Each of these is active and meets `t` here. It is *earlier* if one of its accesses precedes a conflicting access of `t`. The entry
//! rule keeps transactions in one order along all tables.
//!
//! **What is proved.** [`Pipeline`] implements `Control` of `phase_api`: each answer is that of `teb_rules` for a pipeline node
//! (`on_access`, `gate`, `sees_by`; `PipelineStands` of `specs/Standing` is what it keeps).
//!
//! **What it costs.** The control keeps, for each active transaction, the active ones that are earlier (`predecessors`). The entry
//! and the commit rule go through that list, at most 31 transactions.
//!
//! **Not claimed**: that a value that is read early is committed. If its writer aborts, the reader falls too; so the reader's Commit
//! waits for the writer.
#![tactic(auto)]

mod node_ranks;
mod pipeline;
mod predecessors;
mod under;

pub use pipeline::Pipeline;
