//! Cascading aborts: which transactions fall with an aborted one, and which one each is blamed on.
//!
//! A transaction *falls* with `t` if it read from `t`, or from one that falls. It is *blamed* on the lowest-numbered transaction that
//! it read from and that is `t` or falls.
//!
//! ```text
//!   t2 reads from t1,  t3 reads from t2,  t4 reads from t1 and t3         t1 aborts
//!
//!   falls    t2, blamed on t1       t3, blamed on t2       t4, blamed on t1
//! ```
//!
//! [`cascade`] goes over the active transactions in rounds, until a round adds none. Committed transactions cannot fall: a Commit
//! waits for those that it read from (`IsRecoverable` of `specs/Recoverable`). So at most 31 fall, and a [`CascadeList`] takes no
//! memory.
//!
//! **What is proved.** The list is the cascade of `Cascade` in `teb_rules`, in ascending number, with each one's cause (`blames` of
//! `specs/Rounds`).
//!
//! **Not claimed**: that anything is aborted; the engine writes the events. That the cascade is short is a law of `teb_rules::laws`, which
//! the caller gives as the premise `few`.
#![tactic(auto)]

mod cascades;
mod list;

pub use cascades::cascade;
pub use list::CascadeList;
