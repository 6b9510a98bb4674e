//! A sorted multimap for registers of what is active: a few dozen values, several to a key.
//!
//! The values are in buckets of keys. A bucket has each value beside its key, in the order of the keys. The values of one key are
//! adjacent, so they are lent as one slice.
//!
//! ```text
//!   bucket 7      keys     t7   t7   t7   t39        the number of a bucket is the spread of its keys, modulo 32
//!                 values   t2   t5   t9   t3         the values of t7: t2, t5, t9
//! ```
//!
//! | Call | |
//! |---|---|
//! | [`Multimap::list`] | the values of a key, in their order |
//! | [`Multimap::push`], [`Multimap::clear`] | appends a value; removes all values of a key |
//! | `put_by_number`, `take_by_number` and others | edit the values of a key that ascend by a number ([`Numbered`]) |
//!
//! **What is proved.** Contracts see the values of each key as a list (`values_in` of `specs/Multimap`), and room for more values. No
//! public contract speaks of buckets.
//!
//! **What it costs.** An empty bucket costs one look, and an edit there two pushes. Otherwise a look-up goes through a few keys, or
//! is a binary search if there are many, and an edit moves what follows in its bucket. [`Multimap::reserve`] makes room in every
//! bucket, so this is no map for what grows: `arena_multimap` is.
//!
//! **Not claimed**: that the values of a key ascend by number. The calls by number ask for it.
#![tactic(auto)]

mod bucket;
mod by_txn;
mod key;
mod multimap;
mod number;

pub use by_txn::clear_txn;
pub use key::Key;
pub use multimap::Multimap;
pub use number::{Numbered, find_number};
