//! Worked runs: small stores and lists of requests, with the replies, the serial order and the final tables that the rules give.
//!
//! There is no code. Each run is a few theorems in `proofs/`, proved by computing the definitions of `teb_rules`: `replies_NAME`,
//! `order_NAME` and `table_NAME`. They show that the definitions say what they are meant to say.
//!
//! | File of `proofs/` | Runs over |
//! |---|---|
//! | `Plain` | one leaf of locks: a wait for a reader, Newer, refusals, the limits of Add |
//! | `Steps` | pipelines: reads before the commit, the order of entry, profiles with a cycle |
//! | `Snapshots` | snapshot roots: write skew, a reader of an old value that is first in the order, batches of two |
//! | `Trees` | timestamp nodes: late writes, an order that is not that of the commits, a cascade of three |
//! | `Parts` | several leaves for a type, deletes, scans; trees with a fault, and the first fault of each; the stores are sound |
//! | `Further` | profiles, locks below locks, a session that is told of a cascade, Late, First and Newer at a root |
//! | `Shop` | eight scripts over the tree of a shop, asked by the driver |
//!
//! **Not claimed**: anything beyond these runs. What holds of every run is in `teb_rules::laws`.
#![tactic(auto)]
