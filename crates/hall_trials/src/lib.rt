//! Tests of sessions in threads: what no contract says, and no run of the program can show.
//!
//! No crate uses this one. `./check` runs its tests.
//!
//! | Test in | Shows |
//! |---|---|
//! | `calls` | a reader waits until the writer commits, as polls and asking again tell it; one thread makes all calls |
//! | `on_disk` | threads share a store on a disk that fails: a crash leaves each commit that was answered |
//! | | a session that asks behind a commit which is not answered is told that the disk has failed |
//! | `stopping` | a session asks nothing once the stop word is raised, also amid its script, and without one it goes on to the end |
//! | `workers` | in `threads` and in `pool` one session is served while another is held, and four workers serve four sessions at once |
//! | | in `threads` a worker goes on to the next session of its hand, and no other takes it |
//! | | two threads commit all transactions of two scripts |
//!
//! - A session is *held* by a gate (`Hold`), which is called before its request and looks for the answer to another session's
//!   line. Sessions *meet* at a gate (`Meeting`) that holds each at its first line until all have come.
//! - The *plain* hall is over the plain tree: the table `t`, the type `any`, one locks leaf, and no rows.
//!
//! **What is proved**: that these tests meet what a hall and its passes require of their callers.
//!
//! **Not claimed**: that what a test shows once is so on every machine and in every schedule.
#![tactic(auto)]

#[cfg(test)]
mod calls;
#[cfg(test)]
mod hold;
#[cfg(test)]
mod on_disk;
#[cfg(test)]
mod plain;
#[cfg(test)]
mod stopping;
#[cfg(test)]
mod workers;
