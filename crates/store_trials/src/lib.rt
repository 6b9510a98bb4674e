//! Tests of a store that goes on after failures: three commits and one change of epoch, on a disk in memory.
//!
//! The disk fails at each of the 26 calls in turn. What a crash leaves of it is opened again, and must have the value of the
//! last commit that was answered, or of the next one.
//!
//! The contracts of `engine_store` say this of every history and every crash. These tests would show that a contract says too
//! little.
//!
//! **Not claimed**: torn writes, which `epoch_trials` tries.
#![tactic(auto)]

#[cfg(test)]
mod groups;
#[cfg(test)]
mod life;
#[cfg(test)]
mod memory;
