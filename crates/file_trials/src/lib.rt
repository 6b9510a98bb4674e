//! Tests of a store on a file: what the operating system adds to the contracts.
//!
//! - `device`: a file keeps what was synced, is locked against a second opening, and is refused if it is longer than its
//!   capacity. A change from outside is a fault. 900 writes of a page, with a renewal after each 300, leave the last one.
//! - `commits`: a file that is cut at each byte has the first commits, or is reported as damaged at the right place.
//! - `record`: the bytes of a record.
//!
//! The contracts of `crash_disk` and `record_journal` say what a disk promises and what a crash leaves. That a real file keeps
//! the promise is tried here, not proved.
//!
//! **Not claimed**: anything of a power failure. The tests cut and change files, and no machine is stopped.
#![tactic(auto)]

#[cfg(test)]
mod commits;
#[cfg(test)]
mod device;
#[cfg(test)]
mod record;
