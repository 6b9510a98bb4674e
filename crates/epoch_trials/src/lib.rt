//! Tests of a journal in epochs: crashes at each call of the disk, torn writes, and the bytes of the format.
//!
//! One life is tried: an opening, seven records, checkpoints and reopenings, which make 78 calls of the disk (`life`).
//!
//! - In memory (`memory`), the disk fails at each call in turn, and each write is torn at each byte. The reopened disk must
//!   have the rows after the acknowledged records, or after one more. The bytes after the first record are compared with a
//!   written-out list.
//! - On a file (`files`), the bytes at each call are opened as a file, and a file is cut at each byte of a checkpoint.
//!
//! The contracts of `epoch_journal` say this of every life and every crash. These tests would show that a contract says too
//! little, and they go through a real file.
//!
//! **Not claimed**: other torn writes than a prefix of the bytes.
#![tactic(auto)]

#[cfg(test)]
mod files;
#[cfg(test)]
mod life;
#[cfg(test)]
mod memory;
