//! Records on a disk, each acknowledged once it is safe, and the rows that they leave.
//!
//! `commit_journal` keeps the commits of an engine in a [`Journal`]. `epoch_journal` writes and reads the same records in two
//! halves of a disk.
//!
//! ```text
//!   place 0   gate 1 | record | gate 1 | record | .. | gate 1 | record | gate 0 | anything
//!
//!   record    the number of its changes (4 bytes) | change | .. | change
//!   change    table (1 byte) | key (4) | tag (1): 1 for a value, 0 for no row | value (8)       numbers are big endian
//! ```
//!
//! | Call | Calls of the disk |
//! |---|---|
//! | `Journal::create` | write a closed gate byte at place 0; sync |
//! | `Journal::append` | write the record and a closed gate byte after the present closed one; sync; open the present one; sync |
//! | [`read_rows`] | sync; read. It writes nothing |
//!
//! - A *record* is the changes of one commit: a value or no row for each of some cells ([`Change`]).
//! - The *gate byte* before a record (`gate` above) is its commit mark: it is open if it is 1, and closed otherwise.
//! - A record is *acknowledged* once `append` has returned `Ok`. A journal is *stopped* once a call of the disk has failed at a
//!   record.
//! - Bytes are *damaged* if no record follows an open gate byte. [`RecoverError`] has the place of that byte.
//!
//! **What is proved.** A crash at any moment of `append`, or after it, leaves the first k records that were given to the journal,
//! and k is at least the number of acknowledged records (clauses `any_moment` and `kept`). On such an image [`read_rows`] returns
//! the rows after these k records, and reports no damage (`first`, `no_damage`). On any bytes it returns the rows after the
//! records that the bytes have (`found`), or the place of the damage (`damaged`).
//!
//! **Why.** The gate byte is opened when its record is safe. It is one byte, so a torn write of it leaves it open or closed.
//!
//! **Not claimed**: that a journal which was read goes on; `create` begins an empty one over it. A journal uses the first
//! 1,048,576 bytes of a disk and no others.
#![tactic(auto)]

mod append;
mod change;
mod error;
mod format;
mod journal;
mod read;
mod record;
mod recovery;
mod rows;
mod whole;

pub use change::Change;
pub use error::RecoverError;
pub use format::{CHANGE_BYTES, COUNT_BYTES, FRAME_BYTES};
pub use journal::{Journal, Progress};
pub use read::{read_record, read_records};
pub use record::{encode, write_record};
pub use recovery::{Recovered, read_rows};
pub use rows::rows_after;
pub use whole::{read_front, read_whole};
