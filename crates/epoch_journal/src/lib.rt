//! Records on one disk in epochs, so that the disk is used over and over.
//!
//! `epoch_store` keeps the commits of an engine in an [`EpochJournal`]. A [`RecoveredDisk`] is a disk whose rows were read, and
//! to which nothing was written yet.
//!
//! ```text
//!   place 0          which half is current: 1 the first, any other byte the second
//!   places 1 .. 12   the front: "TEB1", and the capacity of the disk (8 bytes, big endian)
//!   place 13         the first half
//!   place 13 + h     the second half; h is half of what follows the front, at most 2^32 - 1
//!
//!   a half:  length of the label (4 bytes, big endian) | label | 1 checkpoint | 1 record | .. | 1 record | 0 | anything
//! ```
//!
//! - A *record* is a commit mark, the byte 1, and its body, as `record_journal` spells it. An *end mark*, any byte but 1, follows the
//!   last one.
//! - A *checkpoint* is a record of all rows. An *epoch* begins with one, and goes on with the records of its commits.
//! - The *life* of a disk is all its epochs, one after the other.
//! - The *label* says whose rows these are: `engine_store` writes the names of its tables into it.
//! - A record is *acknowledged* once `append` has returned `Ok`. A journal is *stopped* once a call of its disk has failed, or
//!   `stop` was called.
//! - A [`Group`] is records that are added together. `append_group` makes no more calls of the disk for it than `append` for one record.
//!
//! | Call | Writes, each followed by a sync |
//! |---|---|
//! | `recover` | none: it syncs once, and reads the records of the current half |
//! | `begin` | on a disk of at most 13 bytes first byte 0, and then the front; then as `checkpoint` |
//! | `open` | as `recover`, and then `begin` |
//! | `append` | the body with the next end mark, after the present end mark; then the commit mark over the present end mark |
//! | `append_group` | the bodies with commit marks between them and the next end mark; then as `append` |
//! | `checkpoint` | header, checkpoint and end mark into the half that is not current; then byte 0 |
//! | `renew` | none: it frees the memory that the past calls of the disk took |
//! | `stop` | none: it stops the journal |
//!
//! **Crash model.** Until a sync succeeds, a crash may leave any bytes in the range of a write and in all that is past the
//! old end of the disk. So no number in a header may tell which half is current: byte 0 alone tells it. When byte 0 is
//! written, both halves have the same table, so a torn write of it does no harm. A write past the end of a short disk
//! may fill what is between with junk. While there is no second half, byte 0 and the front are safe before any byte of the
//! first half is written, and a second half that the disk ends before is empty.
//!
//! **Why the records of a crash are a prefix.** The body of a record follows an end mark until it is safe. Its commit mark
//! is one byte, so a torn write leaves either the mark, and then the whole record counts, or another byte, and then it does
//! not. Of a group only the first mark is written last: with it all records of the group count, and without it none. A
//! checkpoint is safe before its half becomes current.
//!
//! **What is proved.** After a crash at any call of `recover`, `begin`, `open`, `append`, `append_group` or `checkpoint`, the
//! disk has the table after the first k of all records that were given to it, and k is at least the number of acknowledged records
//! (`Tells`, `TellsOn`). The next opening finds these rows, and reports no damage. `epochs_go_on` says that what a disk
//! tells of an epoch, it tells of the whole life.
//!
//! **Not claimed**: anything of a disk that loses bytes that were safe; that a disk opened with another capacity is read (it
//! is refused).
#![tactic(auto)]

mod append;
mod begin;
mod checkpoint;
mod current;
mod error;
mod group;
mod journal;
mod laws;
mod layout;
mod open;
mod piece;
mod range;
mod reading;
mod records;
mod recovered;
mod recovering;
mod renew;
mod safely;
mod steps;
mod table;

pub use current::{Current, Half};
pub use error::{CheckpointError, OpenError};
pub use group::Group;
pub use journal::EpochJournal;
pub use laws::epochs_go_on;
pub use recovered::{NotOpened, RecoveredDisk};
