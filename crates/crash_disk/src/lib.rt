//! Disks that may crash at any moment: what a device promises of its bytes.
//!
//! The journals (`record_journal`, `epoch_journal`) are written over any [`Disk`]. [`MemDisk`] is one in memory: `crash K` and
//! trials run on it, and `file_disk` mirrors a file with it.
//!
//! | Call of the device | A read then gives | A crash may then leave |
//! |---|---|---|
//! | `len`, `read_at` | the same bytes | no more than before |
//! | `write_at` | the new bytes; after a failure any in the range and past the old end | an image of before, with any bytes in the range and past the old end |
//! | `sync` | the same bytes | what a read gives, and nothing else; after a failure the images of before |
//!
//! - An *image* is the bytes that a crash may leave (`may_leave`). The *moment* is a clock that never goes back. `left_since` are
//!   the images of all moments from one on, also of those during a call.
//! - A write is *torn* if it leaves any bytes in its range and past the old end, and all others as they were (`IsTorn`).
//! - *Safe* are the bytes as they were at the last sync that succeeded (`safe`).
//! - The *tally* says how many calls were made, and which of the next ones are sure to succeed or to fail. A [`MemDisk`] fails at
//!   its call number `stop`, counted from 1, and at all later ones; a `stop` of 0 names no call.
//! - A *refusal* is a fault because a call was refused memory. A call that fails counts one fault, and one refusal at most (`IsCounted`).
//! - The *log* of a [`MemDisk`] has its writes and syncs, and its images are computed from it (`specs/Log.antt`). A disk that can
//!   forget its log is a [`Renew`].
//!
//! **What is proved.** [`MemDisk`] meets [`Disk`] and [`Renew`]. A call of it that fails before its stop counts a refusal, and one
//! that fails at its stop counts none. `MemDisk::left` is the disk after a crash that dropped all writes
//! since the last good sync (`IsLeft`).
//!
//! **Not claimed**: that a device in the world keeps this. Nothing is assumed of a sector: a write of two bytes may be torn
//! between them. How many bytes one read gives is not said. A write or a sync that finds no memory fails as one at which the
//! device fails.
#![tactic(auto)]

mod asked;
mod call;
mod counter;
mod disk;
mod image;
mod log;
mod making;
mod mem_disk;
mod memory;
mod renew;
mod room;
mod spare;

pub use call::Call;
pub use counter::Counter;
pub use disk::{DEFAULT_CAPACITY, Disk};
pub use log::Log;
pub use memory::MemDisk;
pub use renew::Renew;
pub use room::{RESERVED_BYTES, RESERVED_CALLS, Room};
pub use spare::Memory;
