//! A disk that is a file of the operating system.
//!
//! The shell and `embedded_file` keep their stores on a [`FileDisk`], which is a `Disk` and a `Renew` of `crash_disk`.
//!
//! | Call | What it does |
//! |---|---|
//! | `FileDisk::open`, `open_with_capacity` | opens or makes the file, locks it, reads all of it, and syncs it and its folder |
//! | `write_at` | writes the mirror, and then the file |
//! | `sync` | `sync_data` of the file, and then a sync of the mirror |
//! | `read_at` | reads the mirror, and fails if the file has other bytes there |
//! | `len` | the length of the mirror; it fails if the file has another |
//!
//! - The *mirror* is a disk in memory with the bytes that the file is to have. Its log has the writes and syncs since the opening
//!   or the last `renew`. The mirror takes memory for these bytes and for this log.
//! - A file is *busy* if it is locked: then it is open as a disk already ([`OpenError`]).
//! - From its *first failure* on the disk fails at each call, and the file is left alone. So no later sync makes safe what a
//!   failed write has left.
//!
//! **What is proved.** [`FileDisk`] meets `Disk` and `Renew`, with the bytes and the images of its mirror. After the opening a
//! crash leaves what a read gives (`safe`), and no fault is counted (`faults`).
//!
//! **Not claimed**, since the contracts of std tell nothing of the bytes of a file: that the file has the bytes of the mirror, and
//! that a crash leaves it with one of the mirror's images. For the second the system has to keep what `sync_data` made safe, and
//! no other program may write the file while it is open. The lock keeps out only programs that ask for it.
#![tactic(auto)]

mod disk;
mod error;
mod faults;
mod opening;
mod reads;
mod renewing;

pub use disk::FileDisk;
pub use error::OpenError;
