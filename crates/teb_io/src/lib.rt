//! Bytes in and bytes out, over devices that may fail.
//!
//! The commands and the shell read from a [`Source`] and write to a [`Sink`], and are generic over both. A program passes the
//! streams of its process. A test passes streams in memory, which fail at the calls that it names.
//!
//! | | Over a stream of std | In memory | All at once |
//! |---|---|---|---|
//! | [`Source`]: `read` | [`StdSource`] | [`MemSource`] | [`read_all`]: up to the end, `limit` bytes at most |
//! | [`Sink`]: `write` | [`StdSink`] | [`MemSink`] | [`write_whole`]: a whole text |
//!
//! - A *fault* is a read or a write that failed. Contracts see how many there were (`faults`). `crash_disk` counts the faults of a
//!   disk by the same definitions (`specs/Faults.antt`).
//! - A source *tells* its bytes if contracts see what is left of them (`left`). A [`MemSource`] does, and standard input does not.
//!   A sink tells its bytes if contracts see what was written (`written`).
//!
//! **What is proved.** A call that fails takes no byte, and fails only if the count of faults rose (`HasCause`). [`read_all`]
//! returns all bytes of a source that tells them (`ok`), and `ReadFault` only if the count rose (`fault`). After [`write_whole`]
//! the sink has the whole text (`ok`), or after a failure a prefix of it, and not all (`fault`). What a [`MemSource`] or a
//! [`MemSink`] answers is a function of its state (`answer`, `after`).
//!
//! **Not claimed**: that a stream of std has the bytes of a file, or gets them there; how many bytes one of its reads gives; that
//! a call returns. A count stops at 2^64 - 1: at that count a failure need not raise it.
#![tactic(auto)]

mod memory;
mod sink;
mod source;
mod streams;

pub use memory::{MemSink, MemSource};
pub use sink::{Sink, WriteFault, write_whole};
pub use source::{ReadError, Source, read_all};
pub use streams::{StdSink, StdSource};
use thiserror::Error;

/// A read or a write failed, and took nothing.
#[derive(Clone, Copy, Debug, PartialEq, Eq, Error)]
#[error("the device failed")]
pub struct Failed;
