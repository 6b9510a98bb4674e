//! The status that a call returns.

/// The call succeeded.
pub const OK: u32 = 0;

/// The store is not open.
pub const NOT_OPEN: u32 = 1;

/// The store is already open.
pub const IS_OPEN: u32 = 2;

/// The tree text has a fault.
pub const BAD_TREE: u32 = 3;

/// The request's verb is none.
pub const BAD_VERB: u32 = 4;

/// No such name, number, event or reply.
pub const NO_SUCH: u32 = 5;

/// Out of memory.
pub const OUT_OF_MEMORY: u32 = 6;

/// The printed run has a wrong line.
pub const BAD_RUN: u32 = 7;

/// The text or the file is too long.
pub const TOO_LONG: u32 = 8;

/// The tables of the tree are not those of the store.
pub const OTHER_TABLES: u32 = 9;

/// A transaction is unfinished.
pub const UNFINISHED: u32 = 10;

/// A session was not told of the abort of its transaction.
pub const UNTOLD: u32 = 11;

/// A call on the file has failed earlier.
pub const STOPPED: u32 = 12;

/// The file may have the commit or not. No call returns it: it is the status of `tebaldi_file_ask` and `tebaldi_file_next_epoch` if a call on
/// the file fails.
pub const UNSURE: u32 = 13;

/// The commits of this epoch, or the rows, do not fit the file.
pub const NO_ROOM: u32 = 14;

/// Calls on the file wait to be performed.
pub const WAITING: u32 = 15;

/// The file is no store, or a damaged one.
pub const DAMAGED: u32 = 16;

/// The file has a store of another capacity.
pub const OTHER_CAPACITY: u32 = 17;
