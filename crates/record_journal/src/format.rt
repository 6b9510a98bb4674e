//! How many bytes the parts of a record have.

/// The number of changes in a record.
pub const COUNT_BYTES: usize = 4;

/// A change: its table, its key, the tag that says whether there is a value, and the value.
pub const CHANGE_BYTES: usize = 14;

/// What a record has beside its changes: its gate byte, their number, and the gate byte after it.
pub const FRAME_BYTES: usize = 6;
