//! The exit codes of the program.

/// The command is done, and all its text is written.
pub const OK: u8 = 0;

/// The words are not a command.
pub const BAD_WORDS: u8 = 2;

/// The input could not be read.
pub const READ_FAULT: u8 = 3;

/// The text could not be written completely.
pub const WRITE_FAULT: u8 = 4;

/// The input has too many bytes, or too many lines.
pub const TOO_LONG: u8 = 5;

/// The input has no line between the tree and the script, or the tree text is refused.
pub const BAD_TREE: u8 = 6;

/// A line of the script is outside the grammar.
pub const BAD_SCRIPT: u8 = 7;

/// Out of memory.
pub const OUT_OF_MEMORY: u8 = 8;

/// A session has asked as often as it may.
pub const PASS_SPENT: u8 = 10;

/// A line of a printed run is wrong.
pub const AUDIT_NO: u8 = 11;

/// The parts of an input cannot follow one another.
pub const BAD_PHASE: u8 = 12;
