//! What is kept of an output after it is written.

use teb_rules::history::History;

/// What is kept of a command's output after it is written.
#[derive(Drop)]
pub struct WrittenOutput {
    /// The status to end with: that of the command, or that of a write fault.
    pub status: u8,
    /// The history of the run, if there was one.
    pub history: Option<History>,
}
