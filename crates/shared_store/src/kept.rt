//! What the log has told.

use teb_rules::names::Session;

/// At the log turn of session `by` the log kept the first `total` commits of the life.
#[derive(Clone, Copy, Debug, PartialEq, Eq)]
pub struct Kept {
    pub by: Session,
    pub total: u64,
}
