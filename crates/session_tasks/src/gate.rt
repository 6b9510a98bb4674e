//! A hook around each request, outside the turn.

use teb_rules::names::Session;

/// A hook that is called around each request of [`serve`](crate::serve), while its session does not have the turn.
pub trait Gate {
    /// Is called before the session draws its ticket, with the number of its line, or 0 for the End after its last line.
    fn before(&self, session: Session, line: u32);

    /// Is called after the turn, with the same number, whether the request was answered or not.
    fn after(&self, session: Session, line: u32);
}
