//! Marks of batches and of transactions.

ghost use Rattle.std.specs.Prelude.{◌≡◌, ◌<◌, length, get_or, IsTrue};
ghost use Rattle.snapshot_node.specs.Marks.{no_mark, is_left, is_entered, is_behind, is_ahead, place_of_txn, HaveGrown};

use teb_rules::names::Txn;

/// What is known of the edges at the batch that starts at the event of a place, and at the transaction of that place.
#[derive(Clone, Copy)]
pub struct Mark {
    /// An edge leads into the batch.
    pub(crate) entered: bool,
    /// An edge leaves the batch.
    pub(crate) left: bool,
    /// An edge leads to the transaction.
    pub(crate) behind: bool,
    /// An edge leads from the transaction.
    pub(crate) ahead: bool,
}

/// The mark if no edge is known.
pub(crate) const NO_MARK: Mark = Mark {
    entered: false,
    left: false,
    behind: false,
    ahead: false,
};

/// Returns the mark of a place.
pub(crate) fn mark_at(marks: &[Mark], place: usize) -> Mark
    ensures { result ≡ get_or marks.now place no_mark }
{
    match marks.get(place) {
        Some(mark) => *mark,
        None => NO_MARK,
    }
}

/// Returns the place of a transaction: they are numbered from 1 on.
pub(crate) fn place_of(t: Txn) -> usize
    ensures { result ≡ place_of_txn t.0 }
{
    (t.0 as usize).saturating_sub(1)
}

/// Marks that an edge leads from the batch that starts at one event into the batch that starts at another.
pub(crate) fn mark_edge(marks: &mut [Mark], from: usize, to: usize)
    requires from { from < length marks.old }
    requires to { to < length marks.old }
    ensures grown { HaveGrown marks.old marks.new }
    ensures left { IsTrue (is_left marks.new from) }
    ensures entered { IsTrue (is_entered marks.new to) }
{
    marks[from].left = true;
    marks[to].entered = true;
}

/// Marks that an edge leads from the transaction of one place to that of another.
pub(crate) fn mark_ends(marks: &mut [Mark], from: usize, to: usize)
    requires from { from < length marks.old }
    requires to { to < length marks.old }
    ensures grown { HaveGrown marks.old marks.new }
    ensures ahead { IsTrue (is_ahead marks.new from) }
    ensures behind { IsTrue (is_behind marks.new to) }
{
    marks[from].ahead = true;
    marks[to].behind = true;
}
