//! The greatest writer of each mark. A writer and a cell have the mark of a remainder of the writer and one of the cell's key; a
//! writer above the one of that mark was never marked with the cell. With numbers in order of beginning, that is nearly each one
//! that has put no cell of that remainder: only a later writer of the same remainder may have put one before it.

ghost use Rattle.std.specs.Prelude.{ℕ, ◌≡◌, ◌↔◌, IsTrue};
ghost use Rattle.teb_rules.specs.declared.names.Cell.{Cell};
ghost use Rattle.chain_pool.specs.Latest.{IsAbove, mark_of as spec_mark_of};

use teb_rules::names::{Cell, Txn};

/// The number of remainders of writers: twice the number of sessions.
const WRITERS: usize = 64;

/// The number of remainders of cells' keys.
const KEYS: usize = 32;

/// How many marks there are, one for each pair of remainders.
pub(crate) const MARKS: usize = WRITERS * KEYS;

/// Returns the place of the mark that a writer and a cell have.
#[inline(always)]
fn mark_of(t: Txn, cell: Cell) -> usize
    ensures { result ≡ spec_mark_of t.0 cell }
{
    (t.0 as usize % WRITERS) * KEYS + cell.key as usize % KEYS
}

/// Returns whether a writer is above each that was marked with a cell of the same mark.
#[inline(always)]
pub(crate) fn is_above(latest: &[u32], t: Txn, cell: Cell) -> bool
    ensures { IsTrue result ↔ IsAbove latest.now t.0 cell }
{
    let i = mark_of(t, cell);
    i < latest.len() && latest[i] < t.0
}

/// Marks a writer with a cell.
pub(crate) fn mark(latest: &mut [u32], t: Txn, cell: Cell)
    ensures marked { IsAbove latest.new t.0 cell → ⊥ }
    ensures kept { (u : ℕ) (x : Cell) → IsAbove latest.new u x → IsAbove latest.old u x }
{
    if is_above(latest, t, cell) {
        latest[mark_of(t, cell)] = t.0;
    }
}
