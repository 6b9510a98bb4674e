//! Whether a batch is closed before a position, and how many of the first that have joined are of such batches.

ghost use Rattle.std.specs.Prelude.{◌≡◌, ◌<◌, ◌≤◌, ◌↔◌, IsTrue, length};
ghost use Rattle.std.specs.List.{All};
ghost use Rattle.batch_book.specs.Book.{closes_before};
ghost use Rattle.batch_book.specs.Fields.{are_overlapping};
ghost use Rattle.batch_book.specs.Settled.{AreClosed, IsClosedBefore, IsSettled};

use crate::members::{Batch, Member};

/// Returns how many of the first that have joined are of batches that closed before a position. It begins with the number that the last
/// batch knows, unless that started later, and goes on to the first whose batch has not closed before the position.
pub(crate) fn settled_before(joined: &[Member], batches: &[Batch], at: usize) -> usize
    requires within { All (λ m. m.batch < length batches.now) joined.now }
    requires settled { IsSettled joined.now batches.now (length joined.now) }
    ensures within { result ≤ length joined.now }
    ensures closed { AreClosed joined.now batches.now at result }
{
    match batches.last() {
        Some(last) if last.start <= at => settled_from(joined, batches, last.settled, at),
        _ => settled_from(joined, batches, 0, at),
    }
}

// Returns the same, given that the first `known` are of such batches.
fn settled_from(joined: &[Member], batches: &[Batch], known: usize, at: usize) -> usize
    requires within { All (λ m. m.batch < length batches.now) joined.now }
    requires known { known ≤ length joined.now }
    requires closed { AreClosed joined.now batches.now at known }
    ensures within { result ≤ length joined.now }
    ensures closed { AreClosed joined.now batches.now at result }
{
    for i in known..joined.len() {
        if !is_closed_before(batches[joined[i].batch], at) {
            return i;
        }
    }
    joined.len()
}

fn is_closed_before(batch: Batch, at: usize) -> bool
    ensures before { IsTrue result ↔ IsClosedBefore at batch.close }
    ensures value { result ≡ closes_before batch.close at }
{
    match batch.close {
        Some(close) => close < at,
        None => false,
    }
}

/// Returns whether two batches start at different events, and neither closed before the other started.
pub(crate) fn overlap(first: Batch, second: Batch) -> bool
    ensures { result ≡ are_overlapping first second }
{
    first.start != second.start
        && !is_closed_before(first, second.start)
        && !is_closed_before(second, first.start)
}
