//! Finishes, as notes.
ghost use Rattle.std.specs.Prelude.{◌≡◌, ◌≢◌, ◌-◌, ◌<◌, ◌≤◌, ◌∷◌, slice_index};
ghost use Rattle.finish_board.specs.declared.answer.Poll.TheVariants.{Unfinished, Finished};
ghost use Rattle.finish_board.specs.Finishes.{word_of, known_of};
ghost use Rattle.turn_lock.specs.Views.{published, looked_at};
ghost use Rattle.turn_lock.specs.Seats.{note_count, view_of, slot_of, IsOf, IsInside};

use crate::answer::Poll;
use teb_rules::names::{MOST_TXNS, Outcome, Txn};
use turn_lock::{Member, SeatOf, Turn};

/// Publishes how a transaction finished, as the word 1 for committed and 2 for aborted.
///
/// The seat is in the turn, the value has the note with this word, and it was not published before. `t` is 1 to `MOST_TXNS`, and
/// its note is below the number of the turn's notes.
pub fn publish<T: Member>(turn: &Turn<T>, seat: &mut SeatOf<T>, value: &T, t: Txn, outcome: Outcome)
    requires seat { IsOf turn.now seat.old × IsInside seat.old }
    requires txn { (1 ≤ t.0) × (t.0 ≤ MOST_TXNS) × (t.0 - 1 < note_count turn.now) }
    requires note { T.note value.now (t.0 - 1) ≡ word_of outcome }
    requires fresh { slice_index (view_of seat.old).notes (t.0 - 1) ≡ 0 }
    ensures seat { IsOf turn.now seat.new × IsInside seat.new }
    ensures view { view_of seat.new ≡ published (t.0 - 1) (word_of outcome) (view_of seat.old) }
    ensures word { slice_index (view_of seat.new).notes (t.0 - 1) ≡ word_of outcome }
    ensures known { known_of t.0 (view_of seat.new) ≡ Finished outcome }
{
    turn.publish(seat, value, t.0 - 1, word(outcome));
}

pub(crate) fn word(outcome: Outcome) -> u64
    ensures { result ≡ word_of outcome }
{
    match outcome {
        Outcome::Committed => 1,
        Outcome::Aborted => 2,
    }
}

/// Returns whether a transaction has finished, and how. It never waits and takes no memory.
///
/// A finish that the seat knows is returned, and one that is returned is known from then on.
pub fn poll<T: Member>(turn: &Turn<T>, seat: &mut SeatOf<T>, t: Txn) -> Poll
    requires seat { IsOf turn.now seat.old }
    requires txn { (1 ≤ t.0) × (t.0 ≤ MOST_TXNS) × (t.0 - 1 < note_count turn.now) }
    ensures seat { IsOf turn.now seat.new × (slot_of seat.new ≡ slot_of seat.old) }
    ensures answer { result ≡ known_of t.0 (view_of seat.new) }
    ensures known { known_of t.0 (view_of seat.old) ≢ Unfinished → result ≡ known_of t.0 (view_of seat.old) }

    // The word that this look found, which is 0 if the answer is Unfinished.
    ensures view { view_of seat.new ≡ looked_at (t.0 - 1) (slice_index (view_of seat.new).notes (t.0 - 1)) (view_of seat.old) }
    ensures unfinished { result ≡ Unfinished → (view_of seat.new).looked ≡ (t.0 - 1, 0) ∷ (view_of seat.old).looked }
{
    match turn.look(seat, t.0 - 1) {
        0 => Poll::Unfinished,
        1 => Poll::Finished(Outcome::Committed),
        _ => Poll::Finished(Outcome::Aborted),
    }
}
