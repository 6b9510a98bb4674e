//! Words that are written once, and read without waiting.
ghost use Rattle.std.specs.Prelude.{◌≡◌, ◌<◌, slice_index};
ghost use Rattle.turn_lock.specs.Views.{published, looked_at};
ghost use Rattle.turn_lock.specs.Seats.{note_count, view_of, slot_of, IsOf, IsInside};

use crate::member::Member;
use crate::steps::{Peek, Publish};
use crate::turn::{SeatOf, Turn};

impl<T: Member> Turn<T> {
    /// Writes a note of the value that the seat took, so that every seat may look at it from now on.
    ///
    /// The value has the note with this word, which is above 0, and nobody published it before.
    pub fn publish(&self, seat: &mut SeatOf<T>, value: &T, note: u32, word: u64)
        requires seat { IsOf self.now seat.old × IsInside seat.old }
        requires note { (note < note_count self.now) × (0 < word) × (T.note value.now note ≡ word) }
        requires fresh { slice_index (view_of seat.old).notes note ≡ 0 }
        ensures seat { IsOf self.now seat.new × IsInside seat.new }
        ensures view { view_of seat.new ≡ published note word (view_of seat.old) }
        ensures known { slice_index (view_of seat.new).notes note ≡ word }
    {
        // Only the contract uses the value: it has this note, with this word.
        let _ = value;
        let at = note as usize + 2;
        self.table.shared.store::<Publish>(&mut seat.seat, at, word);
    }

    /// Returns the word of a note, 0 while it is not published. It does not wait, and may be called in the turn or outside.
    ///
    /// A word above 0 is that note in every value that the seat takes later, and is answered at each later look.
    pub fn look(&self, seat: &mut SeatOf<T>, note: u32) -> u64
        requires seat { IsOf self.now seat.old }
        requires note { note < note_count self.now }
        ensures seat { IsOf self.now seat.new × (slot_of seat.new ≡ slot_of seat.old) }
        ensures view { view_of seat.new ≡ looked_at note result (view_of seat.old) }
        ensures known { 0 < slice_index (view_of seat.old).notes note → result ≡ slice_index (view_of seat.old).notes note }
        ensures told { slice_index (view_of seat.new).notes note ≡ result }
    {
        let at = note as usize + 2;
        self.table.shared.load::<Peek>(&mut seat.seat, at)
    }
}
