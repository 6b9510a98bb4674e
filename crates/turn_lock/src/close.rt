//! How a turn ends.
ghost use Rattle.std.specs.Prelude.{◌≡◌, ◌<◌, All};
ghost use Rattle.turn_lock.specs.Counts.{HasAll};
ghost use Rattle.turn_lock.specs.Calls.{AreOwned, Follows, Ends};
ghost use Rattle.turn_lock.specs.Seats.{base_in, owner_count, view_of, all_owners, IsOf, IsOutside};

use crate::member::Member;
use crate::turn::{Seat, SeatOf, Turn};

impl<T: Member> Turn<T> {
    /// Returns the last value. The seats, none of them in the turn, have all owners together.
    ///
    /// For each seat the value begins with all that it had seen, and goes on by entries of other owners.
    pub fn close(self, mut seats: Vec<SeatOf<T>>) -> T
        requires seats { All (λ s. IsOf self s × IsOutside s) seats.items }
        requires all { HasAll (owner_count self) (all_owners seats.items) }
        ensures follows { All (λ s. Follows T.entries T.owner T.note T.base (view_of s) result) seats.items }
        ensures base { T.base result ≡ base_in T.base self }
        ensures owned { AreOwned T.owner (owner_count self) (T.entries result) }
    {
        let mut first = seats.pop().unwrap();
        while let Some(other) = seats.pop() {
            self.join(&mut first, other);
        }
        seats.destroy_empty();
        self.end(first)
    }

    /// Returns the last value, where one seat has all owners. It tells the same of each seat that was joined into it, too.
    pub fn end(self, seat: SeatOf<T>) -> T
        requires seat { IsOf self seat × IsOutside seat }
        requires all { HasAll (owner_count self) (view_of seat).owners }
        ensures ends { Ends T.entries T.owner T.note T.base (view_of seat) result }
        ensures base { T.base result ≡ base_in T.base self }
        ensures owned { AreOwned T.owner (owner_count self) (T.entries result) }
    {
        let Turn { table } = self;
        let Seat { seat } = seat;
        let mut closed = table.close_with(seat);
        let value = closed.take(0);
        closed.free();
        value.unwrap()
    }
}
