//! Into the turn, and out of it.
ghost use Rattle.std.specs.Prelude.{◌≡◌, ◌<◌};
ghost use Rattle.turn_lock.specs.Views.{departed};
ghost use Rattle.turn_lock.specs.Calls.{Follows, Enters, Adds};
ghost use Rattle.turn_lock.specs.Seats.{view_of, IsOf, IsOutside, IsInside};

use crate::member::Member;
use crate::steps::{Draw, Look, Move};
use crate::turn::{SeatOf, Turn};
use std::sync::Wait;
use std::thread;

impl<T: Member> Turn<T> {
    /// Waits for the turn, takes the value, and spends one turn of the seat.
    ///
    /// The value begins with all that the seat had seen, and goes on by entries of other owners. Afterwards the seat
    /// has seen all its entries and knows all its notes. It draws a ticket and looks at serving until it is that.
    pub fn enter<R: Wait>(&self, rt: &R, seat: &mut SeatOf<T>) -> T
        requires seat { IsOf self.now seat.old × IsOutside seat.old }
        requires turns { 0 < (view_of seat.old).turns }
        ensures seat { IsOf self.now seat.new × IsInside seat.new }
        ensures follows { Follows T.entries T.owner T.note T.base (view_of seat.old) result }
        ensures enters { Enters T.entries T.note (view_of seat.old) result (view_of seat.new) }
    {
        let shared = &self.table.shared;
        let ticket = shared.fetch_add::<Draw>(&mut seat.seat, 0, 1);
        for _ in rt.forever() {
            let serving = shared.load::<Look>(&mut seat.seat, 1);
            if serving == ticket {
                return shared.exchange(&mut seat.seat, 0, None).unwrap();
            }
            thread::yield_now();
        }
        unreachable!()
    }

    /// Puts the value back, with what this seat has added, and moves the turn on.
    ///
    /// The value is the one that `enter` gave, with further entries of this seat's owners alone; its notes are those
    /// that it had and those that this seat has published since.
    pub fn leave(&self, seat: &mut SeatOf<T>, value: T)
        requires seat { IsOf self.now seat.old × IsInside seat.old }
        requires adds { Adds T.entries T.owner T.note T.base (view_of seat.old) value }
        ensures seat { IsOf self.now seat.new × IsOutside seat.new }
        ensures view { view_of seat.new ≡ departed (T.entries value) (view_of seat.old) }
    {
        let shared = &self.table.shared;
        let nothing = shared.exchange(&mut seat.seat, 0, Some(value));
        let None = nothing else { unreachable!() };
        shared.fetch_add::<Move>(&mut seat.seat, 1, 1);
    }
}
