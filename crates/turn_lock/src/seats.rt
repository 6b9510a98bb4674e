//! More seats out of one, and one out of more.
ghost use Rattle.std.specs.Prelude.{◌≡◌, ◌≢◌, ◌≤◌, []};
ghost use Rattle.turn_lock.specs.Counts.{Has, without};
ghost use Rattle.turn_lock.specs.Views.{given, remaining, both_views};
ghost use Rattle.turn_lock.specs.Seats.{view_of, IsOf, IsOutside};

use crate::member::Member;
use crate::steps::{Cut, Deal, Merge};
use crate::turn::{Seat, SeatOf, Turn};
use std::marker::Brand;

impl<T: Member> Turn<T> {
    /// Returns a new seat with one owner and some turns of this seat, which has seen the same. At least one owner stays.
    pub fn split(&self, seat: &mut SeatOf<T>, owner: u8, turns: u64) -> SeatOf<T>
        requires seat { IsOf self.now seat.old × IsOutside seat.old }
        requires owner { Has (view_of seat.old).owners owner × (without owner (view_of seat.old).owners ≢ []) }
        requires turns { turns ≤ (view_of seat.old).turns }
        ensures old { IsOf self.now seat.new × IsOutside seat.new × (view_of seat.new ≡ remaining owner turns (view_of seat.old)) }
        ensures new { IsOf self.now result × IsOutside result × (view_of result ≡ given owner turns (view_of seat.old)) }
    {
        self.deal::<Brand>(seat, owner, turns)
    }

    // A step has no operands for its view, so they go in by a type parameter that exists in proofs alone.
    fn deal<D: Deal>(&self, seat: &mut SeatOf<T>, owner: u8, turns: u64) -> SeatOf<T>
        requires deal { (D.owner ≡ owner) × (D.turns ≡ turns) }
        requires seat { IsOf self.now seat.old × IsOutside seat.old }
        requires owner { Has (view_of seat.old).owners owner × (without owner (view_of seat.old).owners ≢ []) }
        requires turns { turns ≤ (view_of seat.old).turns }
        ensures old { IsOf self.now seat.new × IsOutside seat.new × (view_of seat.new ≡ remaining owner turns (view_of seat.old)) }
        ensures new { IsOf self.now result × IsOutside result × (view_of result ≡ given owner turns (view_of seat.old)) }
    {
        let _ = (owner, turns);
        let seat = self.table.shared.split_seat::<Cut<D>>(&mut seat.seat);
        Seat { seat }
    }

    /// Joins a seat into another, which has the owners and turns of both then, and knows what both knew.
    pub fn join(&self, seat: &mut SeatOf<T>, other: SeatOf<T>)
        requires seats { IsOf self.now seat.old × IsOf self.now other }
        requires outside { IsOutside seat.old × IsOutside other }
        ensures seat { IsOf self.now seat.new × IsOutside seat.new }
        ensures view { view_of seat.new ≡ both_views (view_of seat.old) (view_of other) }
    {
        let Seat { seat: other } = other;
        self.table.shared.join_seat::<Merge>(&mut seat.seat, other);
    }
}
