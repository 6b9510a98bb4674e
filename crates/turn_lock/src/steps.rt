//! What each atomic step tells its seat.
ghost use Rattle.std.specs.Prelude.{ℕ};
ghost use Rattle.turn_lock.specs.Views.{given, remaining, both_views, spent_view};
ghost use Rattle.turn_lock.specs.Steps.{Draws, Looks, Moves, Publishes, Peeks};

use crate::member::Member;
use crate::view::View;
use atomic_table::{Join, Play, Split};
use std::marker::{Brand, PhantomData};

/// Draw a ticket: add 1 to the next ticket.
pub(crate) struct Draw;

impl<T, E, B> Play<Option<T>, View<E, B>> for Draw {
    ghost then = { λ st m found n. Draws m found n };
}

/// Look at serving, and take the slot where it is one's ticket.
pub(crate) struct Look;

impl<T: Member> Play<Option<T>, View<T::Entry, T::Base>> for Look {
    ghost then = { λ st m found n. Looks T.entries T.owner T.note T.base m found n };
}

/// Move serving on, and give the slot back.
pub(crate) struct Move;

impl<T: Member> Play<Option<T>, View<T::Entry, T::Base>> for Move {
    ghost then = { λ st m found n. Moves T.entries m n };
}

/// Publish a note.
pub(crate) struct Publish;

impl<T, E, B> Play<Option<T>, View<E, B>> for Publish {
    ghost then = { λ st m found n. Publishes st m n };
}

/// Look at a note.
pub(crate) struct Peek;

impl<T, E, B> Play<Option<T>, View<E, B>> for Peek {
    ghost then = { λ st m found n. Peeks st m found n };
}

/// What a split gives away. Each call picks it.
pub(crate) trait Deal {
    ghost owner: { ℕ };

    ghost turns: { ℕ };
}

impl Deal for Brand {
    ghost owner = { 0 };

    ghost turns = { 0 };
}

/// Cut a new seat off.
pub(crate) struct Cut<D> {
    deal: PhantomData<D>,
}

impl<E, B, D: Deal> Split<View<E, B>> for Cut<D> {
    ghost left = { λ v. remaining D.owner D.turns v };

    ghost right = { λ v. given D.owner D.turns v };
}

/// Join a seat into another.
pub(crate) struct Merge;

impl<E, B> Join<View<E, B>> for Merge {
    ghost both = { λ v w. both_views v w };

    ghost spent = { spent_view };
}
