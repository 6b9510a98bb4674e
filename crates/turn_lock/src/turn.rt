//! A turn and its seats.
ghost use Rattle.std.specs.Prelude.{◌≡◌, ◌≢◌, ◌+◌, ◌≤◌, []};
ghost use Rattle.turn_lock.specs.Rule.{Holds};
ghost use Rattle.turn_lock.specs.Views.{first_view};

use crate::member::Member;
use crate::view::View;
use atomic_table::{Table, TableRule};
use std::alloc::Global;
use std::marker::PhantomData;
use std::snapshot::Snapshot;

/// What the rule is told when a turn is made.
#[derive(Drop)]
pub struct Start<T> {
    pub value: Snapshot<T>,
    pub notes: u32,
    pub owners: u8,
}

/// The rule that every step keeps.
#[derive(Drop)]
pub struct TurnRule<T> {
    marker: PhantomData<T>,
}

impl<T: Member> TableRule<Option<T>, View<T::Entry, T::Base>, Start<T>> for TurnRule<T> {
    ghost holds = { λ key. Holds T.entries T.owner T.note T.base (T.base key.value.value) key.owners key.notes };

    ghost first = { λ key. first_view (T.base key.value.value) key.notes key.owners };
}

/// One value, which its seats take one after the other, and its notes.
#[derive(Drop)]
pub struct Turn<T: Member> {
    pub(crate) table: Table<Option<T>, View<T::Entry, T::Base>, Start<T>, TurnRule<T>, Global>,
    ghost sized: { (table.shared.table_id.words ≡ table.shared.key.notes + 2) × (table.shared.table_id.slots ≡ 1) },
    ghost owned: { 1 ≤ table.shared.key.owners },
}

/// A right to take part in a turn: to enter it, and to add entries of its owners. It has no bytes.
///
/// A seat is for one turn, and every call that takes one needs a seat of this turn. Where a seat is dropped, its owners
/// are gone, and the turn cannot be closed; where it is dropped in the turn, nobody enters any more.
#[derive(Drop)]
pub struct Seat<T, E, B> {
    pub(crate) seat: atomic_table::Seat<Option<T>, View<E, B>>,
    ghost live: { seat.me.0.owners ≢ [] },
}

/// A seat of a turn whose value is a `T`.
pub type SeatOf<T> = Seat<T, <T as Member>::Entry, <T as Member>::Base>;
