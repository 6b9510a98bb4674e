//! How a turn begins.
ghost use Rattle.std.specs.Prelude.{◌≡◌, ℕ, ◌≤◌, [], ◌∷◌, Some, IfOk, IfErr};
ghost use Rattle.turn_lock.specs.Views.{first_view};
ghost use Rattle.turn_lock.specs.Seats.{base_in, owner_count, note_count, view_of, IsOf, IsOutside};

use crate::member::Member;
use crate::turn::{Seat, SeatOf, Start, Turn};
use atomic_table::{Refused, Table};
use std::alloc::Global;
use std::snapshot::Snapshot;

impl<T: Member> Turn<T> {
    /// Returns a turn with this value, and its first seat, which has the owners 1 to `owners` and 2^45 turns.
    ///
    /// # Errors
    /// The value, unchanged, if memory runs out.
    pub fn new(alloc: Global, value: T, notes: u32, owners: u8) -> Result<(Turn<T>, SeatOf<T>), T>
        requires empty { (T.entries value ≡ []) × ((i : ℕ) → T.note value i ≡ 0) }
        requires owners { 1 ≤ owners }
        ensures turn { IfOk result (λ t. (note_count t.0 ≡ notes) × (owner_count t.0 ≡ owners) × (base_in T.base t.0 ≡ T.base value)) }
        ensures seat { IfOk result (λ t. IsOf t.0 t.1 × IsOutside t.1 × (view_of t.1 ≡ first_view (T.base value) notes owners)) }
        ensures back { IfErr result (λ x. x ≡ value) }
    {
        let Ok(words) = Vec::from_elem(alloc, 0u64, notes as usize + 2) else {
            return Err(value);
        };
        let Ok(mut slots) = Vec::with_capacity(alloc, 1) else {
            return Err(value);
        };
        let start = Start {
            value: Snapshot::of(&value),
            notes,
            owners,
        };
        slots.push_reserved(Some(value));
        match Table::new(alloc, words.as_slice(), slots, &start) {
            Ok((table, seat)) => Ok((Turn { table }, Seat { seat })),
            Err(refused) => Err(only_value(refused)),
        }
    }
}

fn only_value<T>(refused: Refused<Option<T>, Global>) -> T
    requires { (x : T) × (refused.slots.items ≡ Some x ∷ []) }
    ensures { refused.slots.items ≡ Some result ∷ [] }
{
    let Refused { mut slots } = refused;
    let first = slots.pop().unwrap();
    slots.destroy_empty();
    first.unwrap()
}
