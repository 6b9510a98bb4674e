//! What contracts see of the value in a turn.
ghost use Rattle.std.specs.Prelude.{ℕ, List};

/// A value that goes from turn to turn: entries that only grow, each with an owner, notes that stay once they are
/// there, and a base that no turn changes. It has no calls.
pub trait Member {
    type Entry;

    type Base;

    ghost entries: { Self → List Self.Entry };

    ghost owner: { Self.Entry → ℕ };

    // The word of a note, 0 where there is none.
    ghost note: { Self → ℕ → ℕ };

    ghost base: { Self → Self.Base };
}
