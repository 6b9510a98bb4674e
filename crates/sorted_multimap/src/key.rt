//! Keys of a multimap.

ghost use Rattle.std.specs.Prelude.{◌≡◌, ℕ, true};
ghost use Rattle.std.specs.Ordering.{is_eq};
ghost use Rattle.sorted_multimap.specs.Keys.{cell_spread, txn_spread, cell_agrees};
ghost use Rattle.std.proofs.Common.{arith};
ghost use Rattle.std.proofs.lemmas.Bool.Decides.{nat_tests};

use teb_rules::names::{Cell, Txn};

/// A key of a multimap. Its spread is a number that determines the bucket of its values. If the spreads of the keys are even, so are
/// the buckets.
pub trait Key: Ord + Copy {
    ghost spread_of: { Self → ℕ };

    fn spread(self) -> usize
        ensures { result ≡ spread_of self };

    ghost agrees: { (a b : Self) → is_eq (Self.cmp a b) ≡ true → spread_of a ≡ spread_of b };
}

/// Consecutive rows are in consecutive buckets.
impl Key for Cell {
    ghost spread_of = { cell_spread };

    ghost agrees = { cell_agrees };

    fn spread(self) -> usize {
        self.key as usize
    }
}

impl Key for Txn {
    ghost spread_of = { txn_spread };

    ghost agrees = { λ a b h. Prim.grind (arith, nat_tests) };

    fn spread(self) -> usize {
        self.0 as usize
    }
}
