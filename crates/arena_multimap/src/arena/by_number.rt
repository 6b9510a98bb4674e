//! Edits of a list that ascends by number.

ghost use Rattle.std.specs.Prelude.{ℕ, ◌≡◌, ◌≤◌, ◌+◌, max, cond, eqb};
ghost use Rattle.std.specs.Result.{is_err};
ghost use Rattle.teb_rules.specs.history.Ascending.{IsAscendingBy, place_of, put_by};
ghost use Rattle.arena_multimap.specs.Arenas.{list_at, lists, IsArena, HasRoom};

use super::Arena;
use sorted_multimap::{Numbered, find_number};

impl<V: Numbered> Arena<V> {
    /// Inserts a value among those of a list, or of the next new one, or replaces the one with the same number. Returns true if it was inserted.
    #[inline(always)]
    pub(crate) fn put_by_number(&mut self, i: usize, value: V) -> bool
        requires sound { IsArena self.old }
        requires within { i ≤ lists self.old }
        requires room { HasRoom self.old 1 }
        requires ascending { IsAscendingBy V.numbered_by (list_at self.old i) }
        ensures sound { IsArena self.new }
        ensures added { result ≡ is_err (place_of V.numbered_by (list_at self.old i) (V.numbered_by value)) }
        ensures lists { lists self.new ≡ max (lists self.old) (i + cond result 1 0) }
        ensures values { (j : ℕ) → list_at self.new j ≡ cond (eqb j i) (put_by V.numbered_by value (list_at self.old i)) (list_at self.old j) }
        ensures room { (n : ℕ) → HasRoom self.old (n + cond result 1 0) → HasRoom self.new n }
    {
        match find_number(self.list(i), value.number()) {
            Ok(at) => {
                self.replace(i, at, value);
                false
            }
            Err(at) => {
                self.insert(i, at, value);
                true
            }
        }
    }
}
