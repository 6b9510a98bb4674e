//! Edits of the values of a key that ascend by number. Each looks for its key once.

ghost use Rattle.std.specs.Prelude.{◌≡◌, ◌<◌, ◌+◌, ◌==◌, ◌||◌, cond, eqb, filter, length, not, IsTrue, IsFalse};
ghost use Rattle.std.specs.Ordering.{is_eq};
ghost use Rattle.std.specs.Result.{is_err};
ghost use Rattle.teb_rules.specs.history.Ascending.{IsAscendingBy, place_of, put_by};
ghost use Rattle.sorted_multimap.specs.Multimap.{values_in};

use super::{Multimap, place_of};
use crate::{Key, Numbered};

impl<K: Key, V: Numbered> Multimap<K, V> {
    /// Inserts a value among those of a key, which ascend by number, or replaces the one with the same number. Returns true if it was
    /// inserted, which takes one place of the room.
    #[inline(always)]
    pub fn put_by_number(&mut self, key: K, value: V) -> bool
        requires room { 0 < self.old.spare }
        requires ascending { IsAscendingBy V.numbered_by (values_in K.cmp self.old key) }
        ensures added { result ≡ is_err (place_of V.numbered_by (values_in K.cmp self.old key) (V.numbered_by value)) }
        ensures values { (q : K) → values_in K.cmp self.new q ≡ cond (is_eq (K.cmp key q)) (put_by V.numbered_by value (values_in K.cmp self.old key)) (values_in K.cmp self.old q) }
        ensures spare { self.old.spare ≡ self.new.spare + cond result 1 0 }
    {
        let at = place_of(&self.buckets, key);
        let added = self.buckets[at].put_by_number(key, value);
        self.spare -= usize::from(added);
        added
    }

    /// Inserts a value among those of a key, which ascend by number, unless one has its number. Returns true if it was inserted, which takes
    /// one place of the room.
    #[inline(always)]
    pub fn add_by_number(&mut self, key: K, value: V) -> bool
        requires room { 0 < self.old.spare }
        requires ascending { IsAscendingBy V.numbered_by (values_in K.cmp self.old key) }
        ensures added { result ≡ is_err (place_of V.numbered_by (values_in K.cmp self.old key) (V.numbered_by value)) }
        ensures values { (q : K) → values_in K.cmp self.new q ≡ cond (is_eq (K.cmp key q)) (cond result (put_by V.numbered_by value (values_in K.cmp self.old key)) (values_in K.cmp self.old key))
            (values_in K.cmp self.old q) }
        ensures spare { self.old.spare ≡ self.new.spare + cond result 1 0 }
    {
        let at = place_of(&self.buckets, key);
        let added = self.buckets[at].add_by_number(key, value);
        self.spare -= usize::from(added);
        added
    }

    /// Puts a value among those of a key, which ascend by number, if the key has any. It replaces the value with the same number if `replace`
    /// is true, and else leaves it. Returns whether the key has values; then it takes one place of the room, and else nothing changes.
    #[inline(always)]
    pub fn join_by_number(&mut self, key: K, value: V, replace: bool) -> bool
        requires room { 0 < self.old.spare }
        requires ascending { IsAscendingBy V.numbered_by (values_in K.cmp self.old key) }
        ensures held { result ≡ not (length (values_in K.cmp self.old key) == 0) }
        ensures values { IsTrue result → (q : K) → values_in K.cmp self.new q ≡ cond (is_eq (K.cmp key q))
            (cond (replace || is_err (place_of V.numbered_by (values_in K.cmp self.old key) (V.numbered_by value))) (put_by V.numbered_by value (values_in K.cmp self.old key))
            (values_in K.cmp self.old key)) (values_in K.cmp self.old q) }
        ensures kept { IsFalse result → self.new ≡ self.old }
        ensures spare { self.old.spare ≡ self.new.spare + cond result 1 0 }
    {
        let at = place_of(&self.buckets, key);
        let joined = self.buckets[at].join_by_number(key, value, replace);
        self.spare -= usize::from(joined);
        joined
    }

    /// Removes the value with a number from those of a key, which ascend by number. If there is none, nothing changes.
    #[inline(always)]
    pub fn take_by_number(&mut self, key: K, number: u32)
        requires { IsAscendingBy V.numbered_by (values_in K.cmp self.old key) }
        ensures values { (q : K) → values_in K.cmp self.new q ≡ cond (is_eq (K.cmp key q)) (filter (λ v. not (eqb (V.numbered_by v) number)) (values_in K.cmp self.old key))
            (values_in K.cmp self.old q) }
        ensures spare { self.new.spare ≡ self.old.spare }
    {
        if self.buckets.is_empty() {
            return;
        }
        let at = place_of(&self.buckets, key);
        self.buckets[at].take_by_number(key, number);
    }
}
