//! Edits of the values of a key that ascend by number, each by one search.

ghost use Rattle.std.specs.Prelude.{◌≡◌, ◌==◌, ◌||◌, cond, eqb, filter, length, not, IsTrue, IsFalse, MatchResult};
ghost use Rattle.std.specs.Result.{is_err};
ghost use Rattle.teb_rules.specs.history.Ascending.{IsAscendingBy, place_of, put_by};
ghost use Rattle.sorted_multimap.specs.Buckets.{bucket_values, IsSorted, HasRoom, IsEdited};
ghost use Rattle.sorted_multimap.specs.Places.{IsFound, IsMissing};

use super::Bucket;
use crate::{Numbered, find_number};
use teb_rules::vectors::take_out;

impl<K: Ord + Copy, V: Numbered> Bucket<K, V> {
    /// Inserts a value among those of a key, or replaces the one with the same number. Returns true if it was inserted. Into an empty bucket
    /// it costs two pushes.
    #[inline(always)]
    pub(crate) fn put_by_number(&mut self, key: K, value: V) -> bool
        requires sorted { IsSorted K.cmp self.old }
        requires room { HasRoom self.old 1 }
        requires ascending { IsAscendingBy V.numbered_by (bucket_values K.cmp self.old key) }
        ensures added { result ≡ is_err (place_of V.numbered_by (bucket_values K.cmp self.old key) (V.numbered_by value)) }
        ensures edited { IsEdited K.cmp self.old self.new key (put_by V.numbered_by value (bucket_values K.cmp self.old key)) (cond result 1 0) }
    {
        if self.keys.is_empty() {
            self.put_first(key, value);
            return true;
        }
        self.put_among(key, value)
    }

    // Inserts a value among those of a key, or replaces the one with the same number. Returns true if it was inserted.
    #[inline(never)]
    fn put_among(&mut self, key: K, value: V) -> bool
        requires sorted { IsSorted K.cmp self.old }
        requires room { HasRoom self.old 1 }
        requires ascending { IsAscendingBy V.numbered_by (bucket_values K.cmp self.old key) }
        ensures added { result ≡ is_err (place_of V.numbered_by (bucket_values K.cmp self.old key) (V.numbered_by value)) }
        ensures edited { IsEdited K.cmp self.old self.new key (put_by V.numbered_by value (bucket_values K.cmp self.old key)) (cond result 1 0) }
    {
        let (_, place) = self.place_in(key, value.number());
        self.put_in_place(place, key, value, true)
    }

    /// Inserts a value among those of a key, unless one has its number. Returns true if it was inserted. Into an empty bucket it costs two pushes.
    #[inline(always)]
    pub(crate) fn add_by_number(&mut self, key: K, value: V) -> bool
        requires sorted { IsSorted K.cmp self.old }
        requires room { HasRoom self.old 1 }
        requires ascending { IsAscendingBy V.numbered_by (bucket_values K.cmp self.old key) }
        ensures added { result ≡ is_err (place_of V.numbered_by (bucket_values K.cmp self.old key) (V.numbered_by value)) }
        ensures edited { IsEdited K.cmp self.old self.new key (cond result (put_by V.numbered_by value (bucket_values K.cmp self.old key)) (bucket_values K.cmp self.old key)) (cond result 1 0) }
    {
        if self.keys.is_empty() {
            self.put_first(key, value);
            return true;
        }
        self.add_among(key, value)
    }

    // Inserts a value among those of a key, unless one has its number. Returns true if it was inserted.
    #[inline(never)]
    fn add_among(&mut self, key: K, value: V) -> bool
        requires sorted { IsSorted K.cmp self.old }
        requires room { HasRoom self.old 1 }
        requires ascending { IsAscendingBy V.numbered_by (bucket_values K.cmp self.old key) }
        ensures added { result ≡ is_err (place_of V.numbered_by (bucket_values K.cmp self.old key) (V.numbered_by value)) }
        ensures edited { IsEdited K.cmp self.old self.new key (cond result (put_by V.numbered_by value (bucket_values K.cmp self.old key)) (bucket_values K.cmp self.old key)) (cond result 1 0) }
    {
        let (_, place) = self.place_in(key, value.number());
        self.put_in_place(place, key, value, false)
    }

    /// Puts a value among those of a key, if the key has any. It replaces the value with the same number if `replace` is true, and else leaves
    /// that one. Returns whether the key has values. An empty bucket costs one look.
    #[inline(always)]
    pub(crate) fn join_by_number(&mut self, key: K, value: V, replace: bool) -> bool
        requires sorted { IsSorted K.cmp self.old }
        requires room { HasRoom self.old 1 }
        requires ascending { IsAscendingBy V.numbered_by (bucket_values K.cmp self.old key) }
        ensures held { result ≡ not (length (bucket_values K.cmp self.old key) == 0) }
        ensures edited { IsTrue result
            → IsEdited K.cmp self.old self.new key
            (cond (replace || is_err (place_of V.numbered_by (bucket_values K.cmp self.old key) (V.numbered_by value))) (put_by V.numbered_by value (bucket_values K.cmp self.old key))
            (bucket_values K.cmp self.old key)) 1 }
        ensures kept { IsFalse result → self.new ≡ self.old }
    {
        if self.keys.is_empty() {
            return false;
        }
        self.join_among(key, value, replace)
    }

    // Returns the same among the values of others.
    #[inline(never)]
    fn join_among(&mut self, key: K, value: V, replace: bool) -> bool
        requires sorted { IsSorted K.cmp self.old }
        requires room { HasRoom self.old 1 }
        requires ascending { IsAscendingBy V.numbered_by (bucket_values K.cmp self.old key) }
        ensures held { result ≡ not (length (bucket_values K.cmp self.old key) == 0) }
        ensures edited { IsTrue result
            → IsEdited K.cmp self.old self.new key
            (cond (replace || is_err (place_of V.numbered_by (bucket_values K.cmp self.old key) (V.numbered_by value))) (put_by V.numbered_by value (bucket_values K.cmp self.old key))
            (bucket_values K.cmp self.old key)) 1 }
        ensures kept { IsFalse result → self.new ≡ self.old }
    {
        let (held, place) = self.place_in(key, value.number());
        if held {
            self.put_in_place(place, key, value, replace);
        }
        held
    }

    /// Removes the value with a number from those of a key, if there is one. Removing the only value of a bucket moves nothing.
    pub(crate) fn take_by_number(&mut self, key: K, number: u32)
        requires sorted { IsSorted K.cmp self.old }
        requires ascending { IsAscendingBy V.numbered_by (bucket_values K.cmp self.old key) }
        ensures { IsEdited K.cmp self.old self.new key (filter (λ v. not (eqb (V.numbered_by v) number)) (bucket_values K.cmp self.old key)) 0 }
    {
        let Ok(at) = self.place_in(key, number).1 else {
            return;
        };
        if self.keys.len() == 1 {
            self.keys.clear();
            self.values.clear();
            return;
        }
        take_out(&mut self.keys, at);
        take_out(&mut self.values, at);
    }

    // Puts a value at its place among those of a key. It replaces the value with the same number only if `replace` is true. Returns whether
    // there was none.
    #[inline(always)]
    fn put_in_place(&mut self, place: Result<usize, usize>, key: K, value: V, replace: bool) -> bool
        requires sorted { IsSorted K.cmp self.old }
        requires room { HasRoom self.old 1 }
        requires place { MatchResult place (IsFound K.cmp V.numbered_by self.old key (V.numbered_by value)) (IsMissing K.cmp V.numbered_by self.old key (V.numbered_by value)) }
        ensures added { result ≡ is_err (place_of V.numbered_by (bucket_values K.cmp self.old key) (V.numbered_by value)) }
        ensures edited { IsEdited K.cmp self.old self.new key (cond (replace || result) (put_by V.numbered_by value (bucket_values K.cmp self.old key)) (bucket_values K.cmp self.old key))
            (cond result 1 0) }
    {
        match place {
            Ok(at) if replace => {
                self.values[at] = value;
                false
            }
            Ok(_) => false,
            Err(at) => {
                self.put_at(at, key, value);
                true
            }
        }
    }

    // Returns whether a key has values, and the place of the one with a number among them, or the place where it would go.
    #[inline(always)]
    fn place_in(&self, key: K, number: u32) -> (bool, Result<usize, usize>)
        requires sorted { IsSorted K.cmp self.now }
        requires ascending { IsAscendingBy V.numbered_by (bucket_values K.cmp self.now key) }
        ensures held { result.0 ≡ not (length (bucket_values K.cmp self.now key) == 0) }
        ensures place { MatchResult result.1 (IsFound K.cmp V.numbered_by self.now key number) (IsMissing K.cmp V.numbered_by self.now key number) }
    {
        let (start, end) = self.range_of(key);
        let held = start < end;
        match find_number(&self.values[start..end], number) {
            Ok(i) => (held, Ok(start + i)),
            Err(i) => (held, Err(start + i)),
        }
    }
}
