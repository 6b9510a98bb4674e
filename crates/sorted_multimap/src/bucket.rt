//! One bucket: the values of some keys, each beside its key.

mod by_number;

ghost use Rattle.std.specs.Prelude.{◌≡◌, ◌<◌, ◌≤◌, ◌+◌, ◌-◌, ◌++◌, ◌∷◌, take, drop, [], insert, vec_len, vec_capacity, OnOk};
ghost use Rattle.std.specs.List.{remove_range};
ghost use Rattle.sorted_multimap.specs.Buckets.{bucket_values, IsSorted, HasRoom, IsKept, IsEdited, lows, tops, Ascends};

use std::alloc::{AllocError, Global};
use std::cmp::Ordering;
use teb_rules::vectors::{make_room, put_in};

/// A bucket makes room for this many more items than are asked for, so that the first of them do not make it move.
const SPARE: usize = 16;

/// How many keys a search looks at one after the other.
const FEW: usize = 8;

/// Values by key: the keys in ascending order, and each value at the place of its key.
#[derive(Drop)]
pub(crate) struct Bucket<K, V> {
    keys: Vec<K>,
    values: Vec<V>,
}

impl<K: Ord + Copy, V: Copy> Bucket<K, V> {
    /// Returns an empty bucket, with no room.
    pub(crate) fn new(alloc: Global) -> Self
        ensures keys { result.keys.items ≡ [] }
        ensures values { result.values.items ≡ [] }
        ensures sorted { IsSorted K.cmp result }
    {
        Bucket {
            keys: Vec::new(alloc),
            values: Vec::new(alloc),
        }
    }

    /// Makes room for n more values. The values are unchanged, also on `Err`.
    #[inline(always)]
    pub(crate) fn reserve(&mut self, n: usize) -> Result<(), AllocError>
        ensures kept { IsKept K.cmp self.old self.new }
        ensures room { OnOk result (HasRoom self.new n) }
    {
        make_room(&mut self.keys, n, SPARE)?;
        make_room(&mut self.values, n, SPARE)?;
        Ok(())
    }

    /// Returns the values of a key, in their order.
    #[inline(always)]
    pub(crate) fn list(&self, key: K) -> &[V]
        requires { IsSorted K.cmp self.now }
        ensures { result.now ≡ bucket_values K.cmp self.now key }
    {
        if self.keys.is_empty() {
            return &[];
        }
        self.list_among(key)
    }

    // Returns the values of a key, among those of others.
    fn list_among(&self, key: K) -> &[V]
        requires { IsSorted K.cmp self.now }
        ensures { result.now ≡ bucket_values K.cmp self.now key }
    {
        let (start, end) = self.range_of(key);
        &self.values[start..end]
    }

    // Returns the first place of the values of a key, and the place after the last.
    #[inline(always)]
    fn range_of(&self, key: K) -> (usize, usize)
        requires { IsSorted K.cmp self.now }
        ensures start { result.0 ≡ lows K.cmp self.now.keys.items key }
        ensures end { result.1 ≡ tops K.cmp self.now.keys.items key }
        ensures order { result.0 ≤ result.1 }
        ensures within { result.1 ≤ vec_len self.now.values }
        ensures values { take (result.1 - result.0) (drop result.0 self.now.values.items) ≡ bucket_values K.cmp self.now key }
    {
        let start = first(&self.keys, key);
        let end = end_from(&self.keys, start, key);
        (start, end)
    }

    // Puts the first value into an empty bucket.
    #[inline(always)]
    fn put_first(&mut self, key: K, value: V)
        requires none { vec_len self.old.keys ≡ 0 }
        requires sorted { IsSorted K.cmp self.old }
        requires room { HasRoom self.old 1 }
        ensures { IsEdited K.cmp self.old self.new key (value ∷ []) 1 }
    {
        self.keys.push_reserved(key);
        self.values.push_reserved(value);
    }

    // Inserts a value, and its key beside it, at a place at which the key may be.
    fn put_at(&mut self, at: usize, key: K, value: V)
        requires sorted { IsSorted K.cmp self.old }
        requires room { HasRoom self.old 1 }
        requires low { lows K.cmp self.old.keys.items key ≤ at }
        requires top { at ≤ tops K.cmp self.old.keys.items key }
        ensures { IsEdited K.cmp self.old self.new key (insert (bucket_values K.cmp self.old key) (at - lows K.cmp self.old.keys.items key) value) 1 }
    {
        put_in(&mut self.keys, at, key);
        put_in(&mut self.values, at, value);
    }

    /// Appends a value to those of a key.
    pub(crate) fn push(&mut self, key: K, value: V)
        requires sorted { IsSorted K.cmp self.old }
        requires room { HasRoom self.old 1 }
        ensures { IsEdited K.cmp self.old self.new key (bucket_values K.cmp self.old key ++ value ∷ []) 1 }
    {
        let (_, end) = self.range_of(key);
        self.put_at(end, key, value);
    }

    /// Removes all values of a key.
    pub(crate) fn clear(&mut self, key: K)
        requires { IsSorted K.cmp self.old }
        ensures { IsEdited K.cmp self.old self.new key [] 0 }
    {
        let (start, end) = self.range_of(key);
        if start == end {
            return;
        }
        cut(&mut self.keys, start, end);
        cut(&mut self.values, start, end);
    }
}

/// Removes a range from a vector. What follows it moves down.
fn cut<T: Copy>(v: &mut Vec<T>, start: usize, end: usize)
    requires order { start ≤ end }
    requires within { end ≤ vec_len v.old }
    ensures items { v.new.items ≡ remove_range v.old.items start end }
    ensures len { vec_len v.new + (end - start) ≡ vec_len v.old }
    ensures capacity { vec_capacity v.old ≤ vec_capacity v.new }
{
    v.copy_within(end.., start);
    v.truncate(v.len() - (end - start));
}

/// Returns how many keys are below a key. A few are looked at one after the other.
#[inline(always)]
fn first<K: Ord + Copy>(keys: &[K], key: K) -> usize
    requires { Ascends K.cmp keys.now }
    ensures { result ≡ lows K.cmp keys.now key }
{
    if keys.len() > FEW {
        return search_first(keys, key);
    }
    for i in 0..keys.len() {
        if keys[i].cmp(&key) != Ordering::Less {
            return i;
        }
    }
    keys.len()
}

/// Returns how many keys are below a key, by a binary search.
fn search_first<K: Ord + Copy>(keys: &[K], key: K) -> usize
    requires { Ascends K.cmp keys.now }
    ensures { result ≡ lows K.cmp keys.now key }
{
    keys.partition_point(|k| k.cmp(&key) == Ordering::Less)
}

/// Returns the end of the keys that tie with a key, given their beginning. It looks at them one after the other.
#[inline(always)]
fn end_from<K: Ord + Copy>(keys: &[K], start: usize, key: K) -> usize
    requires ascends { Ascends K.cmp keys.now }
    requires start { start ≡ lows K.cmp keys.now key }
    ensures { result ≡ tops K.cmp keys.now key }
{
    for i in start..keys.len() {
        if keys[i].cmp(&key) != Ordering::Equal {
            return i;
        }
    }
    keys.len()
}
