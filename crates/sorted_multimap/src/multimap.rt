//! A multimap, in buckets of keys.

mod by_number;

ghost use Rattle.std.specs.Prelude.{ℕ, ◌≡◌, ◌<◌, ◌≤◌, ◌+◌, ◌%◌, ◌++◌, ◌∷◌, length, get_or, cond, [], OnOk, IfOk};
ghost use Rattle.std.specs.Ordering.{is_eq};
ghost use Rattle.sorted_multimap.specs.Multimap.{values_in};
ghost use Rattle.sorted_multimap.specs.declared.bucket.Bucket.{Bucket};
ghost use Rattle.sorted_multimap.specs.Buckets.{entries_of, IsSpread, AreKept, HasRoom};

use crate::Key;
use crate::bucket::Bucket;
use std::alloc::{AllocError, Global};
use std::marker::Model;

// The number of buckets for a few dozen values.
const BUCKETS: usize = 32;

// The number of buckets among which the keys are spread.
#[derive(Clone, Copy)]
enum Width {
    One,
    Few,
}

impl Width {
    fn buckets(self) -> usize
        ensures { 0 < result }
    {
        match self {
            Width::One => 1,
            Width::Few => BUCKETS,
        }
    }
}

// Each bucket gets room for at least this many values, so that not every `reserve` goes through all of them.
const AHEAD: usize = 64;

/// A multimap: values, each beside its key. Those of a key have an order, and are lent as one slice.
///
/// If the bucket of a key is empty, a look-up is one look, and putting a value costs two pushes. Otherwise a look-up is a search among the
/// keys of the bucket, one after the other if they are few and else a binary search, and goes on along those that tie with the key. An edit
/// is a look-up, and moves what follows its place in that bucket.
#[derive(Drop)]
pub struct Multimap<K: Key, V: Copy> {
    alloc: Global,
    width: Width,
    // A key is in the bucket whose number is the remainder of its spread. There are no buckets before the first `reserve`.
    buckets: Vec<Bucket<K, V>>,
    // Each bucket has room for this many more values.
    spare: usize,
}

impl<K: Key, V: Copy> Model for Multimap<K, V> {
    ghost use Rattle.sorted_multimap.specs.Multimap.{Shown};

    ghost Value = { Shown K V };

    ghost use Rattle.sorted_multimap.specs.Buckets.{entries_of, IsSpread};

    ghost view = { λ p. record { entries = entries_of p.buckets.items; spare = p.spare } };

    ghost invariant = { λ p. IsSpread K.cmp K.spread_of p.buckets.items p.spare };
}

impl<K: Key, V: Copy> Multimap<K, V> {
    /// Returns an empty multimap, with no room, for a few dozen values: in 32 buckets, so that most have at most one key. Takes no memory.
    pub fn small(alloc: Global) -> Self
        ensures entries { result.entries ≡ [] }
        ensures spare { result.spare ≡ 0 }
    {
        Multimap {
            alloc,
            width: Width::Few,
            buckets: Vec::new(alloc),
            spare: 0,
        }
    }

    /// Returns an empty multimap, with no room, for a few values: in one bucket, so that room costs little. Takes no memory.
    pub fn narrow(alloc: Global) -> Self
        ensures entries { result.entries ≡ [] }
        ensures spare { result.spare ≡ 0 }
    {
        Multimap {
            alloc,
            width: Width::One,
            buckets: Vec::new(alloc),
            spare: 0,
        }
    }

    /// Makes room for n more values, whatever their keys.
    ///
    /// # Errors
    /// `AllocError`: out of memory. The values are unchanged.
    pub fn reserve(&mut self, n: usize) -> Result<(), AllocError>
        ensures entries { self.new.entries ≡ self.old.entries }
        ensures room { OnOk result (n ≤ self.new.spare) }
        ensures kept { self.old.spare ≤ self.new.spare }
    {
        if n <= self.spare {
            return Ok(());
        }
        make_buckets(self.alloc, self.width, &mut self.buckets)?;
        let room = n.max(AHEAD);
        make_room(&mut self.buckets, room)?;
        self.spare = room;
        Ok(())
    }

    /// Returns the values of a key, in their order.
    #[inline(always)]
    pub fn list(&self, key: K) -> &[V]
        ensures { result.now ≡ values_in K.cmp self.now key }
    {
        if self.buckets.is_empty() {
            return &[];
        }
        self.buckets[place_of(&self.buckets, key)].list(key)
    }

    /// Appends a value to those of a key. It takes one place of the room.
    pub fn push(&mut self, key: K, value: V)
        requires { 0 < self.old.spare }
        ensures values { (q : K) → values_in K.cmp self.new q ≡ cond (is_eq (K.cmp key q)) (values_in K.cmp self.old key ++ value ∷ []) (values_in K.cmp self.old q) }
        ensures spare { self.old.spare ≡ self.new.spare + 1 }
    {
        let at = place_of(&self.buckets, key);
        self.buckets[at].push(key, value);
        self.spare -= 1;
    }

    /// Removes all values of a key.
    pub fn clear(&mut self, key: K)
        ensures values { (q : K) → values_in K.cmp self.new q ≡ cond (is_eq (K.cmp key q)) [] (values_in K.cmp self.old q) }
        ensures spare { self.new.spare ≡ self.old.spare }
    {
        if self.buckets.is_empty() {
            return;
        }
        let at = place_of(&self.buckets, key);
        self.buckets[at].clear(key);
    }
}

/// Returns the number of the bucket of a key.
fn place_of<K: Key, V: Copy>(buckets: &[Bucket<K, V>], key: K) -> usize
    requires { 0 < length buckets.now }
    ensures at { result ≡ K.spread_of key % length buckets.now }
    ensures within { result < length buckets.now }
{
    // A remainder by a constant takes no division.
    if buckets.len() == BUCKETS {
        return key.spread() % BUCKETS;
    }
    key.spread() % buckets.len()
}

/// Makes the buckets if there are none.
fn make_buckets<K: Key, V: Copy>(
    alloc: Global,
    width: Width,
    buckets: &mut Vec<Bucket<K, V>>,
) -> Result<(), AllocError>
    ensures some { OnOk result (0 < length buckets.new.items) }
    ensures entries { entries_of buckets.new.items ≡ entries_of buckets.old.items }
    ensures spread { (n : ℕ) → IsSpread K.cmp K.spread_of buckets.old.items n → IsSpread K.cmp K.spread_of buckets.new.items n }
{
    if buckets.is_empty() {
        *buckets = empty_buckets(alloc, width.buckets())?;
    }
    Ok(())
}

/// Returns empty buckets, with no room.
fn empty_buckets<K: Key, V: Copy>(
    alloc: Global,
    count: usize,
) -> Result<Vec<Bucket<K, V>>, AllocError>
    requires { 0 < count }
    ensures some { IfOk result (λ bs. 0 < length bs.items) }
    ensures spread { IfOk result (λ bs. IsSpread K.cmp K.spread_of bs.items 0) }
    ensures entries { IfOk result (λ bs. entries_of bs.items ≡ []) }
{
    let mut buckets = Vec::with_capacity(alloc, count)?;
    for _ in 0..count {
        buckets.push(Bucket::new(alloc))?;
    }
    Ok(buckets)
}

/// Makes room in each bucket.
fn make_room<K: Key, V: Copy>(
    buckets: &mut Vec<Bucket<K, V>>,
    room: usize,
) -> Result<(), AllocError>
    ensures kept { AreKept K.cmp buckets.old.items buckets.new.items }
    ensures room { OnOk result ((i : ℕ) (d : Bucket K V) → i < length buckets.new.items → HasRoom (get_or buckets.new.items i d) room) }
{
    for i in 0..buckets.len() {
        buckets[i].reserve(room)?;
    }
    Ok(())
}
