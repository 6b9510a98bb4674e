//! Lists by number, in one vector.

ghost use Rattle.std.specs.Prelude.{◌≡◌, ◌<◌, ◌≤◌, ◌+◌, ◌++◌, ◌∷◌, [], length, cond, eqb, filter, not, remove, set, OnOk};
ghost use Rattle.std.specs.Result.{is_err};
ghost use Rattle.teb_rules.specs.history.Ascending.{IsAscendingBy, place_of, put_by};
ghost use Rattle.arena_multimap.specs.NumberedLists.{list_in};

use crate::arena::{AHEAD, Arena};
use sorted_multimap::{Numbered, find_number};
use std::alloc::{AllocError, Global};
use std::marker::Model;

/// Lists of values, numbered from 0 in the order in which they were begun.
///
/// All values are in one vector, in which each list that has values has a segment. A list is found by its number. Inserting a value moves
/// the later values of its list, and all of them if its segment is full, which is at most two moves for each value.
pub struct NumberedLists<V: Copy> {
    lists: Arena<V>,
    // There is room for this many more beginnings and values.
    spare: usize,
}

/// Hand-written `Drop`, so that callers do not re-prove the drop glue.
impl<V: Copy> Drop for NumberedLists<V> {
    fn drop(self) {
        let NumberedLists {
            lists: _lists,
            spare: _spare,
        } = self;
    }
}

impl<V: Copy> Model for NumberedLists<V> {
    ghost use Rattle.arena_multimap.specs.NumberedLists.{Shown, all_lists, IsNumbered};

    ghost Value = { Shown V };

    ghost view = { λ p. record { lists = all_lists p.lists; spare = p.spare } };

    ghost invariant = { λ p. IsNumbered p.lists p.spare };
}

impl<V: Copy> NumberedLists<V> {
    /// Returns no lists, with no room. Takes no memory.
    pub fn new(alloc: Global) -> Self
        ensures lists { result.lists ≡ [] }
        ensures spare { result.spare ≡ 0 }
    {
        NumberedLists {
            lists: Arena::new(alloc),
            spare: 0,
        }
    }

    /// Makes room for n more beginnings and values together, in whatever lists.
    ///
    /// # Errors
    /// Out of memory; or at least 2^30 values would have been put in, counting those that were taken out since and n more, or 64 if n is less.
    /// The lists are unchanged.
    pub fn reserve(&mut self, n: usize) -> Result<(), AllocError>
        ensures lists { self.new.lists ≡ self.old.lists }
        ensures room { OnOk result (n ≤ self.new.spare) }
        ensures kept { self.old.spare ≤ self.new.spare }
    {
        if n <= self.spare {
            return Ok(());
        }
        let room = n.max(AHEAD);
        self.lists.reserve(room)?;
        self.spare = room;
        Ok(())
    }

    /// Returns how many lists there are.
    pub fn len(&self) -> usize
        ensures { result ≡ length self.now.lists }
    {
        self.lists.len()
    }

    /// Begins an empty list, which becomes the last. It takes one place of the room.
    pub fn begin(&mut self)
        requires { 0 < self.old.spare }
        ensures lists { self.new.lists ≡ self.old.lists ++ [] ∷ [] }
        ensures spare { self.old.spare ≡ self.new.spare + 1 }
    {
        self.lists.begin();
        self.spare -= 1;
    }

    /// Returns the values of a list, in their order; empty if there is no such list.
    #[inline(always)]
    pub fn list(&self, i: usize) -> &[V]
        ensures { result.now ≡ list_in self.now.lists i }
    {
        self.lists.list(i)
    }

    /// Appends a value to a list. It takes one place of the room.
    #[inline(always)]
    pub fn push(&mut self, i: usize, value: V)
        requires room { 0 < self.old.spare }
        requires within { i < length self.old.lists }
        ensures lists { self.new.lists ≡ set self.old.lists i (list_in self.old.lists i ++ value ∷ []) }
        ensures spare { self.old.spare ≡ self.new.spare + 1 }
    {
        self.lists.push(i, value);
        self.spare -= 1;
    }

    /// Removes the value at an index of a list.
    pub fn take(&mut self, i: usize, at: usize)
        requires { at < length (list_in self.old.lists i) }
        ensures lists { self.new.lists ≡ set self.old.lists i (remove (list_in self.old.lists i) at) }
        ensures spare { self.new.spare ≡ self.old.spare }
    {
        self.lists.take(i, at);
    }

    /// Removes all values of a list, if there is one.
    pub fn clear(&mut self, i: usize)
        ensures lists { self.new.lists ≡ set self.old.lists i [] }
        ensures spare { self.new.spare ≡ self.old.spare }
    {
        self.lists.clear(i);
    }
}

impl<V: Numbered> NumberedLists<V> {
    /// Inserts a value into a list, whose values ascend by number, or replaces the one with the same number. Returns true if it was inserted,
    /// which takes one place of the room.
    pub fn put_by_number(&mut self, i: usize, value: V) -> bool
        requires room { 0 < self.old.spare }
        requires within { i < length self.old.lists }
        requires ascending { IsAscendingBy V.numbered_by (list_in self.old.lists i) }
        ensures added { result ≡ is_err (place_of V.numbered_by (list_in self.old.lists i) (V.numbered_by value)) }
        ensures lists { self.new.lists ≡ set self.old.lists i (put_by V.numbered_by value (list_in self.old.lists i)) }
        ensures spare { self.old.spare ≡ self.new.spare + cond result 1 0 }
    {
        if !self.lists.put_by_number(i, value) {
            return false;
        }
        self.spare -= 1;
        true
    }

    /// Removes the value with a number from a list, whose values ascend by number. If there is none, nothing changes.
    pub fn take_by_number(&mut self, i: usize, number: u32)
        requires { IsAscendingBy V.numbered_by (list_in self.old.lists i) }
        ensures lists { self.new.lists ≡ set self.old.lists i (filter (λ v. not (eqb (V.numbered_by v) number)) (list_in self.old.lists i)) }
        ensures spare { self.new.spare ≡ self.old.spare }
    {
        if let Ok(at) = find_number(self.lists.list(i), number) {
            self.lists.take(i, at);
        }
    }
}
