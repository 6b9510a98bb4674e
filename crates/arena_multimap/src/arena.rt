//! Lists of values in one vector, each by its number.

mod by_number;

ghost use Rattle.std.specs.Prelude.{ℕ, ◌≡◌, ◌<◌, ◌≤◌, ◌+◌, ◌++◌, ◌∷◌, max, length, cond, eqb, [], insert, remove, set, OnOk};
ghost use Rattle.arena_multimap.specs.Arenas.{list_at, lists, segment_at, IsArena, HasRoom, HasRoomFor};

use std::alloc::{AllocError, Global};
use teb_rules::vectors::make_wide_room;

/// Room is made for at least this many values, so that not every `reserve` takes memory.
pub(crate) const AHEAD: usize = 64;

/// How many places each value pays for: the first ones of a list, or a part of the next move of its segment.
const SHARE: usize = 4;

/// The segment of a list: from `start`, `len` of `room` places.
#[derive(Clone, Copy)]
pub(crate) struct Segment {
    start: u32,
    len: u32,
    room: u32,
}

impl Segment {
    /// Returns the place of its first value.
    #[inline(always)]
    fn start(self) -> usize
        ensures { result ≡ self.start }
    {
        self.start as usize
    }

    /// Returns the place after its last value.
    #[inline(always)]
    fn end(self) -> usize
        ensures { result ≡ self.start + self.len }
    {
        self.start as usize + self.len as usize
    }
}

/// The segment of a list that has had no value: it has no place.
const UNPLACED: Segment = Segment {
    start: 0,
    len: 0,
    room: 0,
};

/// Lists of values, each in a segment. A list gets its first places with its first value. A full segment moves to the end of the vector,
/// to twice the room.
#[derive(Drop)]
pub(crate) struct Arena<V> {
    segments: Vec<Segment>,
    values: Vec<V>,
    // How many places the values have put by for the next moves of their segments.
    debt: usize,
}

impl<V: Copy> Arena<V> {
    /// Returns no lists, with no room.
    pub(crate) fn new(alloc: Global) -> Self
        ensures sound { IsArena result }
        ensures lists { lists result ≡ 0 }
        ensures room { HasRoom result 0 }
    {
        Arena {
            segments: Vec::new(alloc),
            values: Vec::new(alloc),
            debt: 0,
        }
    }

    /// Makes room for n more values, each in any list or a new one, or lists that begin empty.
    ///
    /// # Errors
    /// Out of memory, or there would be more than 2^32 - 1 places, with those that are put by and those of n values. The lists are unchanged.
    pub(crate) fn reserve(&mut self, n: usize) -> Result<(), AllocError>
        requires { IsArena self.old }
        ensures sound { IsArena self.new }
        ensures lists { lists self.new ≡ lists self.old }
        ensures values { (j : ℕ) → list_at self.new j ≡ list_at self.old j }
        ensures kept { (m : ℕ) → HasRoom self.old m → HasRoom self.new m }
        ensures room { OnOk result (HasRoom self.new n) }
    {
        let places = n.checked_mul(SHARE).ok_or(AllocError)?;
        let places = places.checked_add(self.debt).ok_or(AllocError)?;
        let all = places.checked_add(self.values.len()).ok_or(AllocError)?;
        if all > u32::MAX as usize {
            return Err(AllocError);
        }
        make_wide_room(&mut self.values, places)?;
        make_wide_room(&mut self.segments, n)
    }

    /// Returns how many lists there are.
    pub(crate) fn len(&self) -> usize
        ensures { result ≡ lists self.now }
    {
        self.segments.len()
    }

    /// Returns the values of a list; empty if there is no such list.
    pub(crate) fn list(&self, i: usize) -> &[V]
        requires { IsArena self.now }
        ensures { result.now ≡ list_at self.now i }
    {
        if i >= self.segments.len() {
            return &[];
        }
        let segment = self.segments[i];
        &self.values[segment.start()..segment.end()]
    }

    /// Begins an empty list, which takes no place before its first value.
    pub(crate) fn begin(&mut self)
        requires sound { IsArena self.old }
        requires room { HasRoomFor self.old 1 0 }
        ensures sound { IsArena self.new }
        ensures lists { lists self.new ≡ lists self.old + 1 }
        ensures unplaced { (segment_at self.new.segments.items (lists self.old)).room ≡ 0 }
        ensures values { (j : ℕ) → list_at self.new j ≡ list_at self.old j }
        ensures room { (m n : ℕ) → HasRoomFor self.old (m + 1) n → HasRoomFor self.new m n }
    {
        let _ = self.segments.push(UNPLACED);
    }

    /// Appends a value to a list, or begins the next list with it.
    #[inline(always)]
    pub(crate) fn push(&mut self, i: usize, value: V)
        requires sound { IsArena self.old }
        requires within { i ≤ lists self.old }
        requires room { HasRoom self.old 1 }
        ensures sound { IsArena self.new }
        ensures lists { lists self.new ≡ max (lists self.old) (i + 1) }
        ensures values { (j : ℕ) → list_at self.new j ≡ cond (eqb j i) (list_at self.old i ++ value ∷ []) (list_at self.old j) }
        ensures room { (n : ℕ) → HasRoom self.old (n + 1) → HasRoom self.new n }
    {
        if i == self.segments.len() {
            self.begin();
            self.open(i, value);
            return;
        }
        let segment = self.segments[i];
        if segment.room == 0 {
            self.open(i, value);
            return;
        }
        if segment.len == segment.room {
            self.widen(i);
        }
        self.append(i, value);
    }

    // Gives an empty list its segment, and its first value.
    #[inline(always)]
    fn open(&mut self, i: usize, value: V)
        requires sound { IsArena self.old }
        requires within { i < lists self.old }
        requires unplaced { (segment_at self.old.segments.items i).room ≡ 0 }
        requires room { HasRoomFor self.old 0 1 }
        ensures sound { IsArena self.new }
        ensures lists { lists self.new ≡ lists self.old }
        ensures values { (j : ℕ) → list_at self.new j ≡ cond (eqb j i) (list_at self.old i ++ value ∷ []) (list_at self.old j) }
        ensures room { (m n : ℕ) → HasRoomFor self.old m (n + 1) → HasRoomFor self.new m n }
    {
        let start = self.values.len() as u32;
        self.segments[i] = Segment {
            start,
            len: 1,
            room: SHARE as u32,
        };
        let _ = self.values.push(value);
        let _ = self.values.push(value);
        let _ = self.values.push(value);
        let _ = self.values.push(value);
    }

    // Moves a full segment to the end, to twice the room.
    fn widen(&mut self, i: usize)
        requires sound { IsArena self.old }
        requires within { i < lists self.old }
        requires full { (segment_at self.old.segments.items i).len ≡ (segment_at self.old.segments.items i).room }
        requires placed { 0 < (segment_at self.old.segments.items i).room }
        requires room { HasRoom self.old 1 }
        ensures sound { IsArena self.new }
        ensures lists { lists self.new ≡ lists self.old }
        ensures values { (j : ℕ) → list_at self.new j ≡ list_at self.old j }
        ensures wide { (segment_at self.new.segments.items i).len < (segment_at self.new.segments.items i).room }
        ensures room { (n : ℕ) → HasRoom self.old n → HasRoom self.new n }
    {
        let segment = self.segments[i];
        self.segments[i] = Segment {
            start: self.values.len() as u32,
            room: 2 * segment.room,
            ..segment
        };
        let room = segment.room as usize;
        let values = segment.start()..segment.end();
        let _ = self.values.extend_from_within(values);
        // Any values fill the rest of the room.
        let _ = self.values.extend_from_within(0..room);
        self.debt -= 2 * room;
    }

    // Appends a value to a list whose segment has room.
    fn append(&mut self, i: usize, value: V)
        requires sound { IsArena self.old }
        requires within { i < lists self.old }
        requires wide { (segment_at self.old.segments.items i).len < (segment_at self.old.segments.items i).room }
        requires room { HasRoom self.old 1 }
        ensures sound { IsArena self.new }
        ensures lists { lists self.new ≡ lists self.old }
        ensures values { (j : ℕ) → list_at self.new j ≡ cond (eqb j i) (list_at self.old i ++ value ∷ []) (list_at self.old j) }
        ensures room { (n : ℕ) → HasRoom self.old (n + 1) → HasRoom self.new n }
    {
        let place = self.segments[i].end();
        self.values[place] = value;
        self.segments[i].len += 1;
        self.debt += SHARE;
    }

    /// Inserts a value into a list, or begins the next list with it.
    #[inline(always)]
    pub(crate) fn insert(&mut self, i: usize, at: usize, value: V)
        requires sound { IsArena self.old }
        requires within { i ≤ lists self.old }
        requires at { at ≤ length (list_at self.old i) }
        requires room { HasRoom self.old 1 }
        ensures sound { IsArena self.new }
        ensures lists { lists self.new ≡ max (lists self.old) (i + 1) }
        ensures values { (j : ℕ) → list_at self.new j ≡ cond (eqb j i) (insert (list_at self.old i) at value) (list_at self.old j) }
        ensures room { (n : ℕ) → HasRoom self.old (n + 1) → HasRoom self.new n }
    {
        self.push(i, value);
        let segment = self.segments[i];
        let place = segment.start() + at;
        let last = segment.end() - 1;
        if place == last {
            return;
        }
        self.values.copy_within(place..last, place + 1);
        self.values[place] = value;
    }

    /// Replaces a value of a list.
    pub(crate) fn replace(&mut self, i: usize, at: usize, value: V)
        requires sound { IsArena self.old }
        requires at { at < length (list_at self.old i) }
        ensures sound { IsArena self.new }
        ensures lists { lists self.new ≡ lists self.old }
        ensures values { (j : ℕ) → list_at self.new j ≡ cond (eqb j i) (set (list_at self.old i) at value) (list_at self.old j) }
        ensures room { (n : ℕ) → HasRoom self.old n → HasRoom self.new n }
    {
        let place = self.segments[i].start() + at;
        self.values[place] = value;
    }

    /// Removes a value from a list. The list keeps its segment.
    pub(crate) fn take(&mut self, i: usize, at: usize)
        requires sound { IsArena self.old }
        requires at { at < length (list_at self.old i) }
        ensures sound { IsArena self.new }
        ensures lists { lists self.new ≡ lists self.old }
        ensures segments { (j : ℕ) → (segment_at self.new.segments.items j).room ≡ (segment_at self.old.segments.items j).room }
        ensures values { (j : ℕ) → list_at self.new j ≡ cond (eqb j i) (remove (list_at self.old i) at) (list_at self.old j) }
        ensures room { (n : ℕ) → HasRoom self.old n → HasRoom self.new n }
    {
        let segment = self.segments[i];
        let place = segment.start() + at;
        self.values.copy_within(place + 1..segment.end(), place);
        self.segments[i].len -= 1;
    }

    /// Removes all values of a list, if there is one. Its segment stays.
    pub(crate) fn clear(&mut self, i: usize)
        requires { IsArena self.old }
        ensures sound { IsArena self.new }
        ensures lists { lists self.new ≡ lists self.old }
        ensures segments { (j : ℕ) → (segment_at self.new.segments.items j).room ≡ (segment_at self.old.segments.items j).room }
        ensures values { (j : ℕ) → list_at self.new j ≡ cond (eqb j i) [] (list_at self.old j) }
        ensures room { (n : ℕ) → HasRoom self.old n → HasRoom self.new n }
    {
        if i >= self.segments.len() {
            return;
        }
        self.segments[i].len = 0;
    }
}
