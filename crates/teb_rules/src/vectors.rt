//! Edits of vectors whose room was reserved before: an edit takes no memory, so it cannot fail.
//!
//! Each register of the store makes room ahead (`reserve`, which may return out of memory), and then notes events in that room.
//!
//! | Call | |
//! |---|---|
//! | [`make_room`] | room for `n` more values, and for some beyond if it has to allocate |
//! | [`make_wide_room`] | the same for a vector that grows with the history: 16,384 values beyond, or three times its length |
//! | [`put_in`] | inserts a value, in room that was made |
//! | [`take_out`] | removes a value, and copies those that follow one by one: cheaper than `Vec::remove` if they are few |
//!
//! Contracts state the items of the vector, and that its capacity never shrinks.
//!
//! **Not claimed**: how much more room there is than was asked for.

ghost use Rattle.std.specs.Prelude.{◌≡◌, ◌<◌, ◌≤◌, ◌+◌, insert, remove, vec_len, vec_capacity, OnOk};

use std::alloc::AllocError;

/// Makes room for n more values; if it has to allocate, for `more` beyond them. If there is room, it costs a comparison.
///
/// # Errors
/// Out of memory. The values are unchanged.
#[inline(always)]
pub fn make_room<T>(v: &mut Vec<T>, n: usize, more: usize) -> Result<(), AllocError>
    ensures items { v.new.items ≡ v.old.items }
    ensures len { vec_len v.new ≡ vec_len v.old }
    ensures room { OnOk result (vec_len v.new + n ≤ vec_capacity v.new) }
    ensures kept { vec_capacity v.old ≤ vec_capacity v.new }
{
    if n <= v.capacity() - v.len() {
        return Ok(());
    }
    v.reserve(n.saturating_add(more))
}

/// How many values a vector that grows for long has room for from its first one on.
const WIDE: usize = 16_384;

/// Makes room for n more values. If it has to allocate, it adds at least 16,384 more, and at least three times as many as there are, so that
/// a vector that grows for long seldom moves. Room that is never written costs no memory.
///
/// # Errors
/// Out of memory. The values are unchanged.
pub fn make_wide_room<T>(v: &mut Vec<T>, n: usize) -> Result<(), AllocError>
    ensures items { v.new.items ≡ v.old.items }
    ensures len { vec_len v.new ≡ vec_len v.old }
    ensures room { OnOk result (vec_len v.new + n ≤ vec_capacity v.new) }
    ensures kept { vec_capacity v.old ≤ vec_capacity v.new }
{
    let more = v.len().saturating_mul(3).max(WIDE);
    make_room(v, n, more)
}

/// Inserts a value at a place of a vector that has room. What follows the place moves up by one, in one move of memory.
#[inline(always)]
pub fn put_in<T: Copy>(v: &mut Vec<T>, i: usize, x: T)
    requires within { i ≤ vec_len v.old }
    requires room { vec_len v.old < vec_capacity v.old }
    ensures items { v.new.items ≡ insert v.old.items i x }
    ensures len { vec_len v.new ≡ vec_len v.old + 1 }
    ensures capacity { vec_capacity v.old ≤ vec_capacity v.new }
{
    if i == v.len() {
        v.push_reserved(x);
    } else {
        let _ = v.insert(i, x);
    }
}

/// Removes the value at a place. Those after it are copied in a plain loop, which costs less than `Vec::remove` if they are few.
pub fn take_out<T: Copy>(v: &mut Vec<T>, i: usize)
    requires within { i < vec_len v.old }
    ensures items { v.new.items ≡ remove v.old.items i }
    ensures len { vec_len v.new + 1 ≡ vec_len v.old }
    ensures capacity { vec_capacity v.new ≡ vec_capacity v.old }
{
    v.copy_within(i + 1.., i);
    v.pop();
}
