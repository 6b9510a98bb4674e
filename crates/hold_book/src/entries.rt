//! What an access enters, and what a release removes.

ghost use Rattle.std.specs.Prelude.{◌≡◌, ◌≤◌, ◌+◌, cond, length, Some};
ghost use Rattle.teb_rules.specs.declared.names.Cell.{Cell};
ghost use Rattle.teb_rules.specs.names.Cells.{same_cell};
ghost use Rattle.hold_book.specs.Books.{IsApart, shown_in, accessed, released};
ghost use Rattle.hold_book.specs.Slots.{only_hold as spec_only_hold};

use crate::Hold;
use crate::filed::{join_in, put_in, take_out};
use crate::slots::{Alone, clear, only_hold, take, take_free};
use sorted_multimap::Multimap;
use teb_rules::names::{Cell, Txn};

/// Notes that a transaction has accessed a cell, and whether it put it. A cell that no transaction holds goes to its slot, if that is free.
#[inline(always)]
pub(crate) fn access_in(
    slots: &mut [Option<Alone>],
    others: &mut Multimap<Cell, Hold>,
    cell: Cell,
    t: Txn,
    wrote: bool,
)
    requires made { 1024 ≤ length slots.old }
    requires apart { IsApart slots.old others.old }
    requires room { 2 ≤ others.old.spare }
    ensures apart { IsApart slots.new others.new }
    ensures holds { (x : Cell) → shown_in slots.new others.new x ≡ cond (same_cell cell x) (accessed t wrote (shown_in slots.old others.old x)) (shown_in slots.old others.old x) }
    ensures len { length slots.new ≡ length slots.old }
    ensures spare { others.old.spare ≤ others.new.spare + 2 }
{
    if join_in(others, cell, t, wrote) || take_free(slots, cell, Hold { txn: t, wrote }) {
        return;
    }
    access_taken(slots, others, cell, t, wrote);
}

/// Does the same for a cell of which no hold is filed, and which is in its slot or whose slot another cell has.
#[inline(never)]
fn access_taken(
    slots: &mut [Option<Alone>],
    others: &mut Multimap<Cell, Hold>,
    cell: Cell,
    t: Txn,
    wrote: bool,
)
    requires made { 1024 ≤ length slots.old }
    requires apart { IsApart slots.old others.old }
    requires room { 2 ≤ others.old.spare }
    ensures apart { IsApart slots.new others.new }
    ensures holds { (x : Cell) → shown_in slots.new others.new x ≡ cond (same_cell cell x) (accessed t wrote (shown_in slots.old others.old x)) (shown_in slots.old others.old x) }
    ensures len { length slots.new ≡ length slots.old }
    ensures spare { others.old.spare ≤ others.new.spare + 2 }
{
    match only_hold(slots, cell) {
        Some(hold) => {
            if hold.txn == t {
                let wrote = wrote || hold.wrote;
                take(slots, cell, Hold { txn: t, wrote });
            } else {
                share(slots, others, cell, hold, t, wrote);
            }
        }
        None => put_in(others, cell, t, wrote),
    }
}

/// Notes an access of a cell that is in its slot, with the hold of another transaction.
#[inline(never)]
fn share(
    slots: &mut [Option<Alone>],
    others: &mut Multimap<Cell, Hold>,
    cell: Cell,
    first: Hold,
    t: Txn,
    wrote: bool,
)
    requires first { spec_only_hold slots.old cell ≡ Some first }
    requires apart { IsApart slots.old others.old }
    requires room { 2 ≤ others.old.spare }
    ensures apart { IsApart slots.new others.new }
    ensures holds { (x : Cell) → shown_in slots.new others.new x ≡ cond (same_cell cell x) (accessed t wrote (shown_in slots.old others.old x)) (shown_in slots.old others.old x) }
    ensures len { length slots.new ≡ length slots.old }
    ensures spare { others.old.spare ≤ others.new.spare + 2 }
{
    clear(slots, cell);
    put_in(others, cell, first.txn, first.wrote);
    put_in(others, cell, t, wrote);
}

/// Releases a cell that a transaction holds. The room stays.
#[inline(always)]
pub(crate) fn release_in(
    slots: &mut [Option<Alone>],
    others: &mut Multimap<Cell, Hold>,
    cell: Cell,
    t: Txn,
)
    requires { IsApart slots.old others.old }
    ensures apart { IsApart slots.new others.new }
    ensures holds { (x : Cell) → shown_in slots.new others.new x ≡ cond (same_cell cell x) (released t.0 (shown_in slots.old others.old x)) (shown_in slots.old others.old x) }
    ensures len { length slots.new ≡ length slots.old }
    ensures spare { others.new.spare ≡ others.old.spare }
{
    match only_hold(slots, cell) {
        Some(only) => {
            if only.txn == t {
                clear(slots, cell);
            }
        }
        None => take_out(others, cell, t),
    }
}
