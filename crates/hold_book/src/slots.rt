//! Slots, for cells that only one transaction holds.

ghost use Rattle.std.specs.Prelude.{◌≡◌, ◌<◌, ◌≤◌, [], cond, length, Some, None, IsTrue, IsFalse, OnOk};
ghost use Rattle.std.specs.Option.{is_some, is_none};
ghost use Rattle.teb_rules.specs.declared.names.Cell.{Cell};
ghost use Rattle.teb_rules.specs.names.Cells.{same_cell};
ghost use Rattle.hold_book.specs.Slots.{slot_of as spec_slot_of, slot_at, is_open, only_hold as spec_only_hold, only_or};

use crate::Hold;
use std::alloc::AllocError;
use teb_rules::names::Cell;

/// How many slots there are.
const SLOTS: usize = 1024;

/// A cell that only one transaction holds, with the hold.
#[derive(Clone, Copy)]
pub(crate) struct Alone {
    cell: Cell,
    hold: Hold,
}

/// Returns the number of the slot that a cell may have.
#[inline(always)]
fn slot_of(cell: Cell) -> usize
    ensures at { result ≡ spec_slot_of cell }
    ensures within { result < 1024 }
{
    (cell.key as usize + usize::from(cell.table.0) * 89) % SLOTS
}

/// Makes the slots if there are none.
pub(crate) fn make_slots(slots: &mut Vec<Option<Alone>>) -> Result<(), AllocError>
    ensures made { OnOk result (1024 ≤ length slots.new.items) }
    ensures kept { length slots.old.items ≤ length slots.new.items }
    ensures holds { (x : Cell) → spec_only_hold slots.new.items x ≡ spec_only_hold slots.old.items x }
{
    if slots.len() < SLOTS {
        slots.resize(SLOTS, None)?;
    }
    Ok(())
}

/// Returns the only hold on a cell, if the cell is in its slot.
#[inline(always)]
pub(crate) fn only_hold(slots: &[Option<Alone>], cell: Cell) -> Option<Hold>
    ensures { result ≡ spec_only_hold slots.now cell }
{
    match slots.get(slot_of(cell)) {
        Some(&Some(alone)) if alone.cell == cell => Some(alone.hold),
        _ => None,
    }
}

/// Returns the only hold on a cell as a list, if the cell is in its slot; otherwise an empty list.
#[inline(always)]
pub(crate) fn only_list(slots: &[Option<Alone>], cell: Cell) -> &[Hold]
    ensures { result.now ≡ only_or (spec_only_hold slots.now cell) [] }
{
    match slots.get(slot_of(cell)) {
        Some(Some(alone)) if alone.cell == cell => std::slice::from_ref(&alone.hold),
        _ => &[],
    }
}

/// Puts a cell into its slot, with the only hold on it.
#[inline(always)]
pub(crate) fn take(slots: &mut [Option<Alone>], cell: Cell, hold: Hold)
    requires made { 1024 ≤ length slots.old }
    requires open { IsTrue (is_open cell (slot_at slots.old cell)) }
    ensures holds { (x : Cell) → spec_only_hold slots.new x ≡ cond (same_cell cell x) (Some hold) (spec_only_hold slots.old x) }
    ensures len { length slots.new ≡ length slots.old }
{
    slots[slot_of(cell)] = Some(Alone { cell, hold });
}

/// Puts a cell into its slot, with the only hold on it, if the slot is free. Returns whether it was.
#[inline(always)]
pub(crate) fn take_free(slots: &mut [Option<Alone>], cell: Cell, hold: Hold) -> bool
    requires { 1024 ≤ length slots.old }
    ensures free { result ≡ is_none (slot_at slots.old cell) }
    ensures holds { IsTrue result → (x : Cell) → spec_only_hold slots.new x ≡ cond (same_cell cell x) (Some hold) (spec_only_hold slots.old x) }
    ensures kept { IsFalse result → slots.new ≡ slots.old }
    ensures len { length slots.new ≡ length slots.old }
{
    let slot = slot_of(cell);
    if slots[slot].is_some() {
        return false;
    }
    slots[slot] = Some(Alone { cell, hold });
    true
}

/// Removes a cell from its slot.
#[inline(always)]
pub(crate) fn clear(slots: &mut [Option<Alone>], cell: Cell)
    requires { IsTrue (is_some (spec_only_hold slots.old cell)) }
    ensures holds { (x : Cell) → spec_only_hold slots.new x ≡ cond (same_cell cell x) None (spec_only_hold slots.old x) }
    ensures len { length slots.new ≡ length slots.old }
{
    slots[slot_of(cell)] = None;
}
