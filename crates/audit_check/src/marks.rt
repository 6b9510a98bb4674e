//! Marks and lists of numbers, by number.

ghost use Rattle.std.specs.Prelude.{◌≡◌, ℕ, ◌==◌, ◌||◌, ◌++◌, ◌∷◌, [], OnOk, if◌then◌else◌};
ghost use Rattle.audit_check.specs.Marks.{is_marked, list_at};

use std::alloc::{AllocError, Global};

/// Marks a number.
///
/// # Errors
/// `AllocError`: out of memory.
pub fn mark(marks: &mut Vec<bool>, number: u32) -> Result<(), AllocError>
    ensures { OnOk result ((n : ℕ) → is_marked marks.new.items n ≡ (number == n || is_marked marks.old.items n)) }
{
    let at = number as usize;
    if at >= marks.len() {
        marks.resize(at + 1, false)?;
    }
    marks[at] = true;
    Ok(())
}

/// Returns whether a number is marked.
pub fn marked(marks: &[bool], number: u32) -> bool
    ensures { result ≡ is_marked marks.now number }
{
    let at = number as usize;
    at < marks.len() && marks[at]
}

/// Appends a value to the list of a number.
///
/// # Errors
/// `AllocError`: out of memory.
pub fn keep(
    alloc: Global,
    lists: &mut Vec<Vec<u32>>,
    number: u32,
    kept: u32,
) -> Result<(), AllocError>
    ensures { OnOk result ((n : ℕ) → list_at lists.new.items n ≡ (if number == n then list_at lists.old.items n ++ kept ∷ [] else list_at lists.old.items n)) }
{
    let at = number as usize;
    'grow: while lists.len() <= at {
        lists.push(Vec::new(alloc))?;
    }
    lists[at].push(kept)?;
    Ok(())
}

/// Returns the list of a number, empty if nothing was kept.
pub fn list_at(lists: &[Vec<u32>], number: u32) -> &[u32]
    ensures { result.now ≡ list_at lists.now number }
{
    let at = number as usize;
    if at < lists.len() {
        lists[at].as_slice()
    } else {
        &[]
    }
}
