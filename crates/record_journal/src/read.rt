//! Reading records from bytes.

ghost use Rattle.std.specs.Prelude.{◌≡◌, ◌+◌, ◌*◌, ◌<◌, ◌≤◌, ◌∷◌, [], ℕ, length, None, Some, IfOk, IsErrOf, IfSome, MatchOption};
ghost use Rattle.std.specs.Int.{w64, from_be_bytes};
ghost use Rattle.record_journal.specs.Format.{value_of_tag, change_of, changes_of, record_of, reading, Damaged, Whole};
ghost use Rattle.record_journal.specs.Views.{record_lists};

use crate::{CHANGE_BYTES, COUNT_BYTES, Change, RecoverError};
use std::alloc::{AllocError, Global};
use teb_rules::names::{Cell, Table};

// Reads fourteen bytes as a change.
#[tactic(auto, unfolding(crate::specs::Format::value_of_tag))]
fn read_change(bytes: &[u8]) -> Option<Change>
    requires { length bytes.now ≡ 14 }
    ensures { result ≡ change_of bytes.now }
{
    let cell = Cell {
        table: Table(bytes[0]),
        key: u32::from_be_bytes([bytes[1], bytes[2], bytes[3], bytes[4]]),
    };
    let number = number_of(&bytes[6..]);
    let value = value_of(bytes[5], number)?;
    Some(Change { cell, value })
}

fn number_of(bytes: &[u8]) -> u64
    requires { length bytes.now ≡ 8 }
    ensures { result ≡ from_be_bytes w64 bytes.now }
{
    u64::from_be_bytes([
        bytes[0], bytes[1], bytes[2], bytes[3], bytes[4], bytes[5], bytes[6], bytes[7],
    ])
}

#[tactic(auto, unfolding(crate::specs::Format::value_of_tag))]
fn value_of(tag: u8, number: u64) -> Option<Option<i64>>
    ensures { result ≡ value_of_tag tag number }
{
    if tag == 1 {
        Some(Some(number.cast_signed()))
    } else if tag == 0 && number == 0 {
        Some(None)
    } else {
        None
    }
}

// Reads `count` changes from the front of the bytes.
#[tactic(auto, unfolding(crate::specs::Format::changes_of))]
fn read_changes(alloc: Global, count: u32, bytes: &[u8]) -> Result<Option<Vec<Change>>, AllocError>
    ensures changes { IfOk result (λ found. MatchOption found (changes_of count bytes.now ≡ None) (λ v. changes_of count bytes.now ≡ Some v.items)) }
    ensures length { IfOk result (λ found. IfSome found (λ v. 14 * length v.items ≤ length bytes.now)) }
{
    let mut changes = Vec::new(alloc);
    let mut rest = bytes;
    for _ in 0..count {
        if rest.len() < CHANGE_BYTES {
            return Ok(None);
        }
        let (front, after) = rest.split_at(CHANGE_BYTES);
        match read_change(front) {
            None => return Ok(None),
            Some(change) => changes.push(change)?,
        }
        rest = after;
    }
    Ok(Some(changes))
}

/// Returns the record after an open gate byte, if the bytes have one.
///
/// # Errors
/// `AllocError`: out of memory.
#[tactic(auto, unfolding(crate::specs::Format::record_of))]
pub fn read_record(alloc: Global, bytes: &[u8]) -> Result<Option<Vec<Change>>, AllocError>
    ensures record { IfOk result (λ found. MatchOption found (record_of bytes.now ≡ None) (λ v. record_of bytes.now ≡ Some v.items)) }
    ensures length { IfOk result (λ found. IfSome found (λ v. 4 + 14 * length v.items ≤ length bytes.now)) }
{
    if bytes.len() < COUNT_BYTES {
        return Ok(None);
    }
    let (front, rest) = bytes.split_at(COUNT_BYTES);
    let count = u32::from_be_bytes([front[0], front[1], front[2], front[3]]);
    read_changes(alloc, count, rest)
}

// Returns what follows the first gate byte, if it is open.
fn opened(bytes: &[u8]) -> Option<&[u8]>
    ensures behind { IfSome result (λ behind. bytes.now ≡ 1 ∷ behind.now) }
    ensures closed { result ≡ None → (at : ℕ) → reading 0 at bytes.now ≡ Whole [] }
{
    if bytes.is_empty() {
        return None;
    }
    let (gate, behind) = bytes.split_at(1);
    if gate[0] != 1 {
        return None;
    }
    Some(behind)
}

/// Returns all records up to the first closed gate byte. It costs time in the bytes of these records.
///
/// # Errors
/// `Damaged` if no record follows an open gate byte: it runs past the end, or one of its changes has another tag, or no row and a
/// value that is not 0. `OutOfMemory`: out of memory.
pub fn read_records(alloc: Global, bytes: &[u8]) -> Result<Vec<Vec<Change>>, RecoverError>
    ensures whole { IfOk result (λ records. reading 0 0 bytes.now ≡ Whole (record_lists records.items)) }
    ensures damaged { (at : ℕ) → IsErrOf result (RecoverError.Damaged at) → reading 0 0 bytes.now ≡ Damaged at }
    ensures no_fault { IsErrOf result RecoverError.DiskFault → ⊥ }
    ensures few { IfOk result (λ records. 5 * length records.items ≤ length bytes.now) }
{
    let mut records = Vec::new(alloc);
    let mut rest = bytes;
    let mut at: u64 = 0;
    while let Some(behind) = opened(rest) {
        match read_record(alloc, behind)? {
            None => return Err(RecoverError::Damaged { at }),
            Some(record) => {
                let size = COUNT_BYTES + CHANGE_BYTES * record.len();
                let (_, after) = behind.split_at(size);
                rest = after;
                at += 1 + size as u64;
                records.push(record)?;
            }
        }
    }
    Ok(records)
}
