//! The bytes of a checkpoint.

ghost use Rattle.std.specs.Prelude.{◌≡◌, ◌+◌, ◌*◌, ◌<◌, ◌≤◌, ◌++◌, ◌∷◌, ◌^◌, length, true, false, IfOk, OnOk, IsErrOf};
ghost use Rattle.epoch_journal.specs.Layout.{half_size, layout, header};
ghost use Rattle.epoch_journal.specs.Halves.{IsPiece};
ghost use Rattle.epoch_journal.specs.Telling.{checkpoint_of};
ghost use Rattle.epoch_journal.specs.declared.error.CheckpointError.TheVariants as errors;

use crate::error::CheckpointError;
use crate::layout::{COMMIT_MARK, LENGTH_BYTES, half_bytes, header_of};
use record_journal::{CHANGE_BYTES, Change, FRAME_BYTES, encode};
use std::alloc::{AllocError, Global};
use teb_rules::names::Cell;

/// Returns the bytes of a half that has a checkpoint of the rows alone.
///
/// # Errors
/// `Full` if they are more than a half has; `OutOfMemory`.
pub(crate) fn piece_of(
    alloc: Global,
    capacity: u64,
    label: &[u8],
    rows: &[(Cell, i64)],
) -> Result<Vec<u8>, CheckpointError>
    requires { length label.now < 2 ^ 32 }
    ensures piece { IfOk result (λ piece. IsPiece (layout capacity label.now) (checkpoint_of rows.now) piece.items) }
    ensures length { IfOk result (λ piece. length piece.items ≡ 10 + length label.now + 14 * length rows.now) }
    ensures fits { OnOk result (10 + length label.now + 14 * length rows.now ≤ half_size capacity) }
    ensures full { IsErrOf result errors.Full → half_size capacity < 10 + length label.now + 14 * length rows.now }
    ensures no_fault { IsErrOf result errors.DiskFault → ⊥ }
{
    if !fits_half(capacity, label.len(), rows.len()) {
        return Err(CheckpointError::Full);
    }
    let changes = changes_of(alloc, rows)?;
    let body = encode(alloc, &changes)?;
    let piece = labelled(alloc, label, &body)?;
    Ok(piece)
}

/// Returns true if the checkpoint of `rows` rows fits a half under a label of that length.
fn fits_half(capacity: u64, label: usize, rows: usize) -> bool
    requires { label < 2 ^ 32 }
    ensures fits { result ≡ true → 10 + label + 14 * rows ≤ half_size capacity }
    ensures full { result ≡ false → half_size capacity < 10 + label + 14 * rows }
    ensures few { result ≡ true → 14 * rows < 2 ^ 32 }
{
    let half = half_bytes(capacity);
    let frame = (LENGTH_BYTES + label + FRAME_BYTES) as u64;
    frame <= half && rows as u64 <= (half - frame) / CHANGE_BYTES as u64
}

/// Returns the rows as changes, the last one first.
fn changes_of(alloc: Global, rows: &[(Cell, i64)]) -> Result<Vec<Change>, AllocError>
    ensures changes { IfOk result (λ changes. changes.items ≡ checkpoint_of rows.now) }
    ensures length { IfOk result (λ changes. length changes.items ≡ length rows.now) }
{
    let mut changes = Vec::new(alloc);
    let mut i = rows.len();
    while i > 0 {
        i -= 1;
        let (cell, value) = rows[i];
        changes.push(Change {
            cell,
            value: Some(value),
        })?;
    }
    Ok(changes)
}

/// Returns a half's header, a commit mark, and a body.
fn labelled(alloc: Global, label: &[u8], body: &[u8]) -> Result<Vec<u8>, AllocError>
    requires { length label.now < 2 ^ 32 }
    ensures piece { IfOk result (λ piece. piece.items ≡ header label.now ++ (1 ∷ body.now)) }
    ensures length { IfOk result (λ piece. length piece.items ≡ 5 + length label.now + length body.now) }
{
    let mut piece = header_of(alloc, label)?;
    piece.push(COMMIT_MARK)?;
    piece.extend_from_slice(body)?;
    Ok(piece)
}
