//! Memory for calls that are to come.

ghost use Rattle.std.specs.Prelude.{◌≡◌, ◌≤◌, max, vec_capacity, IfOk};

use crate::Call;
use std::alloc::{AllocError, Global};

/// Memory for calls of a disk that are to come. A disk takes it by `adopt`.
#[derive(Drop)]
pub struct Memory {
    pub(crate) image: Vec<u8>,
    pub(crate) calls: Vec<Call>,
    pub(crate) bytes: Vec<u8>,
}

/// Returns an empty vector with room for `wanted` items, and for twice `has` at least. If `has` is enough, it returns one without room.
///
/// # Errors
/// `AllocError`: out of memory.
pub(crate) fn more_than<T>(alloc: Global, has: usize, wanted: usize) -> Result<Vec<T>, AllocError>
    ensures { IfOk result (λ more. wanted ≤ max has (vec_capacity more)) }
{
    if wanted <= has {
        return Ok(Vec::new(alloc));
    }
    Vec::with_capacity(alloc, wanted.max(has.saturating_mul(2)))
}

/// Moves items into the memory of another vector, if that has room for more of them. What that vector had is dropped.
pub(crate) fn widen<T: Drop>(items: &mut Vec<T>, memory: Vec<T>)
    ensures items { items.new.items ≡ items.old.items }
    ensures capacity { max (vec_capacity items.old) (vec_capacity memory) ≤ vec_capacity items.new }
{
    if memory.capacity() > items.capacity() {
        let mut wide = memory;
        wide.clear();
        let Ok(()) = wide.append(items) else {
            unreachable!();
        };
        *items = wide;
    }
}
