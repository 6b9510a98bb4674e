//! The hands of workers.

ghost use Rattle.std.specs.Prelude.{◌≡◌, [], All, IfOk, vec_len};

use crate::task::Task;
use std::alloc::{AllocError, Global};
use version_chain::Chains;

/// Returns this number of hands, each without a task.
///
/// # Errors
/// `AllocError`: out of memory.
pub fn empty_hands<C: Chains>(
    alloc: Global,
    workers: usize,
) -> Result<Vec<Vec<Task<C>>>, AllocError>
    ensures len { IfOk result (λ v. vec_len v ≡ workers) }
    ensures empty { IfOk result (λ v. All (λ hand. hand.items ≡ []) v.items) }
{
    let mut hands = Vec::with_capacity(alloc, workers)?;
    for _ in 0..workers {
        hands.push_reserved(Vec::new(alloc));
    }
    Ok(hands)
}
