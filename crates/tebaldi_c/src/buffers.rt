//! A caller's buffers.

ghost use Rattle.std.specs.Prelude.{◌≡◌, length};
ghost use Rattle.tebaldi_c.specs.Buffers.{laid_over};

/// Copies as much of a list as fits into a buffer, and returns the length of the list.
pub fn lay_over<T: Copy + Drop>(out: &mut [T], list: &[T]) -> usize
    ensures len { result ≡ length list.now }
    ensures out { out.new ≡ laid_over list.now out.old }
{
    let n = out.len().min(list.len());
    out[..n].copy_from_slice(&list[..n]);
    list.len()
}
