//! What a disk in memory was asked.

ghost use Rattle.std.specs.Prelude.{◌≡◌, ◌≤◌, length, MatchOption, Some, slice_get};
ghost use Rattle.crash_disk.specs.Log.{byte_count, step_of};

use crate::{Call, MemDisk};

impl MemDisk {
    /// Returns the number of writes and syncs that have succeeded, since it was made or renewed. A disk that is made of bytes, or renewed, begins
    /// with the write of its bytes and a sync.
    pub fn call_count(&self) -> usize
        ensures { result ≡ length self.now.log.steps }
    {
        self.log.call_count()
    }

    /// Returns the number of bytes of those writes in all.
    pub fn byte_count(&self) -> usize
        ensures { result ≡ byte_count self.now.log.steps }
    {
        self.log.byte_count()
    }

    /// Returns the write or sync at a place among them, the first one at 0, with the bytes that it wrote; a sync has none. `None` if there are no
    /// more than that. It costs a look at each later one.
    pub fn call(&self, place: usize) -> Option<(Call, &[u8])>
        ensures { MatchOption result (length self.now.log.steps ≤ place) (λ r. slice_get self.now.log.steps place ≡ Some (step_of r.0 r.1.now)) }
    {
        self.log.call(place)
    }
}
