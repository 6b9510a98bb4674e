//! Disks that forget their past calls.

ghost use Rattle.std.specs.Prelude.{◌≡◌, IfOk, IfErr};
ghost use Rattle.crash_disk.specs.Disk.{Only};

use crate::{Disk, Log, MemDisk};
use std::alloc::Global;

/// A disk whose memory grows with its calls, and which can forget them.
pub trait Renew: Disk {
    /// Forgets the past calls, and frees the memory that they take: the same bytes, all of them safe. It is no call of the
    /// device: the number of calls, the stop and the counts of faults stay. The clock begins anew. It costs one pass over the bytes.
    ///
    /// # Errors
    /// The disk, unchanged: out of memory.
    fn renew(self, alloc: Global) -> Result<Self, Self>
        requires { Only (Self.seen self) (Self.may_leave self) }
        ensures seen { IfOk result (λ disk. Self.seen disk ≡ Self.seen self) }
        ensures durable { IfOk result (λ disk. Only (Self.seen disk) (Self.may_leave disk)) }
        ensures capacity { IfOk result (λ disk. Self.capacity disk ≡ Self.capacity self) }
        ensures made { IfOk result (λ disk. (Self.tally disk).made ≡ (Self.tally self).made) }
        ensures stop { IfOk result (λ disk. (Self.tally disk).promise.stop ≡ (Self.tally self).promise.stop) }
        ensures faults { IfOk result (λ disk. Self.faults disk ≡ Self.faults self) }
        ensures refusals { IfOk result (λ disk. Self.refusals disk ≡ Self.refusals self) }
        ensures back { IfErr result (λ disk. disk ≡ self) };
}

impl Renew for MemDisk {
    fn renew(self, alloc: Global) -> Result<Self, Self> {
        match Log::of(alloc, &self.image) {
            Ok(log) => {
                let MemDisk {
                    image,
                    capacity,
                    log: _,
                    counter,
                } = self;
                Ok(MemDisk {
                    image,
                    capacity,
                    log,
                    counter,
                })
            }
            Err(_) => Err(self),
        }
    }
}
