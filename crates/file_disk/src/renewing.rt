//! A file forgets its past calls.

use crate::FileDisk;
use crash_disk::Renew;
use std::alloc::Global;

impl Renew for FileDisk {
    fn renew(self, alloc: Global) -> Result<Self, Self> {
        let FileDisk {
            file,
            mirror,
            faults,
        } = self;
        match mirror.renew(alloc) {
            Ok(mirror) => Ok(FileDisk {
                file,
                mirror,
                faults,
            }),
            Err(mirror) => Err(FileDisk {
                file,
                mirror,
                faults,
            }),
        }
    }
}
