//! How a journal has its disk forget the past calls.

ghost use Rattle.std.specs.Prelude.{◌≡◌, List, ℕ, IfOk, IfErr};
ghost use Rattle.teb_rules.specs.Replay.{Values};
ghost use Rattle.record_journal.specs.Format.{Record};
ghost use Rattle.epoch_journal.specs.Kept.{Keeps};

use crate::journal::EpochJournal;
use crash_disk::Renew;
use std::alloc::Global;

impl<D: Renew> EpochJournal<D> {
    /// Returns the same journal on a renewed disk, which has freed the memory that its past calls took. It makes no call of the device, and is
    /// meant to follow a checkpoint.
    ///
    /// # Errors
    /// The journal, unchanged: it is stopped, or out of memory.
    pub fn renew(self, alloc: Global) -> Result<EpochJournal<D>, EpochJournal<D>>
        ensures kept { (start : Values) (all : List Record) (least : ℕ) → Keeps D.seen D.may_leave start all least self → IfOk result (λ j. Keeps D.seen D.may_leave start all least j) }
        ensures same { IfOk result (λ j. (j.layout ≡ self.layout) × (j.half ≡ self.half) × (j.end ≡ self.end) × (j.acknowledged ≡ self.acknowledged) × (j.stopped ≡ self.stopped)) }
        ensures seen { IfOk result (λ j. D.seen j.disk ≡ D.seen self.disk) }
        ensures made { IfOk result (λ j. (D.tally j.disk).made ≡ (D.tally self.disk).made) }
        ensures stop { IfOk result (λ j. (D.tally j.disk).promise.stop ≡ (D.tally self.disk).promise.stop) }
        ensures faults { IfOk result (λ j. D.faults j.disk ≡ D.faults self.disk) }
        ensures refusals { IfOk result (λ j. D.refusals j.disk ≡ D.refusals self.disk) }
        ensures back { IfErr result (λ j. j ≡ self) }
    {
        if self.stopped {
            return Err(self);
        }
        let EpochJournal {
            disk,
            capacity,
            label,
            place,
            stopped,
        } = self;
        match disk.renew(alloc) {
            Ok(disk) => Ok(EpochJournal {
                disk,
                capacity,
                label,
                place,
                stopped,
            }),
            Err(disk) => Err(EpochJournal {
                disk,
                capacity,
                label,
                place,
                stopped,
            }),
        }
    }
}
