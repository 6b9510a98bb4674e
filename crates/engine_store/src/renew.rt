//! How a store forgets the calls of its disk.

ghost use Rattle.std.specs.Prelude.{◌≡◌, List, ℕ, IfOk, IfErr};
ghost use Rattle.engine_store.specs.Telling.{TellsCommits};

use crate::store::EngineStore;
use crash_disk::Renew;
use std::alloc::Global;
use version_chain::Chains;

impl<C: Chains, D: Renew> EngineStore<C, D> {
    /// Returns the same store on a renewed disk, which has freed the memory that its past calls took. It makes no call of the device. It
    /// costs one pass over the bytes of the disk.
    ///
    /// # Errors
    /// The store, unchanged: it is stopped, or out of memory.
    pub fn renew(self, alloc: Global) -> Result<EngineStore<C, D>, EngineStore<C, D>>
        ensures engine { IfOk result (λ s. s.engine ≡ self.engine) }
        ensures same { IfOk result (λ s. (s.journal.layout ≡ self.journal.layout) × (s.journal.half ≡ self.journal.half) × (s.journal.end ≡ self.journal.end)
            × (s.journal.acknowledged ≡ self.journal.acknowledged) × (s.journal.stopped ≡ self.journal.stopped)) }
        ensures seen { IfOk result (λ s. D.seen s.journal.disk ≡ D.seen self.journal.disk) }
        ensures made { IfOk result (λ s. (D.tally s.journal.disk).made ≡ (D.tally self.journal.disk).made) }
        ensures stop { IfOk result (λ s. (D.tally s.journal.disk).promise.stop ≡ (D.tally self.journal.disk).promise.stop) }
        ensures faults { IfOk result (λ s. D.faults s.journal.disk ≡ D.faults self.journal.disk) }
        ensures refusals { IfOk result (λ s. D.refusals s.journal.disk ≡ D.refusals self.journal.disk) }
        // A crash after it.
        ensures images { IfOk result (λ s. (image : List ℕ) → D.may_leave s.journal.disk image
            → TellsCommits s.journal.layout s.engine.store s.engine.events s.journal.acknowledged image) }
        ensures back { IfErr result (λ s. s ≡ self) }
    {
        let EngineStore { store } = self;
        match store.renew(alloc) {
            Ok(store) => Ok(EngineStore { store }),
            Err(store) => Err(EngineStore { store }),
        }
    }
}
