//! Which calls fail, and how many did.

ghost use Rattle.std.specs.Prelude.{◌≡◌, ◌≤◌, OnOk, OnErr, IsOk, IsErr};
ghost use Rattle.teb_io.specs.Faults.{HasCause, Rose, next};
ghost use Rattle.crash_disk.specs.Calls.{IsBefore, IsFrom};

use teb_io::Failed;

/// How many calls were made, from which of them on they fail, how many faults there were, and how many of these were refusals of memory. No count
/// goes past 2^64 - 1.
#[derive(Clone, Copy, Debug, PartialEq, Eq)]
pub struct Counter {
    /// How many calls were made.
    pub made: u64,
    /// The first call that fails, counted from 1; 0 names no call.
    pub stop: u32,
    /// How many faults there were.
    pub faults: u64,
    /// How many of them are refusals of memory.
    pub refusals: u64,
}

impl Counter {
    /// No call was made. The calls from `stop` on fail; 0 names no call.
    pub fn from_stop(stop: u32) -> Counter
        ensures { result ≡ record { made = 0; stop = stop; faults = 0; refusals = 0 } }
    {
        Counter {
            made: 0,
            stop,
            faults: 0,
            refusals: 0,
        }
    }

    /// Counts one call more.
    ///
    /// # Errors
    /// `Failed` where the call is the one that `stop` names or a later one. It is counted as a fault then.
    pub fn call(&mut self) -> Result<(), Failed>
        ensures made { self.new.made ≡ next self.old.made }
        ensures kept { self.old.made ≤ self.new.made }
        ensures stop { self.new.stop ≡ self.old.stop }
        ensures sure { IsBefore self.old.stop (next self.old.made) → IsOk result }
        ensures stopped { IsFrom self.old.stop (next self.old.made) → IsErr result }
        ensures cause { HasCause self.old.faults self.new.faults result }
        ensures no_fault { OnOk result (self.new.faults ≡ self.old.faults) }
        ensures fault { OnErr result (self.new.faults ≡ next self.old.faults) }
        ensures no_refusal { self.new.refusals ≡ self.old.refusals }
    {
        self.made = self.made.saturating_add(1);
        if self.stop != 0 && self.made >= u64::from(self.stop) {
            self.fault();
            return Err(Failed);
        }
        Ok(())
    }

    /// Counts one fault more. The calls stay as they were.
    fn fault(&mut self)
        ensures one { self.new.faults ≡ next self.old.faults }
        ensures rose { Rose self.old.faults self.new.faults }
        ensures later { self.old.faults ≤ self.new.faults }
        ensures made { self.new.made ≡ self.old.made }
        ensures stop { self.new.stop ≡ self.old.stop }
        ensures no_refusal { self.new.refusals ≡ self.old.refusals }
    {
        self.faults = self.faults.saturating_add(1);
    }

    /// Counts one fault more, a refusal of memory. The calls stay as they were.
    pub fn refuse(&mut self)
        ensures one { self.new.faults ≡ next self.old.faults }
        ensures one_refusal { self.new.refusals ≡ next self.old.refusals }
        ensures rose { Rose self.old.faults self.new.faults }
        ensures later { self.old.faults ≤ self.new.faults }
        ensures refused { Rose self.old.refusals self.new.refusals }
        ensures made { self.new.made ≡ self.old.made }
        ensures stop { self.new.stop ≡ self.old.stop }
    {
        self.fault();
        self.refusals = self.refusals.saturating_add(1);
    }
}
