//! What a disk in memory remembers of its writes and syncs.

ghost use Rattle.std.specs.Prelude.{◌≡◌, ◌+◌, ◌-◌, ◌<◌, ◌≤◌, ◌++◌, ◌∷◌, [], List, ℕ, length, vec_capacity, OnOk, OnErr, IfOk, IsOk, IsTrue, IsFalse, MatchOption, Some, slice_get};
ghost use Rattle.crash_disk.specs.declared.room.Room.TheVariants.{Reserved, Growing};
ghost use Rattle.crash_disk.specs.Sizes.{reserved_calls, reserved_bytes};
ghost use Rattle.crash_disk.specs.Spare.{raised};
ghost use Rattle.crash_disk.specs.Log.{Step, Wrote, Synced, contents, safe_contents, MayLeave, byte_count, IsOneWriteLess, EndsSynced, step_of, steps, total};

use crate::image::put;
use crate::spare::{more_than, widen};
use crate::{Call, RESERVED_BYTES, RESERVED_CALLS, Room};
use std::alloc::{AllocError, Global};
use std::marker::Model;

/// The writes of a disk, with their bytes, and its syncs. Contracts see its steps, the first one first, how much it may hold, and for how
/// many steps and bytes it surely has memory.
#[derive(Drop)]
pub struct Log {
    calls: Vec<Call>,
    // Those of all writes, one after the other.
    bytes: Vec<u8>,
    room: Room,
    // The number of calls, and of bytes, for which there is memory.
    sure_calls: usize,
    sure_bytes: usize,
}

impl Model for Log {
    ghost use Rattle.std.specs.Prelude.{◌≡◌, ◌≤◌, length, vec_capacity};
    ghost use Rattle.crash_disk.specs.declared.room.Room.TheVariants.{Reserved};
    ghost use Rattle.crash_disk.specs.Sizes.{reserved_calls, reserved_bytes};
    ghost use Rattle.crash_disk.specs.Log.{Logged, steps, total};

    ghost Value = { Logged };

    ghost view = { λ l. record { steps = steps l.calls.items l.bytes.items; room = l.room; sure_calls = l.sure_calls; sure_bytes = l.sure_bytes } };

    ghost invariant = { λ l. record {
      counted : total l.calls.items ≡ length l.bytes.items;
      calls : l.sure_calls ≤ vec_capacity l.calls;
      bytes : l.sure_bytes ≤ vec_capacity l.bytes;
      reserved : l.room ≡ Reserved → (l.sure_calls ≡ reserved_calls) × (l.sure_bytes ≡ reserved_bytes) × (length l.bytes.items ≤ reserved_bytes);
    } };
}

impl Log {
    /// Returns an empty log, for whose calls and bytes memory is reserved.
    ///
    /// # Errors
    /// `AllocError`: out of memory.
    pub fn reserved(alloc: Global) -> Result<Log, AllocError>
        ensures { IfOk result (λ log. log ≡ record { steps = []; room = Reserved; sure_calls = reserved_calls; sure_bytes = reserved_bytes }) }
    {
        Ok(Log {
            calls: Vec::with_capacity(alloc, RESERVED_CALLS)?,
            bytes: Vec::with_capacity(alloc, RESERVED_BYTES)?,
            room: Room::Reserved,
            sure_calls: RESERVED_CALLS,
            sure_bytes: RESERVED_BYTES,
        })
    }

    /// Returns an empty log that grows as memory lasts.
    pub fn growing(alloc: Global) -> Log
        ensures { result ≡ record { steps = []; room = Growing; sure_calls = 0; sure_bytes = 0 } }
    {
        Log {
            calls: Vec::new(alloc),
            bytes: Vec::new(alloc),
            room: Room::Growing,
            sure_calls: 0,
            sure_bytes: 0,
        }
    }

    /// Returns a log of one write, of these bytes at the front, and a sync. It grows as memory lasts.
    ///
    /// # Errors
    /// `AllocError`: out of memory.
    pub fn of(alloc: Global, bytes: &[u8]) -> Result<Log, AllocError>
        ensures { IfOk result (λ log. log ≡ record { steps = Wrote 0 bytes.now ∷ Synced ∷ []; room = Growing; sure_calls = 0; sure_bytes = 0 }) }
    {
        let mut log = Log::growing(alloc);
        log.write(0, bytes)?;
        log.sync()?;
        Ok(log)
    }

    /// Adds a write.
    ///
    /// # Errors
    /// `AllocError`: the log may hold no more, or out of memory. The log is unchanged.
    pub fn write(&mut self, at: u64, bytes: &[u8]) -> Result<(), AllocError>
        ensures added { OnOk result (self.new ≡ record self.old { steps = self.old.steps ++ Wrote at bytes.now ∷ [] }) }
        ensures same { OnErr result (self.new ≡ self.old) }
        ensures within { OnOk result (self.old.room ≡ Reserved → length self.old.steps < reserved_calls) }
        ensures within_bytes { OnOk result (self.old.room ≡ Reserved → byte_count self.old.steps + length bytes.now ≤ reserved_bytes) }
        ensures sure { self.old.room ≡ Reserved → length self.old.steps < reserved_calls → byte_count self.old.steps + length bytes.now ≤ reserved_bytes → IsOk result }
        ensures covered { length self.old.steps < self.old.sure_calls → length bytes.now ≤ self.old.sure_bytes - byte_count self.old.steps → IsOk result }
    {
        let before = self.bytes.len();
        if !self.room.holds(self.calls.len() + 1, before + bytes.len()) {
            return Err(AllocError);
        }
        self.bytes.extend_from_slice(bytes)?;
        let call = Call::Write {
            at,
            len: bytes.len() as u64,
        };
        match self.calls.push(call) {
            Ok(()) => Ok(()),
            Err(_) => {
                self.bytes.truncate(before);
                Err(AllocError)
            }
        }
    }

    /// Adds a sync.
    ///
    /// # Errors
    /// `AllocError`: the log may hold no more, or out of memory. The log is unchanged.
    pub fn sync(&mut self) -> Result<(), AllocError>
        ensures added { OnOk result (self.new ≡ record self.old { steps = self.old.steps ++ Synced ∷ [] }) }
        ensures same { OnErr result (self.new ≡ self.old) }
        ensures within { OnOk result (self.old.room ≡ Reserved → length self.old.steps < reserved_calls) }
        ensures sure { self.old.room ≡ Reserved → length self.old.steps < reserved_calls → IsOk result }
        ensures covered { length self.old.steps < self.old.sure_calls → IsOk result }
    {
        if !self.room.holds(self.calls.len() + 1, 0) {
            return Err(AllocError);
        }
        self.calls.push(Call::Sync)?;
        Ok(())
    }

    /// Returns memory for `calls` more calls, whose writes have `bytes` bytes in all. The log takes it by `adopt`.
    ///
    /// # Errors
    /// `AllocError`: the log may not hold so much, or out of memory.
    pub fn reserve(
        &self,
        alloc: Global,
        calls: usize,
        bytes: usize,
    ) -> Result<(Vec<Call>, Vec<u8>), AllocError>
        ensures calls { IfOk result (λ more. calls ≤ raised self.now.room self.now.sure_calls (vec_capacity more.0) - length self.now.steps) }
        ensures bytes { IfOk result (λ more. bytes ≤ raised self.now.room self.now.sure_bytes (vec_capacity more.1) - byte_count self.now.steps) }
    {
        let calls = self.calls.len().checked_add(calls).ok_or(AllocError)?;
        let bytes = self.bytes.len().checked_add(bytes).ok_or(AllocError)?;
        if !self.room.holds(calls, bytes) {
            return Err(AllocError);
        }
        Ok((
            more_than(alloc, self.sure_calls, calls)?,
            more_than(alloc, self.sure_bytes, bytes)?,
        ))
    }

    /// Takes memory for calls, and for the bytes of writes. A log whose memory is reserved takes none.
    pub fn adopt(&mut self, calls: Vec<Call>, bytes: Vec<u8>)
        ensures { self.new ≡ record self.old {
          sure_calls = raised self.old.room self.old.sure_calls (vec_capacity calls);
          sure_bytes = raised self.old.room self.old.sure_bytes (vec_capacity bytes);
        } }
    {
        if self.room == Room::Growing {
            self.sure_calls = self.sure_calls.max(calls.capacity());
            self.sure_bytes = self.sure_bytes.max(bytes.capacity());
            widen(&mut self.calls, calls);
            widen(&mut self.bytes, bytes);
        }
    }

    /// Drops the writes since the last sync. What was safe at that sync is what a read gives then, and all that a crash leaves.
    pub fn drop_unsynced(&mut self)
        ensures contents { contents self.new.steps ≡ safe_contents self.old.steps }
        ensures only { (c : List ℕ) → MayLeave self.new.steps c → c ≡ safe_contents self.old.steps }
        ensures room { self.new.room ≡ self.old.room }
        ensures fewer { length self.new.steps ≤ length self.old.steps }
        ensures fewer_bytes { byte_count self.new.steps ≤ byte_count self.old.steps }
        ensures shorter { length (contents self.new.steps) ≤ length (contents self.old.steps) }
    {
        while self.drop_write() {}
    }

    /// Drops the last step where it is a write, and answers whether it is one.
    fn drop_write(&mut self) -> bool
        ensures dropped { IsTrue result → IsOneWriteLess self.old.steps self.new.steps }
        ensures room { self.new.room ≡ self.old.room }
        ensures kept { IsFalse result → (self.new ≡ self.old) × EndsSynced self.old.steps }
    {
        match self.calls.last() {
            None => false,
            Some(Call::Sync) => false,
            Some(Call::Write { len, .. }) => {
                let kept = self.bytes.len() - *len as usize;
                self.bytes.truncate(kept);
                let _ = self.calls.pop();
                true
            }
        }
    }

    /// Carries out all writes again, on an empty image with room for the bytes that the disk then has. It costs the bytes of all
    /// writes.
    pub fn replay(&self, image: &mut Vec<u8>)
        requires empty { image.old.items ≡ [] }
        requires room { length (contents self.now.steps) ≤ vec_capacity image.old }
        ensures image { image.new.items ≡ contents self.now.steps }
        ensures capacity { vec_capacity image.old ≤ vec_capacity image.new }
    {
        let mut rest: &[u8] = &self.bytes;
        for call in &self.calls {
            if let Call::Write { at, len } = call {
                let (piece, behind) = rest.split_at(*len as usize);
                let Ok(()) = put(image, *at as usize, piece) else {
                    unreachable!();
                };
                rest = behind;
            }
        }
    }

    /// Returns the number of its calls.
    pub fn call_count(&self) -> usize
        ensures { result ≡ length self.now.steps }
    {
        self.calls.len()
    }

    /// Returns the number of bytes that its writes have in all.
    pub fn byte_count(&self) -> usize
        ensures { result ≡ byte_count self.now.steps }
    {
        self.bytes.len()
    }

    /// Returns the call at a place, with the bytes that it wrote; a sync has none. `None` if there are no more calls than that. It costs a look
    /// at each later call.
    pub fn call(&self, place: usize) -> Option<(Call, &[u8])>
        ensures { MatchOption result (length self.now.steps ≤ place) (λ r. slice_get self.now.steps place ≡ Some (step_of r.0 r.1.now)) }
    {
        if place >= self.calls.len() {
            return None;
        }
        let call = self.calls[place];
        Some((call, bytes_of(call, &self.calls, &self.bytes, place)))
    }
}

/// Returns the bytes of the call at a place, of those of all writes; a sync has none.
fn bytes_of<'a>(call: Call, calls: &[Call], bytes: &'a [u8], place: usize) -> &'a [u8]
    requires is { slice_get calls.now place ≡ Some call }
    requires within { place < length calls.now }
    requires counted { total calls.now ≡ length bytes.now }
    ensures { slice_get (steps calls.now bytes.now) place ≡ Some (step_of call result.now) }
{
    match call {
        Call::Sync => &[],
        Call::Write { len, .. } => {
            let (_, rest) = bytes.split_at(start_of(&calls[place..], bytes.len()));
            let (piece, _) = rest.split_at(len as usize);
            piece
        }
    }
}

/// Returns the place of the first byte of some calls whose bytes end at `end`.
fn start_of(calls: &[Call], end: usize) -> usize
    requires { total calls.now ≤ end }
    ensures { result + total calls.now ≡ end }
{
    let mut start = end;
    for call in calls {
        if let Call::Write { len, .. } = call {
            start -= *len as usize;
        }
    }
    start
}
