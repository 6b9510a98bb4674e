//! Where everything is on a disk.

ghost use Rattle.std.specs.Prelude.{◌≡◌, ◌+◌, ◌*◌, ◌<◌, ◌≤◌, ◌^◌, length, IfOk};
ghost use Rattle.epoch_journal.specs.Layout.{front, half_at, half_size, header, other_half, selected_by};

use crate::current::Half;
use std::alloc::{AllocError, Global};

/// The byte before a record.
pub(crate) const COMMIT_MARK: u8 = 1;

/// The first bytes of the front, "TEB1".
pub(crate) const SIGNATURE: [u8; 4] = [84, 69, 66, 49];

/// The place at which the halves begin, after the byte that tells which one is current and the front.
pub(crate) const FRONT_END: u64 = 13;

/// How many bytes a half has at most.
const MOST_HALF: u64 = 4_294_967_295;

/// The number of bytes of a label's length.
pub(crate) const LENGTH_BYTES: usize = 4;

impl Half {
    /// Returns the other half.
    pub(crate) fn other(self) -> Half
        ensures { result ≡ other_half self }
    {
        match self {
            Half::First => Half::Second,
            Half::Second => Half::First,
        }
    }

    /// Returns the half that is current if the byte at place 0 is this one.
    pub(crate) fn of_selector(byte: u8) -> Half
        ensures { result ≡ selected_by byte }
    {
        if byte == 1 { Half::First } else { Half::Second }
    }

    /// Returns a byte that makes this half current at place 0.
    pub(crate) fn selector(self) -> u8
        ensures { selected_by result ≡ self }
    {
        match self {
            Half::First => 1,
            Half::Second => 0,
        }
    }
}

/// Returns how many bytes each half of a disk has.
#[tactic(auto, unfolding(crate::specs::Layout::half_size))]
pub(crate) fn half_bytes(capacity: u64) -> u64
    ensures value { result ≡ half_size capacity }
    ensures few { result < 2 ^ 32 }
    ensures both { 0 < result → 13 + 2 * result ≤ capacity }
{
    (capacity.saturating_sub(FRONT_END) / 2).min(MOST_HALF)
}

/// Returns the place at which a half begins.
pub(crate) fn base(capacity: u64, half: Half) -> u64
    ensures value { result ≡ half_at capacity half }
    ensures small { result < 2 ^ 33 }
{
    match half {
        Half::First => FRONT_END,
        Half::Second => FRONT_END + half_bytes(capacity),
    }
}

/// Returns the bytes from place 1 to the halves: the signature, and the capacity.
#[tactic(auto, unfolding(crate::specs::Layout::front))]
pub(crate) fn front_of(alloc: Global, capacity: u64) -> Result<Vec<u8>, AllocError>
    ensures front { IfOk result (λ bytes. bytes.items ≡ front capacity) }
    ensures length { IfOk result (λ bytes. length bytes.items ≡ 12) }
{
    let mut bytes = Vec::new(alloc);
    bytes.extend_from_slice(&SIGNATURE)?;
    bytes.extend_from_slice(&capacity.to_be_bytes())?;
    Ok(bytes)
}

/// Returns the first bytes of a half: the length of the label, and the label.
#[tactic(auto, unfolding(crate::specs::Layout::header))]
pub(crate) fn header_of(alloc: Global, label: &[u8]) -> Result<Vec<u8>, AllocError>
    requires { length label.now < 2 ^ 32 }
    ensures header { IfOk result (λ bytes. bytes.items ≡ header label.now) }
    ensures length { IfOk result (λ bytes. length bytes.items ≡ 4 + length label.now) }
{
    let mut bytes = Vec::new(alloc);
    bytes.extend_from_slice(&(label.len() as u32).to_be_bytes())?;
    bytes.extend_from_slice(label)?;
    Ok(bytes)
}
