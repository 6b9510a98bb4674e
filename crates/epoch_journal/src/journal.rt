//! A journal in epochs.

ghost use Rattle.std.specs.Prelude.{◌≡◌, ◌<◌, ◌≤◌};

use crate::current::Half;
use crash_disk::Disk;
use std::marker::Model;

/// Records on a disk in epochs. An epoch begins with a checkpoint, a record of all rows, in the half of the disk that was not current,
/// and one byte then makes that half current.
#[derive(Drop)]
pub struct EpochJournal<D: Disk> {
    pub(crate) disk: D,
    pub(crate) capacity: u64,
    pub(crate) label: Vec<u8>,
    pub(crate) place: Place,
    pub(crate) stopped: bool,
}

/// How far an epoch has come.
#[derive(Clone, Copy, Debug, PartialEq, Eq)]
pub(crate) struct Place {
    /// The current half.
    pub half: Half,
    /// The place of the end mark in that half.
    pub end: u64,
    /// How many records of this epoch are acknowledged.
    pub acknowledged: u64,
}

impl<D: Disk> Model for EpochJournal<D> {
    ghost use Rattle.std.specs.Prelude.{◌≡◌, ◌<◌, ◌≤◌, ◌^◌, length, false};
    ghost use Rattle.crash_disk.specs.Disk.{Only};
    ghost use Rattle.epoch_journal.specs.Layout.{half_size, layout};
    ghost use Rattle.epoch_journal.specs.State.{JournalState};

    ghost Value = { JournalState D };

    ghost view = { λ j. record {
      disk = j.disk;
      layout = layout j.capacity j.label.items;
      half = j.place.half;
      end = j.place.end;
      acknowledged = j.place.acknowledged;
      stopped = j.stopped;
    } };

    ghost invariant = { λ j. record {
      capacity : j.capacity ≡ D.capacity j.disk;
      label : length j.label.items < 2 ^ 32;
      within : j.place.end < half_size j.capacity;
      counted : j.place.acknowledged ≤ j.place.end;
      safe : j.stopped ≡ false → Only (D.seen j.disk) (D.may_leave j.disk);
    } };
}
