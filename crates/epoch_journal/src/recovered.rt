//! A disk that was read.

ghost use Rattle.std.specs.Prelude.{◌≡◌};
ghost use Rattle.epoch_journal.specs.Layout.{half_at};
ghost use Rattle.epoch_journal.specs.Read.{half_found_at};

use crate::current::Current;
use crate::error::OpenError;
use crate::layout::base;
use crash_disk::Disk;
use std::marker::Model;
use teb_rules::names::Cell;

/// A disk whose rows were read, and to which nothing was written yet.
#[derive(Drop)]
pub struct RecoveredDisk<D: Disk> {
    pub(crate) disk: D,
    pub(crate) capacity: u64,
    pub(crate) label: Vec<u8>,
    pub(crate) current: Current,
    pub(crate) rows: Vec<(Cell, i64)>,
}

impl<D: Disk> Model for RecoveredDisk<D> {
    ghost use Rattle.std.specs.Prelude.{◌≡◌, ◌+◌, ◌<◌, ◌≤◌, ◌^◌, length};
    ghost use Rattle.teb_rules.specs.names.Rows.{IsAscending};
    ghost use Rattle.epoch_journal.specs.Layout.{half_size, layout};
    ghost use Rattle.epoch_journal.specs.State.{RecoveredState};

    ghost Value = { RecoveredState D };

    ghost view = { λ d. record {
      disk = d.disk;
      layout = layout d.capacity d.label.items;
      current = d.current;
      rows = d.rows.items;
    } };

    ghost invariant = { λ d. record {
      capacity : d.capacity ≡ D.capacity d.disk;
      label : length d.label.items < 2 ^ 32;
      ascending : IsAscending d.rows.items;
    } };
}

impl<D: Disk> RecoveredDisk<D> {
    /// Returns the rows, in ascending order of their cells: those after all records that the disk has, or the starting rows if it has none.
    pub fn rows(&self) -> &[(Cell, i64)]
        ensures { result.now ≡ self.now.rows }
    {
        &self.rows
    }

    /// Returns the place at which the half begins from which the rows were read; 0 if the disk ends before its halves.
    pub fn half_at(&self) -> u64
        ensures { result ≡ half_found_at self.now.layout.capacity self.now.current }
    {
        match self.current {
            Current::Blank => 0,
            Current::Half(half) => base(self.capacity, half),
        }
    }

    /// Returns the disk, as it is.
    pub fn into_disk(self) -> D
        ensures { result ≡ self.disk }
    {
        self.disk
    }
}

/// Why there is no journal on a disk, which is handed back.
#[derive(Debug, Drop)]
pub struct NotOpened<D> {
    pub disk: D,
    pub why: OpenError,
}
