//! Records that wait to be added together.

ghost use Rattle.std.specs.Prelude.{◌≡◌, ◌+◌, ◌≤◌, ◌++◌, ◌∷◌, [], length, vec_capacity, IsTrue, ◌↔◌, OnOk};
ghost use Rattle.record_journal.specs.Format.{Record};
ghost use Rattle.record_journal.specs.Journal.{IsBody};
ghost use Rattle.epoch_journal.specs.Bodies.{opened};
ghost use Rattle.epoch_journal.specs.Group.{group_size};

use crate::layout::COMMIT_MARK;
use std::alloc::{AllocError, Global};
use std::marker::Model;

/// Records that wait to be added together, the first one first, for which a journal makes no more calls of its disk than for one
/// record (`EpochJournal::append_group`). Contracts see the records.
#[derive(Debug, Drop)]
pub struct Group {
    /// The bodies, with commit marks between them, and an end mark.
    pub(crate) bytes: Vec<u8>,
    /// How many records there are.
    pub(crate) len: usize,
}

impl Model for Group {
    ghost use Rattle.std.specs.Prelude.{◌≡◌, ◌-◌, length, vec_capacity};
    ghost use Rattle.epoch_journal.specs.Bodies.{AreBodies};
    ghost use Rattle.epoch_journal.specs.Group.{GroupState, records_in};

    ghost Value = { GroupState };

    ghost view = { λ g. record { records = records_in g.bytes.items; spare = vec_capacity g.bytes - length g.bytes.items } };

    ghost invariant = { λ g. record {
      bodies : AreBodies (records_in g.bytes.items) g.bytes.items;
      counted : g.len ≡ length (records_in g.bytes.items);
    } };
}

impl Group {
    /// Returns a group without records. It allocates nothing.
    pub fn new(alloc: Global) -> Group
        ensures { result.records ≡ [] }
    {
        Group {
            bytes: Vec::new(alloc),
            len: 0,
        }
    }

    /// Makes room for a record whose body has `len` bytes.
    ///
    /// # Errors
    /// `AllocError`: out of memory.
    pub fn reserve(&mut self, len: usize) -> Result<(), AllocError>
        ensures records { self.new.records ≡ self.old.records }
        ensures room { OnOk result (len ≤ self.new.spare) }
    {
        self.bytes.reserve(len)
    }

    /// Appends the record that the body spells, in room that `reserve` has made.
    pub fn push(&mut self, body: &[u8])
        requires body { (r : Record) × IsBody r body.now }
        requires room { length body.now ≤ self.old.spare }
        ensures records { (r : Record) → IsBody r body.now → self.new.records ≡ self.old.records ++ r ∷ [] }
        ensures spare { self.old.spare ≤ length body.now + self.new.spare }
    {
        open_end_mark(&mut self.bytes);
        let Ok(()) = self.bytes.extend_from_slice(body) else {
            unreachable!();
        };
        self.len += 1;
    }

    /// Removes all records. Their room stays.
    pub fn clear(&mut self)
        ensures records { self.new.records ≡ [] }
        ensures spare { self.old.spare ≤ self.new.spare }
    {
        self.bytes.clear();
        self.len = 0;
    }

    /// Returns the number of records.
    pub fn len(&self) -> usize
        ensures { result ≡ length self.now.records }
    {
        self.len
    }

    /// Returns true if there is no record.
    pub fn is_empty(&self) -> bool
        ensures { IsTrue result ↔ (self.now.records ≡ []) }
    {
        self.len == 0
    }

    /// Returns the number of bytes that the records take, each with a mark.
    pub fn size(&self) -> usize
        ensures { result ≡ group_size self.now }
    {
        self.bytes.len()
    }
}

/// Makes the end mark after the bodies a commit mark, if there are any.
fn open_end_mark(bytes: &mut Vec<u8>)
    ensures opened { bytes.new.items ≡ opened bytes.old.items }
    ensures capacity { vec_capacity bytes.new ≡ vec_capacity bytes.old }
{
    let end = bytes.len();
    if end > 0 {
        bytes[end - 1] = COMMIT_MARK;
    }
}
