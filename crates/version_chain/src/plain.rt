//! Versions in one sorted vector.

ghost use Rattle.std.specs.Prelude.{◌≡◌, ◌<◌, ◌≤◌, ◌+◌, [], filter, not, eqb, insert, vec_len, vec_capacity};
ghost use Rattle.version_chain.specs.Stored.{of_cell};

use crate::chains::Chains;
use crate::sorted::{Stored, chain, last_accepted, place_of, range_of};
use std::alloc::{AllocError, Global};
use std::marker::Model;
use teb_rules::names::{Cell, Txn};

/// Versions in one vector, sorted by cell and, within a cell, in version order. Inserting or removing a version moves
/// those after it: plain to read, and slow if there are many.
#[derive(Drop)]
pub struct PlainChains {
    versions: Vec<Stored>,
    spare: usize,
}

impl Model for PlainChains {
    ghost use Rattle.version_chain.specs.Plain.{Plain, plain_of, IsPlain};

    ghost Value = { Plain };

    ghost view = { λ c. plain_of c.versions c.spare };

    ghost invariant = { λ c. IsPlain c.versions c.spare };
}

impl PlainChains {
    /// Returns no versions, with no room.
    pub fn new(alloc: Global) -> Self
        ensures { result.versions ≡ [] }
    {
        PlainChains {
            versions: Vec::new(alloc),
            spare: 0,
        }
    }
}

impl Chains for PlainChains {
    ghost lists = { λ c x. of_cell x c.versions };

    ghost spare = { λ c. c.spare };

    fn reserve(&mut self, n: usize) -> Result<(), AllocError> {
        self.versions.reserve(n)?;
        self.spare = self.spare.max(n);
        Ok(())
    }

    fn len_of(&self, cell: Cell) -> usize {
        chain(&self.versions, cell).len()
    }

    fn at(&self, cell: Cell, i: usize) -> (Txn, Option<i64>) {
        let version = chain(&self.versions, cell)[i];
        (version.writer, version.value)
    }

    fn find(&self, cell: Cell, t: Txn) -> Option<usize> {
        place_of(chain(&self.versions, cell), t)
    }

    fn place(&mut self, cell: Cell, i: usize, t: Txn, value: Option<i64>) {
        let (start, _) = range_of(&self.versions, cell);
        let version = Stored {
            cell,
            writer: t,
            value,
        };
        put_in(&mut self.versions, start + i, version);
        self.spare -= 1;
    }

    fn overwrite(&mut self, cell: Cell, i: usize, value: Option<i64>) {
        let (start, _) = range_of(&self.versions, cell);
        self.versions[start + i].value = value;
    }

    fn remove_all_of(&mut self, t: Txn) {
        keep_others(&mut self.versions, t);
    }

    fn last_where_from<F: Fn(Txn) -> bool>(&self, cell: Cell, from: usize, f: &F) -> Option<usize> {
        last_accepted(chain(&self.versions, cell), from, f)
    }
}

/// Inserts a version at a place, in room that was made.
fn put_in(versions: &mut Vec<Stored>, at: usize, version: Stored)
    requires within { at ≤ vec_len versions.old }
    requires room { vec_len versions.old < vec_capacity versions.old }
    ensures items { versions.new.items ≡ insert versions.old.items at version }
    ensures len { vec_len versions.new ≡ vec_len versions.old + 1 }
    ensures capacity { vec_capacity versions.new ≡ vec_capacity versions.old }
{
    let _ = versions.insert(at, version);
}

/// Removes the versions of a writer.
fn keep_others(versions: &mut Vec<Stored>, t: Txn)
    ensures items { versions.new.items ≡ filter (λ v. not (eqb v.writer.0 t.0)) versions.old.items }
    ensures len { vec_len versions.new ≤ vec_len versions.old }
    ensures capacity { vec_capacity versions.new ≡ vec_capacity versions.old }
{
    versions.retain(|v| v.writer != t);
}
