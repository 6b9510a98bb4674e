//! Distinct names, numbered from 0 in the order in which they were added.

ghost use Rattle.std.specs.Prelude.{◌≡◌, ◌==◌, ◌<◌, ◌++◌, [], ◌∷◌, List, ℕ, length, not, Some, IfOk, OnErr, slice_get, if◌then◌else◌};
ghost use Rattle.std.specs.List.{IsDistinct};
ghost use Rattle.std.specs.Str.{bytes_eq};
ghost use Rattle.teb_rules.specs.names.Names.{has, number_of};

use indexmap::IndexSet;
use std::alloc::{AllocError, Global};
use std::marker::Model;

/// At most 255 distinct names, each with its number from 0. Contracts see the list of their bytes.
pub struct Names {
    alloc: Global,
    set: IndexSet<String>,
}

/// Hand-written `Drop`, so that callers do not re-prove the drop glue.
impl Drop for Names {
    fn drop(self) {
        let Names {
            alloc: _alloc,
            set: _set,
        } = self;
    }
}

impl Model for Names {
    ghost use Rattle.std.specs.Prelude.{List, ℕ, length, ◌≤◌};
    ghost use Rattle.std.specs.List.{IsDistinct};
    ghost use Rattle.std.specs.Str.{bytes_eq};
    ghost use Rattle.teb_rules.specs.names.Names.{texts};

    ghost Value = { List (List ℕ) };

    ghost view = { λ s. texts s.set.keys };

    ghost invariant = { λ s. (length s.set.keys ≤ 255) × IsDistinct bytes_eq (texts s.set.keys) };
}

#[tactic(auto, using(crate::proofs::lemmas::names::Texts::has_texts, crate::proofs::lemmas::names::Texts::number_texts, crate::proofs::lemmas::names::Texts::texts_push, crate::proofs::lemmas::names::Texts::number_of_itself))]
impl Names {
    /// Returns an empty list of names. Takes no memory.
    pub fn new(alloc: Global) -> Names
        ensures { result ≡ [] }
    {
        Names {
            alloc,
            set: IndexSet::new(alloc),
        }
    }

    /// Appends a name, and returns true; returns false if it is already there, and then changes nothing.
    ///
    /// # Errors
    /// Out of memory. The names are unchanged.
    pub fn add(&mut self, name: &str) -> Result<bool, AllocError>
        requires { length self.old < 255 }
        ensures added { IfOk result (λ new. (new ≡ not (has self.old name.now))
            × (self.new ≡ (if new then self.old ++ name.now ∷ [] else self.old))) }
        ensures err { OnErr result (self.new ≡ self.old) }
    {
        if self.set.contains(name) {
            return Ok(false);
        }
        let key = String::from_str(self.alloc, name)?;
        self.set.insert(key)?;
        Ok(true)
    }

    /// Returns how many names there are. No two of them are the same.
    pub fn len(&self) -> u8
        ensures count { result ≡ length self.now }
        ensures distinct { IsDistinct bytes_eq self.now }
    {
        self.set.len() as u8
    }

    pub fn is_empty(&self) -> bool
        ensures { result ≡ (length self.now == 0) }
    {
        self.set.is_empty()
    }

    /// Returns the name of a number.
    pub fn name(&self, i: u8) -> &str
        requires { i < length self.now }
        ensures name { slice_get self.now i ≡ Some result.now }
        ensures number { number_of self.now result.now ≡ Some i }
    {
        self.set.as_slice()[usize::from(i)].as_str()
    }

    /// Returns the number of a name, or `None` if it is not there.
    pub fn number(&self, name: &str) -> Option<u8>
        ensures { result ≡ number_of self.now name.now }
    {
        match self.set.get_index_of(name) {
            Some(i) => Some(i as u8),
            None => None,
        }
    }
}

/// The names of a tree: of its tables, its types and its nodes, each by its number.
#[derive(Drop)]
pub struct NameBook {
    pub tables: Names,
    pub types: Names,
    pub nodes: Names,
}
