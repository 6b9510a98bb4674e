//! The values of a reply.

ghost use Rattle.std.specs.Prelude.{◌≡◌, ◌<◌, ◌≤◌, ◌++◌, ◌∷◌, [], length, slice_get, Some};

use std::marker::Model;
use teb_rules::names::ScanList;

/// At most sixteen values as C has them, each of a row or of none. The value of no row is 0, and so is each one after the last.
/// Contracts see the list of optional values.
#[repr(C)]
#[derive(Clone, Copy)]
pub struct ValueList {
    values: [i64; 16],
    present: [bool; 16],
    len: usize,
}

impl Model for ValueList {
    ghost use Rattle.std.specs.Prelude.{List, Option, ℤ, ◌≤◌, ◌≡◌, length};
    ghost use Rattle.std.proofs.Common.{sym};
    ghost use Rattle.teb_rules.specs.names.Padding.{padded, held, numbers, flags};

    ghost Value = { List (Option ℤ) };

    ghost view = { λ s. held s.len s.present s.values };

    // The fields are those that `inverse` gives back.
    ghost invariant = { λ s. (s.len ≤ 16) × (length (held s.len s.present s.values) ≡ s.len)
        × (s.values ≡ numbers (padded (held s.len s.present s.values)))
        × (s.present ≡ flags (padded (held s.len s.present s.values))) };

    ghost inverse = { λ xs. record { values = numbers (padded xs); present = flags (padded xs); len = length xs } };

    ghost inverse_ok = { λ s h i. record { values = sym h.2 i; present = sym h.3 i; len = h.1 i } };
}

impl ValueList {
    /// Returns no values.
    pub fn new() -> Self
        ensures { result ≡ [] }
    {
        ValueList {
            values: [0; 16],
            present: [false; 16],
            len: 0,
        }
    }

    /// Drops all values.
    #[inline(always)]
    pub fn clear(&mut self)
        ensures { self.new ≡ [] }
    {
        if self.len == 1 {
            self.values[0] = 0;
            self.present[0] = false;
            self.len = 0;
        } else if self.len > 0 {
            self.clear_all();
        }
    }

    /// Drops all values: out of line, since only a scan has more than one.
    #[cold]
    #[inline(never)]
    fn clear_all(&mut self)
        ensures { self.new ≡ [] }
    {
        *self = ValueList::new();
    }

    /// Returns one value.
    pub fn of(value: Option<i64>) -> Self
        ensures { result ≡ value ∷ [] }
    {
        let mut list = ValueList::new();
        list.push(value);
        list
    }

    /// Returns the values of a scan.
    pub fn of_scan(values: &ScanList) -> Self
        ensures { result ≡ values.now }
    {
        let mut list = ValueList::new();
        for i in 0..values.len() {
            list.push(values.at(i));
        }
        list
    }

    /// Returns the number of values, at most sixteen.
    pub fn len(&self) -> usize
        ensures len { result ≡ length self.now }
        ensures few { result ≤ 16 }
    {
        self.len
    }

    /// Returns the value at a place, from 0.
    #[tactic(auto, using(teb_rules::proofs::lemmas::names::Padding::read_joined))]
    pub fn at(&self, i: usize) -> Option<i64>
        requires { i < length self.now }
        ensures { slice_get self.now i ≡ Some result }
    {
        self.present[i].then_some(self.values[i])
    }

    /// Returns the first value, or `None` if there is none.
    pub fn first(&self) -> Option<Option<i64>>
        ensures { result ≡ slice_get self.now 0 }
    {
        if self.len() == 0 {
            None
        } else {
            Some(self.at(0))
        }
    }

    /// Returns these values as those of a scan.
    pub fn scan(&self) -> ScanList
        ensures { result ≡ self.now }
    {
        let mut list = ScanList::new();
        for i in 0..self.len() {
            list.push(self.at(i));
        }
        list
    }

    /// Puts one value in the place of none.
    #[inline(always)]
    pub fn put_first(&mut self, v: Option<i64>)
        requires { self.old ≡ [] }
        ensures { self.new ≡ v ∷ [] }
    {
        self.present[0] = v.is_some();
        self.values[0] = v.unwrap_or(0);
        self.len = 1;
    }

    /// Appends a value.
    pub fn push(&mut self, v: Option<i64>)
        requires { length self.old < 16 }
        ensures { self.new ≡ self.old ++ v ∷ [] }
    {
        self.present[self.len] = v.is_some();
        self.values[self.len] = v.unwrap_or(0);
        self.len += 1;
    }
}
