//! The values that a scan returns.

ghost use Rattle.std.specs.Prelude.{◌≡◌, ◌<◌, ◌≤◌, ◌++◌, ◌∷◌, [], length, slice_get, Some, ◌==◌};

use std::marker::Model;

/// At most sixteen values, each of a row or of none.
#[derive(Clone, Copy, Debug, PartialEq, Eq)]
pub struct ScanList {
    // Beside each value, whether there is a row: half the room of options. A value without a row is 0.
    values: [i64; 16],
    present: [bool; 16],
    len: usize,
}

impl Model for ScanList {
    ghost use Rattle.std.specs.Prelude.{List, Option, ℤ, ◌≤◌, ◌≡◌, length};
    ghost use Rattle.std.proofs.Common.{sym};
    ghost use Rattle.teb_rules.specs.names.Padding.{padded, held, numbers, flags};

    ghost Value = { List (Option ℤ) };

    ghost view = { λ s. held s.len s.present s.values };

    // The fields are those that `inverse` makes.
    ghost invariant = { λ s. (s.len ≤ 16) × (length (held s.len s.present s.values) ≡ s.len)
        × (s.values ≡ numbers (padded (held s.len s.present s.values)))
        × (s.present ≡ flags (padded (held s.len s.present s.values))) };

    ghost inverse = { λ xs. record { values = numbers (padded xs); present = flags (padded xs); len = length xs } };

    ghost inverse_ok = { λ s h i. record { values = sym h.2 i; present = sym h.3 i; len = h.1 i } };
}

#[tactic(auto, using(crate::proofs::lemmas::names::Padding::read_joined))]
impl ScanList {
    /// Returns no values.
    pub fn new() -> Self
        ensures { result ≡ [] }
    {
        ScanList {
            values: [0; 16],
            present: [false; 16],
            len: 0,
        }
    }

    /// Returns how many values there are, at most sixteen.
    pub fn len(&self) -> usize
        ensures len { result ≡ length self.now }
        ensures few { result ≤ 16 }
    {
        self.len
    }

    pub fn is_empty(&self) -> bool
        ensures { result ≡ (length self.now == 0) }
    {
        self.len == 0
    }

    /// Returns the value at a place, from 0.
    pub fn at(&self, i: usize) -> Option<i64>
        requires { i < length self.now }
        ensures { slice_get self.now i ≡ Some result }
    {
        self.present[i].then_some(self.values[i])
    }

    /// Appends a value.
    pub fn push(&mut self, v: Option<i64>)
        requires { length self.old < 16 }
        ensures { self.new ≡ self.old ++ v ∷ [] }
    {
        self.present[self.len] = v.is_some();
        self.values[self.len] = v.unwrap_or(0);
        self.len += 1;
    }
}
