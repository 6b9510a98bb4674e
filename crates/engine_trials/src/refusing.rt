//! Versions that refuse room once.

ghost use Rattle.std.specs.Prelude.{◌≡◌};

use std::alloc::AllocError;
use teb_rules::names::{Cell, Txn};
use version_chain::Chains;

/// Versions that are kept in other chains, and refuse room at one call.
#[derive(Drop)]
pub struct Refusing<C: Chains> {
    chains: C,
    // How many calls precede the refused one; `None` if no call is refused, or it has been.
    before: Option<usize>,
    refused: bool,
    // How many calls were made.
    calls: usize,
}

impl<C: Chains> Refusing<C> {
    /// Over these chains, room is refused once, after this many served calls, or never.
    pub fn after(served: Option<usize>, chains: C) -> Refusing<C>
        ensures { result.chains ≡ chains }
    {
        Refusing {
            chains,
            before: served,
            refused: false,
            calls: 0,
        }
    }

    /// Returns how often room was asked for.
    pub fn calls(&self) -> usize {
        self.calls
    }

    /// Returns whether room was refused.
    pub fn has_refused(&self) -> bool {
        self.refused
    }

    /// Returns whether room is still to be refused.
    pub fn will_refuse(&self) -> bool {
        self.before.is_some()
    }
}

impl<C: Chains> Chains for Refusing<C> {
    ghost lists = { λ c x. C.lists c.chains x };

    ghost spare = { λ c. C.spare c.chains };

    fn reserve(&mut self, n: usize) -> Result<(), AllocError> {
        self.calls = self.calls.saturating_add(1);
        match self.before {
            Some(0) => {
                self.before = None;
                self.refused = true;
                return Err(AllocError);
            }
            Some(calls) => {
                self.chains.reserve(n)?;
                self.before = Some(calls - 1);
            }
            None => self.chains.reserve(n)?,
        }
        Ok(())
    }

    fn len_of(&self, cell: Cell) -> usize {
        self.chains.len_of(cell)
    }

    fn at(&self, cell: Cell, i: usize) -> (Txn, Option<i64>) {
        self.chains.at(cell, i)
    }

    fn find(&self, cell: Cell, t: Txn) -> Option<usize> {
        self.chains.find(cell, t)
    }

    fn place(&mut self, cell: Cell, i: usize, t: Txn, value: Option<i64>) {
        self.chains.place(cell, i, t, value);
    }

    fn overwrite(&mut self, cell: Cell, i: usize, value: Option<i64>) {
        self.chains.overwrite(cell, i, value);
    }

    fn remove_all_of(&mut self, t: Txn) {
        self.chains.remove_all_of(t);
    }

    fn last_where_from<F: Fn(Txn) -> bool>(&self, cell: Cell, from: usize, f: &F) -> Option<usize> {
        self.chains.last_where_from(cell, from, f)
    }
}
