//! Chains in a pool of places.

ghost use Rattle.std.specs.Prelude.{◌≡◌, []};
ghost use Rattle.std.specs.Option.{option_map};
ghost use Rattle.teb_rules.specs.declared.names.Cell.{Cell};
ghost use Rattle.chain_pool.specs.View.{list_in};

use crate::cell_chain::CellChain;
use crate::latest::{self, MARKS};
use crate::places::Version;
use crate::pool::Pool;
use std::alloc::{AllocError, Global};
use std::marker::Model;
use teb_rules::names::{Cell, Txn};
use version_chain::{Chains, Found};

/// Versions by cell, each linked by index into its cell's chain and its writer's list. A cell is found by its place in an index
/// of cells, a writer by hash. A place of a chain costs the walk from the chain's end, and an abort its own versions.
///
/// Places have numbers of 32 bits, so `reserve` also fails if there would be more than 2^32 - 1 of them.
pub struct PooledChains {
    pool: Pool,
    spare: usize,
    /// Tells most writers that have no version of a cell without a look at its chain.
    latest: [u32; MARKS],
}

/// Hand-written `Drop`, so that callers do not re-prove the drop glue.
impl Drop for PooledChains {
    fn drop(self) {
        let PooledChains {
            pool: _pool,
            spare: _spare,
            latest: _latest,
        } = self;
    }
}

impl Model for PooledChains {
    ghost use Rattle.chain_pool.specs.View.{View, view_of, Holds};

    ghost Value = { View };

    ghost view = { λ c. view_of c.pool c.spare };

    ghost invariant = { λ c. Holds c.pool c.spare c.latest };
}

/// Returns the place of a version that was found.
#[inline(always)]
fn place_of(found: Option<Found>) -> Option<usize>
    ensures { result ≡ option_map (λ v. v.at) found }
{
    match found {
        Some(version) => Some(version.at),
        None => None,
    }
}

impl PooledChains {
    /// Returns no versions, with no room.
    pub fn new(alloc: Global) -> Self
        ensures { (x : Cell) → list_in result x ≡ [] }
    {
        PooledChains {
            pool: Pool::new(alloc),
            spare: 0,
            latest: [0; MARKS],
        }
    }
}

impl Chains for PooledChains {
    ghost lists = { λ c x. list_in c x };

    ghost spare = { λ c. c.spare };

    fn reserve(&mut self, n: usize) -> Result<(), AllocError> {
        if n <= self.spare {
            return Ok(());
        }
        self.pool.reserve(n)?;
        self.spare = n;
        Ok(())
    }

    fn len_of(&self, cell: Cell) -> usize {
        CellChain::of(&self.pool, cell).len()
    }

    fn at(&self, cell: Cell, i: usize) -> (Txn, Option<i64>) {
        CellChain::of(&self.pool, cell).at(i)
    }

    fn find(&self, cell: Cell, t: Txn) -> Option<usize> {
        place_of(CellChain::of(&self.pool, cell).find(t))
    }

    fn place(&mut self, cell: Cell, i: usize, t: Txn, value: Option<i64>) {
        let version = Version {
            cell,
            writer: t,
            value,
        };
        self.pool.place(i, version);
        latest::mark(&mut self.latest, t, cell);
        self.spare -= 1;
    }

    fn overwrite(&mut self, cell: Cell, i: usize, value: Option<i64>) {
        self.pool.overwrite(cell, i, value);
    }

    fn remove_all_of(&mut self, t: Txn) {
        self.pool.remove_all_of(t);
    }

    fn last_where_from<F: Fn(Txn) -> bool>(&self, cell: Cell, from: usize, f: &F) -> Option<usize> {
        place_of(CellChain::of(&self.pool, cell).last_accepted(from, f))
    }

    fn own_or_last<F: Fn(Txn) -> bool>(&self, cell: Cell, t: Txn, f: &F) -> Option<Found> {
        let is_new = latest::is_above(&self.latest, t, cell);
        CellChain::of(&self.pool, cell).own_or_last(t, is_new, f)
    }
}
