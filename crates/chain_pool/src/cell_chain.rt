//! The chain of one cell, as reads see it.

ghost use Rattle.std.specs.Prelude.{◌≡◌, ◌<◌, ℕ, Bool, length, slice_get, IsTrue, IsFalse, false, IfSome, None, Some, eqb};
ghost use Rattle.std.specs.Option.{option_map};
ghost use Rattle.std.specs.Bool.{OnTrue};
ghost use Rattle.teb_rules.specs.declared.names.Txn.{Txn};
ghost use Rattle.version_chain.specs.Lists.{writers_of, is_writer, first_place, last_place, unless_below, own_or_last as spec_own_or_last};
ghost use Rattle.chain_pool.specs.Heads.{chain_at};
ghost use Rattle.chain_pool.specs.Pools.{IsSound, chain_of};
ghost use Rattle.chain_pool.specs.Props.{kept};

use crate::places::Chain;
use crate::pool::Pool;
use crate::{walks, writer_heads};
use teb_rules::names::{Cell, Txn};
use version_chain::Found;

/// A chain up to this length costs less to walk than its writer's list to look up.
const SHORT: u32 = 8;

/// The chain of a cell in a sound pool.
#[derive(Clone, Copy)]
pub(crate) struct CellChain<'a> {
    pool: &'a Pool,
    cell: Cell,
    chain: Chain,
    ghost sound: { IsSound pool.now } by { Prim.hlevel kept },
    ghost of_cell: { chain ≡ chain_at pool.now.cells.entries cell },
}

impl<'a> CellChain<'a> {
    ghost use Rattle.chain_pool.specs.CellChains.{list_of};

    /// Returns the chain of a cell.
    #[inline(always)]
    pub(crate) fn of(pool: &'a Pool, cell: Cell) -> CellChain<'a>
        requires { IsSound pool.now }
        ensures { list_of result ≡ chain_of pool.now cell }
    {
        let chain = pool.cells.chain_at(cell);
        CellChain { pool, cell, chain }
    }

    /// Returns how many versions the chain has.
    #[inline(always)]
    pub(crate) fn len(self) -> usize
        ensures { result ≡ length (list_of self.entry) }
    {
        self.chain.head.len as usize
    }

    /// Returns the i-th version.
    pub(crate) fn at(self, i: usize) -> (Txn, Option<i64>)
        requires { i < length (list_of self) }
        ensures { slice_get (list_of self.entry) i ≡ Some result }
    {
        let place = walks::place_of(&self.pool.places, self.chain, i);
        walks::pair_at(&self.pool.places, place)
    }

    /// Returns the last version, from `from` on, whose writer f accepts.
    #[inline(always)]
    pub(crate) fn last_accepted<F: Fn(Txn) -> bool>(self, from: usize, f: &F) -> Option<Found>
        requires { (u : Txn) → IsTrue (is_writer (list_of self) u.0) → F.pre f.now u }
        ensures place { (p : ℕ → Bool)
            → ((u : Txn) (b : Bool) → IsTrue (is_writer (list_of self.entry) u.0) → F.post f.now u b → b ≡ p u.0)
            → option_map (λ v. v.at) result ≡ unless_below from (last_place p (writers_of (list_of self.entry))) }
        ensures within { IfSome result (λ v. v.at < length (list_of self.entry)) }
        ensures version { IfSome result (λ v. slice_get (list_of self.entry) v.at ≡ Some (v.writer, v.value)) }
    {
        walks::last_accepted(&self.pool.places, self.chain, from, f)
    }

    /// Returns whether a writer's list that is shorter than the chain shows that the writer has no version in the chain.
    fn lacks(self, t: Txn) -> bool
        ensures { OnTrue result (first_place (λ w. eqb w t.0) (writers_of (list_of self.entry)) ≡ None) }
    {
        let chain = self.chain.head;
        let own = writer_heads::head_of(&self.pool.writers, t);
        own.len < chain.len && !walks::has_cell(&self.pool.places, own, self.cell)
    }

    /// Returns the version of a writer. If the chain is not short and the writer's list is shorter, that list tells first whether
    /// there is one.
    pub(crate) fn find(self, t: Txn) -> Option<Found>
        ensures place { option_map (λ v. v.at) result ≡ first_place (λ w. eqb w t.0) (writers_of (list_of self.entry)) }
        ensures version { IfSome result (λ v. slice_get (list_of self.entry) v.at ≡ Some (v.writer, v.value)) }
    {
        if self.chain.head.len > SHORT && self.lacks(t) {
            return None;
        }
        self.last_accepted(0, &|w: Txn| w.0 == t.0)
    }

    /// Returns the version of a writer. One that is new to the cell has none.
    #[inline(always)]
    fn own(self, t: Txn, is_new: bool) -> Option<Found>
        requires { OnTrue is_new (is_writer (list_of self) t.0 ≡ false) }
        ensures place { option_map (λ v. v.at) result ≡ first_place (λ w. eqb w t.0) (writers_of (list_of self.entry)) }
        ensures version { IfSome result (λ v. slice_get (list_of self.entry) v.at ≡ Some (v.writer, v.value)) }
    {
        if is_new {
            return None;
        }
        self.find(t)
    }

    /// Returns the version of a writer, or else the last one whose writer f accepts. A writer that is new to the cell has none of it.
    #[inline(always)]
    pub(crate) fn own_or_last<F: Fn(Txn) -> bool>(
        self,
        t: Txn,
        is_new: bool,
        f: &F,
    ) -> Option<Found>
        requires absent { OnTrue is_new (is_writer (list_of self) t.0 ≡ false) }
        requires callable { IsFalse (is_writer (list_of self) t.0) → (u : Txn) → IsTrue (is_writer (list_of self) u.0) → F.pre f.now u }
        ensures place { (p : ℕ → Bool)
            → (IsFalse (is_writer (list_of self.entry) t.0) → (u : Txn) (b : Bool) → IsTrue (is_writer (list_of self.entry) u.0) → F.post f.now u b → b ≡ p u.0)
            → option_map (λ v. v.at) result ≡ spec_own_or_last t.0 p (writers_of (list_of self.entry)) }
        ensures version { IfSome result (λ v. slice_get (list_of self.entry) v.at ≡ Some (v.writer, v.value)) }
    {
        match self.own(t, is_new) {
            Some(own) => Some(own),
            None => self.last_accepted(0, f),
        }
    }
}
