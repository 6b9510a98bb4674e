//! Walks along the links.

ghost use Rattle.std.specs.Prelude.{◌≡◌, ◌<◌, ◌≤◌, ◌-◌, ℕ, length, MatchOption, IfSome, IsSome, Some, true, false};
ghost use Rattle.std.specs.Bool.{OnFalse};
ghost use Rattle.std.specs.Option.{option_map};
ghost use Rattle.chain_pool.specs.Threads.{steps};
ghost use Rattle.chain_pool.specs.Places.{slot_at, previous_at, sibling_at, cell_in, pair_at as spec_pair_at};
ghost use Rattle.chain_pool.specs.Linked.{IsWalkable, nth_place};

use crate::places::{self, Chain, Head, Place};
use teb_rules::names::{Cell, Txn};
use version_chain::Found;

/// Returns the place that many steps back.
fn step_back(places: &[Place], start: u32, count: u32) -> u32
    requires { (n : ℕ) → n < count → steps (previous_at places.now) n start < length places.now }
    ensures { result ≡ steps (previous_at places.now) count start }
{
    let mut place = start;
    for _step in 0..count {
        place = places::at(places, place).previous;
    }
    place
}

/// Returns the place of the i-th version of a chain. The walk starts at the chain's end.
pub(crate) fn place_of(places: &[Place], chain: Chain, i: usize) -> u32
    requires walk { IsWalkable places.now chain }
    requires within { i < chain.head.len }
    ensures { result ≡ nth_place places.now chain.head i }
{
    step_back(places, chain.last, chain.head.len - 1 - i as u32)
}

/// Returns the places between which the i-th place of a chain goes; alone it is its own neighbour.
pub(crate) fn neighbours(places: &[Place], chain: Head, i: usize, place: u32) -> (u32, u32)
    requires safe { (n : ℕ) → 0 < chain.len → steps (previous_at places.now) n chain.first < length places.now }
    requires within { i ≤ chain.len }
    requires place { place < length places.now }
    ensures alone { chain.len ≡ 0 → (result.0 ≡ place) × (result.1 ≡ place) }
    ensures before { 0 < chain.len → result.0 ≡ previous_at places.now result.1 }
    ensures after { 0 < chain.len → result.1 ≡ nth_place places.now chain i }
    ensures before_within { result.0 < length places.now }
    ensures after_within { result.1 < length places.now }
{
    if chain.len == 0 {
        (place, place)
    } else {
        let after = step_back(places, chain.first, chain.len - i as u32);
        (places::at(places, after).previous, after)
    }
}

/// Returns the writer and the value at a place that is not free.
pub(crate) fn pair_at(places: &[Place], place: u32) -> (Txn, Option<i64>)
    requires { IsSome (slot_at places.now place).version }
    ensures { result ≡ spec_pair_at places.now place }
{
    match places::at(places, place).version() {
        Some(version) => (version.writer, version.value),
        None => unreachable!(),
    }
}

fn accepts<F: Fn(Txn) -> bool>(f: &F, t: Txn) -> bool
    requires { F.pre f.now t }
    ensures { F.post f.now t result }
{
    f(t)
}

/// Returns the last version of a chain, from `from` on, whose writer f accepts.
pub(crate) fn last_accepted<F: Fn(Txn) -> bool>(
    places: &[Place],
    chain: Chain,
    from: usize,
    f: &F,
) -> Option<Found>
    requires walk { IsWalkable places.now chain }
    requires callable { (j : ℕ) → j < chain.head.len → F.pre f.now (spec_pair_at places.now (nth_place places.now chain.head j)).0 }
    ensures within { IfSome result (λ v. v.at < chain.head.len) }
    ensures version { IfSome result (λ v. spec_pair_at places.now (nth_place places.now chain.head v.at) ≡ (v.writer, v.value)) }
    ensures found { MatchOption (option_map (λ v. v.at) result)
        ((j : ℕ) → from ≤ j → j < chain.head.len → F.post f.now (spec_pair_at places.now (nth_place places.now chain.head j)).0 false)
        (λ i. (from ≤ i) × (i < chain.head.len) × F.post f.now (spec_pair_at places.now (nth_place places.now chain.head i)).0 true
        × ((j : ℕ) → i < j → j < chain.head.len → F.post f.now (spec_pair_at places.now (nth_place places.now chain.head j)).0 false)) }
{
    let len = chain.head.len as usize;
    let mut place = chain.last;
    for above in 0..len.saturating_sub(from) {
        let (writer, value) = pair_at(places, place);
        if accepts(f, writer) {
            let at = len - 1 - above;
            return Some(Found { at, writer, value });
        }
        place = places::at(places, place).previous;
    }
    None
}

/// Returns whether a writer's list has a version of the cell.
pub(crate) fn has_cell(places: &[Place], own: Head, cell: Cell) -> bool
    requires { (n : ℕ) → n < own.len → steps (sibling_at places.now) n own.first < length places.now }
    ensures { OnFalse result ((n : ℕ) → n < own.len → cell_in (slot_at places.now (steps (sibling_at places.now) n own.first)) ≡ Some cell → ⊥) }
{
    let mut place = own.first;
    for _step in 0..own.len {
        let here = places::at(places, place);
        if here.cell == cell {
            return true;
        }
        place = here.sibling;
    }
    false
}
