//! Stored versions in one slice, sorted by cell and, within a cell, in version order.

ghost use Rattle.std.specs.Prelude.{◌≡◌, ◌<◌, ℕ, Bool, length, map, IfSome, IsTrue, eqb};
ghost use Rattle.teb_rules.specs.declared.names.Txn.{Txn};
ghost use Rattle.version_chain.specs.Lists.{writers_of, is_writer, first_place, last_place, unless_below};
ghost use Rattle.version_chain.specs.Stored.{IsSortedByCell, IsRange, of_cell, version};

use teb_rules::names::{Cell, Txn};

/// A version with its cell.
#[derive(Clone, Copy)]
pub struct Stored {
    pub cell: Cell,
    pub writer: Txn,
    pub value: Option<i64>,
}

/// Returns the beginning of the versions of a cell, and how many there are.
pub fn range_of(versions: &[Stored], cell: Cell) -> (usize, usize)
    requires { IsSortedByCell versions.now }
    ensures { IsRange versions.now cell result.0 result.1 }
{
    let start = versions.partition_point(|v| v.cell < cell);
    let len = versions[start..].partition_point(|v| v.cell == cell);
    (start, len)
}

/// Returns the versions of a cell.
pub fn chain(versions: &[Stored], cell: Cell) -> &[Stored]
    requires { IsSortedByCell versions.now }
    ensures { map version result.now ≡ of_cell cell versions.now }
{
    let (start, len) = range_of(versions, cell);
    &versions[start..][..len]
}

/// Returns the first place of a chain whose writer is t, or `None` if it has none.
pub fn place_of(chain: &[Stored], t: Txn) -> Option<usize>
    ensures { result ≡ first_place (λ w. eqb w t.0) (writers_of (map version chain.now)) }
{
    chain.iter().position(|v| v.writer == t)
}

/// Returns the last place of a chain, from `from` on, whose writer f accepts, or `None` if f accepts none.
pub fn last_accepted<F: Fn(Txn) -> bool>(chain: &[Stored], from: usize, f: &F) -> Option<usize>
    requires { (u : Txn) → IsTrue (is_writer (map version chain.now) u.0) → F.pre f.now u }
    ensures place { (p : ℕ → Bool)
        → ((u : Txn) (b : Bool) → IsTrue (is_writer (map version chain.now) u.0) → F.post f.now u b → b ≡ p u.0)
        → result ≡ unless_below from (last_place p (writers_of (map version chain.now))) }
    ensures within { IfSome result (λ i. i < length (map version chain.now)) }
{
    let mut end = chain.len();
    while from < end {
        end -= 1;
        if accepts(f, chain[end].writer) {
            return Some(end);
        }
    }
    None
}

fn accepts<F: Fn(Txn) -> bool>(f: &F, t: Txn) -> bool
    requires { F.pre f.now t }
    ensures { F.post f.now t result }
{
    f(t)
}
