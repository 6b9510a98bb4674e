//! Sets of tables below 64, as the bits of a number.

ghost use Rattle.std.specs.Prelude.{◌≡◌, ◌<◌, ◌≤◌, ◌||◌, ℕ, eqb};
ghost use Rattle.teb_rules.specs.Setup.{among, above};
ghost use Rattle.store_setup.specs.profile.Steps.{numbers_of};
ghost use Rattle.static_steps.specs.Squares.{is_in};

use teb_rules::names::Table;

/// Bit a is set if table a is in the set.
pub type TableSet = u64;

/// No table.
pub const EMPTY: TableSet = 0;

pub fn has(set: TableSet, a: u8) -> bool
    requires { a < 64 }
    ensures { result ≡ is_in set a }
{
    set >> a & 1 == 1
}

/// Returns the set and one table more.
pub fn with(set: TableSet, a: u8) -> TableSet
    requires { a < 64 }
    ensures { (b : ℕ) → is_in result b ≡ (eqb a b || is_in set b) }
{
    set | 1 << a
}

/// Returns the tables of both sets.
pub fn union(first: TableSet, second: TableSet) -> TableSet
    ensures { (b : ℕ) → is_in result b ≡ (is_in first b || is_in second b) }
{
    first | second
}

/// Returns the set of these tables.
pub fn set_of(tables: &[Table]) -> TableSet
    requires { above (numbers_of tables.now) ≤ 64 }
    ensures { (b : ℕ) → is_in result b ≡ among b (numbers_of tables.now) }
{
    match tables {
        [] => EMPTY,
        [table, rest @ ..] => with(set_of(rest), table.0),
    }
}
