//! The arrows between tables: which leads to which along some profile.

ghost use Rattle.std.specs.Prelude.{◌≡◌, ◌<◌, ◌≤◌, ◌&&◌, ◌||◌, ℕ, IfOk, drop, length};
ghost use Rattle.std.specs.List.{All, list_any};
ghost use Rattle.teb_rules.specs.Setup.{among, above, above_steps, above_profiles};
ghost use Rattle.teb_rules.specs.Steps.{leads, arrow};
ghost use Rattle.store_setup.specs.profile.Steps.{numbers_of};
ghost use Rattle.static_steps.specs.Squares.{is_in, leads_in};
ghost use Rattle.static_steps.specs.Profiles.{profiles_of};

use crate::table_set::{EMPTY, TableSet, set_of, union};
use std::alloc::{AllocError, Global};
use store_setup::profile::Profile;
use teb_rules::names::{Kind, Table};

/// Returns for each table below `tables` the tables that some profile of `under` leads to from it.
///
/// # Errors
/// `AllocError`: out of memory.
pub fn arrows(
    alloc: Global,
    profiles: &[Profile],
    under: &[Kind],
    tables: u8,
) -> Result<Vec<TableSet>, AllocError>
    requires known { All (λ k. k.0 < length profiles.now) under.now }
    requires named { above_profiles (profiles_of profiles.now under.now) ≤ tables }
    requires few { tables ≤ 64 }
    ensures { IfOk result (λ rows. (length rows.items ≡ tables)
        × ((a b : ℕ) → leads_in rows.items a b ≡ arrow (profiles_of profiles.now under.now) a b)) }
{
    let mut rows = vec![in alloc; EMPTY; usize::from(tables)]?;
    for kind in under {
        add_steps(&profiles[usize::from(kind.0)], 0, &mut rows);
    }
    Ok(rows)
}

// Adds the arrows of the steps from number `from` on, and returns the tables of these steps.
fn add_steps(profile: &Profile, from: u8, rows: &mut [TableSet]) -> TableSet
    requires within { from ≤ length profile.now }
    requires named { above_steps (drop from profile.now) ≤ length rows.old }
    requires few { length rows.old ≤ 64 }
    ensures later { (b : ℕ) → is_in result b ≡ list_any (among b) (drop from profile.now) }
    ensures rows { (a b : ℕ) → leads_in rows.new a b ≡ (leads_in rows.old a b || leads (drop from profile.now) a b) }
{
    if from == profile.len() {
        return EMPTY;
    }
    let step = profile.step(from);
    let behind = add_steps(profile, from + 1, rows);
    let later = union(set_of(step), behind);
    add_arrows(step, later, rows);
    later
}

// Adds arrows from each of these tables to each of a set.
fn add_arrows(tables: &[Table], later: TableSet, rows: &mut [TableSet])
    requires named { above (numbers_of tables.now) ≤ length rows.old }
    ensures { (a b : ℕ) → leads_in rows.new a b ≡ (leads_in rows.old a b || (among a (numbers_of tables.now) && is_in later b)) }
{
    if let [table, rest @ ..] = tables {
        let row = &mut rows[usize::from(table.0)];
        *row = union(*row, later);
        add_arrows(rest, later, rows);
    }
}
