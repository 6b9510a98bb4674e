//! The ranks of the tables over some profiles.

ghost use Rattle.std.specs.Prelude.{◌≡◌, ◌<◌, ◌≤◌, ℕ, IfOk, length, slice_index};
ghost use Rattle.std.specs.List.{All};
ghost use Rattle.teb_rules.specs.Setup.{above_profiles};
ghost use Rattle.teb_rules.specs.Steps.{table_rank};
ghost use Rattle.static_steps.specs.Profiles.{profiles_of};

use crate::Ranks;
use crate::arrows::arrows;
use crate::chains::longest_chains;
use crate::closure::close;
use std::alloc::{AllocError, Global};
use store_setup::profile::Profile;
use teb_rules::names::Kind;

/// Returns the ranks of the tables below `tables`, over the profiles of the types in `under`.
///
/// # Errors
/// Out of memory.
pub fn ranks(
    alloc: Global,
    profiles: &[Profile],
    under: &[Kind],
    tables: u8,
) -> Result<Ranks, AllocError>
    requires known { All (λ k. k.0 < length profiles.now) under.now }
    requires named { above_profiles (profiles_of profiles.now under.now) ≤ tables }
    requires few { tables ≤ 64 }
    ensures { IfOk result (λ ranks. (length ranks ≡ tables)
        × ((a : ℕ) → a < tables → slice_index ranks a ≡ table_rank (profiles_of profiles.now under.now) tables a)) }
{
    let mut rows = arrows(alloc, profiles, under, tables)?;
    close(&mut rows);
    let ranks = longest_chains(alloc, &rows)?;
    Ok(Ranks::new(ranks))
}
