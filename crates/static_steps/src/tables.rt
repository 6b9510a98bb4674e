//! How many tables have ranks: one more than the greatest that a profile names.

ghost use Rattle.std.specs.Prelude.{◌≡◌, ◌≤◌, drop, length};
ghost use Rattle.teb_rules.specs.Setup.{above, above_steps, above_profiles};
ghost use Rattle.store_setup.specs.profile.Steps.{numbers_of};

use store_setup::profile::Profile;
use teb_rules::names::Table;

/// Returns one more than the greatest table of the profiles, 0 to 64: the tables that have ranks are below it.
pub fn ranked_tables(profiles: &[Profile]) -> u8
    requires { above_profiles profiles.now ≤ 64 }
    ensures { result ≡ above_profiles profiles.now }
{
    match profiles {
        [] => 0,
        [profile, rest @ ..] => above_steps(profile, 0).max(ranked_tables(rest)),
    }
}

// Returns the same for the steps of a profile from number `from` on.
fn above_steps(profile: &Profile, from: u8) -> u8
    requires within { from ≤ length profile.now }
    requires bound { above_steps (drop from profile.now) ≤ 64 }
    ensures { result ≡ above_steps (drop from profile.now) }
{
    if from == profile.len() {
        return 0;
    }
    above(profile.step(from)).max(above_steps(profile, from + 1))
}

fn above(tables: &[Table]) -> u8
    requires { above (numbers_of tables.now) ≤ 64 }
    ensures { result ≡ above (numbers_of tables.now) }
{
    match tables {
        [] => 0,
        [table, rest @ ..] => (table.0 + 1).max(above(rest)),
    }
}
