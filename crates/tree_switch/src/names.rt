//! Equality of lists of names.

ghost use Rattle.std.specs.Prelude.{◌≡◌};
ghost use Rattle.std.specs.Str.{bytes_eq};
ghost use Rattle.tree_switch.specs.Names.{same_names};

use teb_rules::names::Names;

/// Returns whether two lists of names are the same, in the same order.
pub fn same_names(some: &Names, other: &Names) -> bool
    ensures { result ≡ same_names some.now other.now }
{
    if some.len() != other.len() {
        return false;
    }
    for i in 0..some.len() {
        if !same_text(some.name(i), other.name(i)) {
            return false;
        }
    }
    true
}

fn same_text(some: &str, other: &str) -> bool
    ensures { result ≡ bytes_eq some.now other.now }
{
    some == other
}
