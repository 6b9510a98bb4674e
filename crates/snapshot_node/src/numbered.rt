//! Ascending transactions from a number on.

ghost use Rattle.std.specs.Prelude.{◌≡◌, ◌<◌, filter, get_or, leb, length};
ghost use Rattle.teb_rules.specs.declared.names.Txn.{Txn};
ghost use Rattle.teb_rules.specs.history.Ascending.{IsAscendingBy};
ghost use Rattle.teb_rules.specs.history.Live.{number_of};

use teb_rules::names::Txn;

/// `from_number` looks at this many of the last ones before it searches all.
const FEW: usize = 4;

/// Returns those of ascending transactions that are numbered from `first` on. Nearly always they are among the last few.
pub(crate) fn from_number(txns: &[Txn], first: Txn) -> &[Txn]
    requires { IsAscendingBy number_of txns.now }
    ensures { result.now ≡ filter (λ u. leb first.0 u.0) txns.now }
{
    let len = txns.len();
    if len > FEW && txns[len - FEW].0 < first.0 {
        return from_number_behind(txns, len - FEW, first);
    }
    let start = txns.partition_point(|u| u.0 < first.0);
    &txns[start..]
}

// Returns the same, given a place whose transaction is numbered below `first`: it looks at the later ones, one after another.
fn from_number_behind(txns: &[Txn], below: usize, first: Txn) -> &[Txn]
    requires ascending { IsAscendingBy number_of txns.now }
    requires within { below < length txns.now }
    requires below { (d : Txn) → (get_or txns.now below d).0 < first.0 }
    ensures { result.now ≡ filter (λ u. leb first.0 u.0) txns.now }
{
    let mut start = below + 1;
    while start < txns.len() && txns[start].0 < first.0 {
        start += 1;
    }
    &txns[start..]
}
