//! Multimaps by transaction.

ghost use Rattle.std.specs.Prelude.{◌≡◌, cond, eqb, []};
ghost use Rattle.teb_rules.specs.declared.names.Txn.{Txn};
ghost use Rattle.sorted_multimap.specs.Keys.{txn_cmp};
ghost use Rattle.sorted_multimap.specs.Multimap.{values_in};

use crate::multimap::Multimap;
use teb_rules::names::Txn;

/// Removes all values of a transaction.
pub fn clear_txn<V: Copy>(multimap: &mut Multimap<Txn, V>, t: Txn)
    ensures values { (u : Txn) → values_in txn_cmp multimap.new u ≡ cond (eqb t.0 u.0) [] (values_in txn_cmp multimap.old u) }
    ensures spare { multimap.new.spare ≡ multimap.old.spare }
{
    multimap.clear(t);
}
