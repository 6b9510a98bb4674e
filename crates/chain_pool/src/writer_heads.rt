//! Heads of writers' lists.

ghost use Rattle.std.specs.Prelude.{◌≡◌, ◌<◌, ◌≤◌, ◌+◌, ◌^◌, if◌then◌else◌};
ghost use Rattle.indexmap.specs.IndexMap.{spare};
ghost use Rattle.teb_rules.specs.declared.names.Txn.{Txn};
ghost use Rattle.chain_pool.specs.Heads.{writer_head, same_txn, IsBusy};

use crate::places::{EMPTY, Head};
use indexmap::IndexMap;
use teb_rules::names::Txn;

/// Returns the head of a writer's list.
#[inline(always)]
pub(crate) fn head_of(writers: &IndexMap<Txn, Head>, t: Txn) -> Head
    ensures { result ≡ writer_head writers.now.entries t }
{
    match writers.get(&t) {
        Some(head) => *head,
        None => EMPTY,
    }
}

/// Adds a place to a writer's list, as its first. Returns the head that the list had.
pub(crate) fn lengthen(writers: &mut IndexMap<Txn, Head>, t: Txn, place: u32) -> Head
    requires room { 0 < spare writers.old }
    requires short { (writer_head writers.old.entries t).len + 1 < 2 ^ 32 }
    ensures result { result ≡ writer_head writers.old.entries t }
    ensures heads { (u : Txn) → writer_head writers.new.entries u ≡ (if same_txn t u then record { first = place; len = result.len + 1 } else writer_head writers.old.entries u) }
    ensures busy { IsBusy writers.old.entries → IsBusy writers.new.entries }
    ensures room { spare writers.old ≤ spare writers.new + 1 }
{
    let head = writers.entry(t).unwrap().or_insert(EMPTY);
    let was = *head;
    *head = Head {
        first: place,
        len: was.len + 1,
    };
    was
}
