//! The sources of each transaction, those that it read from, in lists by number: transactions are numbered from 1 in the order in
//! which they begin, and lists from 0.

ghost use Rattle.std.specs.Prelude.{◌≡◌, ◌+◌, ◌≤◌, ◌<◌, ◌&&◌, [], cond, not, eqb, ltb, length};
ghost use Rattle.teb_rules.specs.declared.names.Txn.{Txn};
ghost use Rattle.teb_rules.specs.history.Ascending.{put_by};
ghost use Rattle.teb_rules.specs.history.Live.{number_of};
ghost use Rattle.dependency_book.specs.Books.{list_of, SourcesAscend};

use arena_multimap::NumberedLists;
use teb_rules::names::Txn;

/// Returns the sources of t. They are empty if t has no list.
pub(crate) fn sources_of(sources: &NumberedLists<Txn>, t: Txn) -> &[Txn]
    ensures { result.now ≡ list_of sources.now.lists t.0 }
{
    if t.0 == 0 {
        return &[];
    }
    sources.list(t.0 as usize - 1)
}

/// Adds a transaction to those that t read from, unless it is there, or is t itself or 0. If t has no list, nothing changes.
pub(crate) fn add_source(sources: &mut NumberedLists<Txn>, t: Txn, from: Txn)
    requires ascending { SourcesAscend sources.old.lists }
    requires room { 0 < sources.old.spare }
    ensures ascending { SourcesAscend sources.new.lists }
    ensures lists { length sources.new.lists ≡ length sources.old.lists }
    ensures values { 0 < t.0 → t.0 ≤ length sources.old.lists → (u : Txn) → list_of sources.new.lists u.0 ≡ cond (eqb t.0 u.0 && not (eqb from.0 u.0) && ltb 0 from.0)
        (put_by number_of from (list_of sources.old.lists u.0)) (list_of sources.old.lists u.0) }
    ensures spare { sources.old.spare ≤ sources.new.spare + 1 }
{
    if from == t || from.0 == 0 {
        return;
    }
    if t.0 == 0 || t.0 as usize > sources.len() {
        return;
    }
    sources.put_by_number(t.0 as usize - 1, from);
}

/// Empties the list of those that t read from.
pub(crate) fn clear_sources(sources: &mut NumberedLists<Txn>, t: Txn)
    ensures lists { length sources.new.lists ≡ length sources.old.lists }
    ensures values { (u : Txn) → list_of sources.new.lists u.0 ≡ cond (eqb t.0 u.0) [] (list_of sources.old.lists u.0) }
    ensures spare { sources.new.spare ≡ sources.old.spare }
{
    if t.0 == 0 {
        return;
    }
    sources.clear(t.0 as usize - 1);
}
