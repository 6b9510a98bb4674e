//! Vectors that ascend by transaction, with at most one element for each.

ghost use Rattle.std.specs.Prelude.{◌≡◌, ◌<◌, ◌≤◌, ◌+◌, eqb, not, filter, length, get_or, set, vec_len, vec_capacity};
ghost use Rattle.std.specs.List.Sorted.{IsSearchInRange};
ghost use Rattle.teb_rules.specs.history.Ascending.{IsAscendingBy, place_of, put_by};
ghost use Rattle.teb_rules.specs.history.Live.{number_of, kept_by};
ghost use Rattle.teb_rules.specs.history.OwnEvents.{event_txn};
ghost use Rattle.teb_rules.specs.history.Standings.{standing_number, standing_in, standing_after, turned};

use super::Event;
use crate::history::standing::Standing;
use crate::names::Txn;
use crate::vectors::{put_in, take_out};

/// Returns the place of t's standing. It costs one look if the transactions are numbered from 1 without a gap and t is one of them, or if
/// t is above all of them; otherwise a binary search.
///
/// # Errors
/// If t has no standing: the place at which it would be inserted.
#[inline(always)]
pub fn find_standing(standings: &[Standing], t: Txn) -> Result<usize, usize>
    requires { IsAscendingBy standing_number standings.now }
    ensures { result ≡ place_of standing_number standings.now t.0 }
{
    let first = t.0.wrapping_sub(1) as usize;
    if first < standings.len() && standings[first].txn == t {
        return Ok(first);
    }
    search_standing(standings, t)
}

/// Returns the place of t's standing, or the place where it would go: the end if t is above all, and otherwise by a binary search.
fn search_standing(standings: &[Standing], t: Txn) -> Result<usize, usize>
    requires { IsAscendingBy standing_number standings.now }
    ensures { result ≡ place_of standing_number standings.now t.0 }
{
    match standings.last() {
        Some(last) if t.0 <= last.txn.0 => {
            standings.binary_search_by_key(&t.0, |standing| standing.txn.0)
        }
        _ => Err(standings.len()),
    }
}

/// The end of a transaction's earlier events, and the change that an event made.
#[derive(Clone, Copy)]
pub struct Noted {
    /// The end of the transaction's events before it.
    pub previous: usize,
    /// Whether the transaction is live after it, if the event may have changed that.
    pub live: Option<bool>,
}

/// Notes an event in the standing of its transaction, with `end` events in the history. It costs what `find_standing` does, and, if the
/// transaction has no standing yet, a move of those after its place.
#[inline(always)]
pub fn note_event(standings: &mut Vec<Standing>, event: Event, end: usize) -> Noted
    requires ascending { IsAscendingBy standing_number standings.old.items }
    requires room { vec_len standings.old < vec_capacity standings.old }
    ensures items { standings.new.items ≡ put_by standing_number (standing_after event end (standing_in standings.old.items (event_txn event))) standings.old.items }
    ensures previous { result.previous ≡ (standing_in standings.old.items (event_txn event)).end }
    ensures live { result.live ≡ turned event end (standing_in standings.old.items (event_txn event)) }
    ensures len { vec_len standings.new ≤ vec_len standings.old + 1 }
    ensures capacity { vec_capacity standings.old ≤ vec_capacity standings.new }
{
    let i = place_standing(standings, event.txn());
    let standing = &mut standings[i];
    let previous = standing.end;
    let live = standing.note(event, end);
    Noted { previous, live }
}

/// Returns the place of t's standing, after inserting a blank one if there was none.
#[inline(always)]
fn place_standing(standings: &mut Vec<Standing>, t: Txn) -> usize
    requires ascending { IsAscendingBy standing_number standings.old.items }
    requires room { vec_len standings.old < vec_capacity standings.old }
    ensures within { result < vec_len standings.new }
    ensures found { (d : Standing) → get_or standings.new.items result d ≡ standing_in standings.old.items t }
    ensures over { (r : Standing) → standing_number r ≡ t.0 → set standings.new.items result r ≡ put_by standing_number r standings.old.items }
    ensures len { vec_len standings.new ≤ vec_len standings.old + 1 }
    ensures capacity { vec_capacity standings.old ≤ vec_capacity standings.new }
{
    match find_standing(standings, t) {
        Ok(i) => i,
        Err(i) => {
            put_in(standings, i, Standing::blank(t));
            i
        }
    }
}

/// Inserts or removes a transaction. `None` changes nothing, at no cost.
#[inline(always)]
pub fn keep_txn(txns: &mut Vec<Txn>, t: Txn, is_in: Option<bool>)
    requires ascending { IsAscendingBy number_of txns.old.items }
    requires room { vec_len txns.old < vec_capacity txns.old }
    ensures items { txns.new.items ≡ kept_by is_in t txns.old.items }
    ensures len { vec_len txns.new ≤ vec_len txns.old + 1 }
    ensures capacity { vec_capacity txns.old ≤ vec_capacity txns.new }
{
    match is_in {
        Some(true) => put_txn(txns, t),
        Some(false) => remove_txn(txns, t),
        None => {}
    }
}

/// Inserts a transaction among ascending ones, unless it is already there. It costs a binary search, and a move of those after it.
#[inline(never)]
fn put_txn(txns: &mut Vec<Txn>, t: Txn)
    requires ascending { IsAscendingBy number_of txns.old.items }
    requires room { vec_len txns.old < vec_capacity txns.old }
    ensures items { txns.new.items ≡ put_by number_of t txns.old.items }
    ensures len { vec_len txns.new ≤ vec_len txns.old + 1 }
    ensures capacity { vec_capacity txns.old ≤ vec_capacity txns.new }
{
    if let Err(i) = find_txn(txns, t) {
        put_in(txns, i, t);
    }
}

/// Removes a transaction from ascending ones, if it is there. It costs a binary search, and a move of those after it.
#[inline(never)]
pub fn remove_txn(txns: &mut Vec<Txn>, t: Txn)
    ensures items { IsAscendingBy number_of txns.old.items → txns.new.items ≡ filter (λ u. not (eqb u.0 t.0)) txns.old.items }
    ensures len { vec_len txns.new ≤ vec_len txns.old }
    ensures capacity { vec_capacity txns.new ≡ vec_capacity txns.old }
{
    if let Ok(i) = find_txn(txns, t) {
        take_out(txns, i);
    }
}

/// Returns the index of a transaction among ascending ones.
///
/// # Errors
/// If t is not among them: the index at which it would be inserted.
pub fn find_txn(txns: &[Txn], t: Txn) -> Result<usize, usize>
    ensures within { IsSearchInRange result (length txns.now) }
    ensures place { IsAscendingBy number_of txns.now → result ≡ place_of number_of txns.now t.0 }
{
    match txns.last() {
        Some(last) if t.0 <= last.0 => txns.binary_search_by_key(&t.0, |u| u.0),
        _ => Err(txns.len()),
    }
}
