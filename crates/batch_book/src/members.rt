//! The members that have joined, and their batches.

ghost use Rattle.std.specs.Prelude.{◌≡◌, ◌<◌, ◌≤◌, eqb, not, find, filter, length, vec_len, vec_capacity, None, ◌+◌, ◌-◌, ◌^◌};
ghost use Rattle.std.specs.List.{All, list_any};
ghost use Rattle.teb_rules.specs.history.Ascending.{IsAscendingBy, place_of};
ghost use Rattle.batch_book.specs.declared.members.Member.{Member};
ghost use Rattle.batch_book.specs.Fields.{batch_at, member_number, Entered, Has};
ghost use Rattle.batch_book.specs.Settled.{IsSettled};

use crate::settled::settled_before;
use teb_rules::names::Txn;

/// A transaction, its side, and the number of its batch.
#[derive(Clone, Copy)]
pub(crate) struct Member {
    pub(crate) txn: Txn,
    pub(crate) side: u32,
    pub(crate) batch: usize,
}

/// A batch of a side: its start, its close (`None` while it is open), how many it has admitted, and a number n such that the
/// first n that have joined were of batches that closed before it started.
#[derive(Clone, Copy)]
pub(crate) struct Batch {
    pub(crate) side: u32,
    pub(crate) start: usize,
    pub(crate) close: Option<usize>,
    pub(crate) admitted: usize,
    pub(crate) settled: usize,
}

/// Returns the first of the members on a side.
pub(crate) fn first_on(members: &[Member], side: u32) -> Option<Member>
    ensures { result ≡ find (λ m. eqb m.side side) members.now }
{
    for member in members {
        if member.side == side {
            return Some(*member);
        }
    }
    None
}

/// Returns the member of a transaction, among members in ascending number. It costs one look if they are numbered from 1 without
/// a gap, and otherwise a binary search.
#[inline(always)]
pub(crate) fn find_member(members: &[Member], t: Txn) -> Option<Member>
    requires { IsAscendingBy member_number members.now }
    ensures { result ≡ find (λ m. eqb m.txn.0 t.0) members.now }
{
    let first = (t.0 as usize).saturating_sub(1);
    if first < members.len() && members[first].txn == t {
        return Some(members[first]);
    }
    match search_member(members, t) {
        Ok(i) => Some(members[i]),
        Err(_) => None,
    }
}

// Returns the place of the member of a transaction among members in ascending number, or the place where it would go, by a binary search.
fn search_member(members: &[Member], t: Txn) -> Result<usize, usize>
    requires { IsAscendingBy member_number members.now }
    ensures { result ≡ place_of member_number members.now t.0 }
{
    members.binary_search_by_key(&t.0, |member| member.txn.0)
}

/// Admits one more to the open batch of a side, or opens one at a position. Returns the number of the batch.
#[inline(always)]
pub(crate) fn enter(
    joined: &[Member],
    running: &[Member],
    batches: &mut Vec<Batch>,
    side: u32,
    at: usize,
) -> usize
    requires joined_within { All (λ m. m.batch < length batches.old.items) joined.now }
    requires settled { IsSettled joined.now batches.old.items (length joined.now) }
    requires within { All (λ m. m.batch < length batches.old.items) running.now }
    requires sides { (m : Member) → Has m running.now → m.side ≡ (batch_at batches.old.items m).side }
    requires unclosed { (m : Member) → Has m running.now → (batch_at batches.old.items m).close ≡ None }
    requires one_side { (m o : Member) → Has m running.now → Has o running.now → (batch_at batches.old.items m).side ≡ (batch_at batches.old.items o).side → m.batch ≡ o.batch }
    requires few { (m : Member) → Has m running.now → (batch_at batches.old.items m).admitted < 2 ^ 64 - 1 }
    requires room { vec_len batches.old < vec_capacity batches.old }
    ensures entered { Entered running.now batches.old.items batches.new.items side at result }
    ensures settled { IsSettled joined.now batches.new.items (length joined.now + 1) }
    ensures len { vec_len batches.new ≤ vec_len batches.old + 1 }
    ensures capacity { vec_capacity batches.old ≤ vec_capacity batches.new }
{
    match first_on(running, side) {
        Some(first) => {
            batches[first.batch].admitted += 1;
            first.batch
        }
        None => {
            let number = batches.len();
            let settled = settled_before(joined, batches, at);
            let _ = batches.push(Batch {
                side,
                start: at,
                close: None,
                admitted: 1,
                settled,
            });
            number
        }
    }
}

/// Removes a transaction from members in ascending number, if it is one of them, and returns its member.
pub(crate) fn take_out(members: &mut Vec<Member>, t: Txn) -> Option<Member>
    requires { IsAscendingBy member_number members.old.items }
    ensures member { result ≡ find (λ m. eqb m.txn.0 t.0) members.old.items }
    ensures items { members.new.items ≡ filter (λ m. not (eqb m.txn.0 t.0)) members.old.items }
    ensures len { vec_len members.new ≤ vec_len members.old }
    ensures capacity { vec_capacity members.new ≡ vec_capacity members.old }
{
    match search_member(members, t) {
        Ok(i) => Some(members.remove(i)),
        Err(_) => None,
    }
}

/// Returns whether some member is of a batch.
pub(crate) fn is_any_of(members: &[Member], batch: usize) -> bool
    ensures { result ≡ list_any (λ m. eqb m.batch batch) members.now }
{
    members.iter().any(|member| member.batch == batch)
}
