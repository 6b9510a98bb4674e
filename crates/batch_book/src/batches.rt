//! The batches of one node.

ghost use Rattle.std.specs.Prelude.{◌≡◌, ◌<◌, ◌≤◌, ◌+◌, ◌∷◌, ◌&&◌, ℕ, [], List, length, not, eqb, ltb, cond, OnOk, IsTrue, Some, None};
ghost use Rattle.teb_rules.specs.declared.history.Event.{Event};
ghost use Rattle.teb_rules.specs.history.Phases.{begun};
ghost use Rattle.teb_rules.specs.history.Written.{txn_of};
ghost use Rattle.teb_rules.specs.Setup.{Setup};
ghost use Rattle.teb_rules.specs.Tree.{on};
ghost use Rattle.teb_rules.specs.Batches.{start, close};
ghost use Rattle.batch_book.specs.Histories.{BatchesOf, ClosedBelow, full_at, closing, Joins, Finishes, MayCome};
ghost use Rattle.batch_book.specs.Book.{has_joined, IsNew};

use crate::members::{Batch, Member, enter, find_member, first_on, is_any_of, take_out};
use crate::settled::overlap;
use std::alloc::{AllocError, Global};
use std::marker::Model;
use teb_rules::names::Txn;
use teb_rules::vectors::make_wide_room;

/// The batches of one node, as far as a history goes.
#[derive(Drop)]
pub struct Batches {
    size: u16,
    // The members that have joined, in ascending number.
    joined: Vec<Member>,
    // The unfinished members, in ascending number.
    running: Vec<Member>,
    batches: Vec<Batch>,
}

impl Model for Batches {
    ghost use Rattle.batch_book.specs.Book.{Book};

    ghost Value = { Book };

    ghost use Rattle.std.specs.Prelude.{map, min, ◌-◌, vec_len, vec_capacity};
    ghost use Rattle.batch_book.specs.Fields.{row_shown, running_shown};
    ghost use Rattle.batch_book.specs.Settled.{IsKept};

    ghost view = { λ b. record {
      size = b.size;
      rows = map (row_shown b.batches.items) b.joined.items;
      running = map (running_shown b.batches.items) b.running.items;
      spare = min (vec_capacity b.joined - vec_len b.joined) (min (vec_capacity b.running - vec_len b.running) (vec_capacity b.batches - vec_len b.batches));
    } };

    ghost invariant = { λ b. IsKept b.joined.items b.running.items b.batches.items };
}

/// `join`, `finish` and `full` go through the unfinished members. A question about a transaction costs a binary search, or one
/// look if all that have begun have joined. `join` also looks once, over all calls, at each member whose batch has closed.
impl Batches {
    /// Returns the batches of an empty history. A batch is full once it has admitted `size`.
    pub fn new(alloc: Global, size: u16) -> Self
        ensures batches { (S : Setup) (n : ℕ) → BatchesOf result S [] n }
        ensures size { result.size ≡ size }
    {
        Batches {
            size,
            joined: Vec::new(alloc),
            running: Vec::new(alloc),
            batches: Vec::new(alloc),
        }
    }

    /// Makes room for n joins.
    ///
    /// # Errors
    /// `AllocError`: out of memory. The batches are unchanged.
    pub fn reserve(&mut self, n: usize) -> Result<(), AllocError>
        ensures batches { (S : Setup) (H : List Event) (n : ℕ) → BatchesOf self.old S H n → BatchesOf self.new S H n }
        ensures size { self.new.size ≡ self.old.size }
        ensures room { OnOk result (n ≤ self.new.spare) }
    {
        make_wide_room(&mut self.joined, n)?;
        self.running.reserve(n)?;
        make_wide_room(&mut self.batches, n)?;
        Ok(())
    }

    /// Returns the least unfinished member of a side's open batch, if that has admitted its size.
    pub fn full(&self, side: u32) -> Option<Txn>
        ensures { (S : Setup) (H : List Event) (n : ℕ) → BatchesOf self.now S H n → result ≡ txn_of (full_at S H n side self.now.size) }
    {
        match first_on(&self.running, side) {
            Some(first) if self.batches[first.batch].admitted >= self.size as usize => {
                Some(first.txn)
            }
            _ => None,
        }
    }

    /// Notes the Began of t on a side, at position `at`. It takes one place of the room at most.
    #[inline(always)]
    pub fn join(&mut self, side: u32, t: Txn, at: usize)
        requires new { IsNew self.old t.0 }
        requires room { 0 < self.old.spare }
        ensures batches { (S : Setup) (P : List Event) (n : ℕ) (e : Event) → BatchesOf self.old S P n → MayCome P e → Joins S n side t.0 e → at ≡ length P → BatchesOf self.new S (e ∷ P) n }
        ensures size { self.new.size ≡ self.old.size }
        ensures spare { self.old.spare ≤ self.new.spare + 1 }
    {
        let batch = enter(&self.joined, &self.running, &mut self.batches, side, at);
        let member = Member {
            txn: t,
            side,
            batch,
        };
        let _ = self.joined.push(member);
        let _ = self.running.push(member);
    }

    /// Notes the Done or the Gone of t at position `at`, whether t has joined or not.
    pub fn finish(&mut self, t: Txn, at: usize)
        ensures batches { (S : Setup) (P : List Event) (n : ℕ) (e : Event) → BatchesOf self.old S P n → MayCome P e → Finishes t.0 e → at ≡ length P → BatchesOf self.new S (e ∷ P) n }
        ensures size { self.new.size ≡ self.old.size }
        ensures spare { self.old.spare ≤ self.new.spare }
    {
        if let Some(member) = take_out(&mut self.running, t) {
            if !is_any_of(&self.running, member.batch) {
                self.batches[member.batch].close = Some(at);
            }
        }
    }

    /// Returns whether t has joined: t has begun, with the node on its path.
    pub fn has(&self, t: Txn) -> bool
        ensures joined { result ≡ has_joined self.now t.0 }
        ensures here { (S : Setup) (H : List Event) (n : ℕ) → BatchesOf self.now S H n → result ≡ (begun H t.0 && on S H n t.0) }
    {
        find_member(&self.joined, t).is_some()
    }

    /// Returns the start of t's batch.
    pub fn start(&self, t: Txn) -> usize
        requires { IsTrue (has_joined self.now t.0) }
        ensures { (S : Setup) (H : List Event) (n : ℕ) → BatchesOf self.now S H n → result ≡ start S H n t.0 }
    {
        self.batch(t).start
    }

    /// Returns the start of the batch of t, which has begun, or `None` if the node is not on its path.
    pub fn start_of(&self, t: Txn) -> Option<usize>
        ensures { (S : Setup) (H : List Event) (n : ℕ) → BatchesOf self.now S H n → IsTrue (begun H t.0) → result ≡ cond (on S H n t.0) (Some (start S H n t.0)) None }
    {
        match find_member(&self.joined, t) {
            Some(member) => Some(self.batches[member.batch].start),
            None => None,
        }
    }

    /// Returns the close of t's batch, or `None` while it is open.
    pub fn close(&self, t: Txn) -> Option<usize>
        requires { IsTrue (has_joined self.now t.0) }
        ensures { (S : Setup) (H : List Event) (n : ℕ) → BatchesOf self.now S H n → result ≡ closing S H n t.0 }
    {
        self.batch(t).close
    }

    /// Returns whether the batch of u closed before that of t started.
    pub fn is_closed_before(&self, u: Txn, t: Txn) -> bool
        requires closed { IsTrue (has_joined self.now u.0) }
        requires started { IsTrue (has_joined self.now t.0) }
        ensures { (S : Setup) (H : List Event) (n : ℕ) → BatchesOf self.now S H n → result ≡ ltb (close S H n u.0) (start S H n t.0) }
    {
        match self.close(u) {
            Some(close) => close < self.start(t),
            None => false,
        }
    }

    /// Returns whether the batches of t and u overlap: they start at different events, and neither closed before the other started.
    #[inline(always)]
    pub fn overlap(&self, t: Txn, u: Txn) -> bool
        requires first { IsTrue (has_joined self.now t.0) }
        requires second { IsTrue (has_joined self.now u.0) }
        ensures { (S : Setup) (H : List Event) (n : ℕ) → BatchesOf self.now S H n
            → result ≡ (not (eqb (start S H n t.0) (start S H n u.0)) && not (ltb (close S H n t.0) (start S H n u.0)) && not (ltb (close S H n u.0) (start S H n t.0))) }
    {
        overlap(self.batch(t), self.batch(u))
    }

    /// Returns a transaction that has joined, such that the batch of each member with a lesser number was closed before that of t
    /// started.
    pub fn horizon(&self, t: Txn) -> Txn
        requires { IsTrue (has_joined self.now t.0) }
        ensures joined { IsTrue (has_joined self.now result.0) }
        ensures closed { (S : Setup) (H : List Event) (n : ℕ) → BatchesOf self.now S H n → ClosedBelow S H n t.0 result.0 }
    {
        let member = find_member(&self.joined, t).unwrap();
        let settled = self.batches[member.batch].settled;
        self.joined[settled].txn
    }

    // Returns the batch of t.
    fn batch(&self, t: Txn) -> Batch
        requires { IsTrue (has_joined self.now t.0) }
        ensures start { (S : Setup) (H : List Event) (n : ℕ) → BatchesOf self.now S H n → result.start ≡ start S H n t.0 }
        ensures close { (S : Setup) (H : List Event) (n : ℕ) → BatchesOf self.now S H n → result.close ≡ closing S H n t.0 }
    {
        let member = find_member(&self.joined, t).unwrap();
        self.batches[member.batch]
    }
}
