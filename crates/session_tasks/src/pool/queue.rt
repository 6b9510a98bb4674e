//! The queue of sessions: each is handed out once.

ghost use Rattle.std.specs.Prelude.{ℕ, List, [], Option};
ghost use Rattle.atomic_table.specs.Seated.{TableId};
ghost use Rattle.session_server.specs.Outfits.{Fitted};
ghost use Rattle.session_tasks.specs.pool.HandedOut.{AreHandedOut};
ghost use Rattle.session_tasks.specs.pool.Tallies.{first_tally};
ghost use Rattle.session_tasks.specs.pool.Waits.{IsUnused, number_at};

use crate::pool::tally::Tally;
use crate::pool::waiting::Waiting;
use crossbeam_queue::protocol::Protocol;
use crossbeam_queue::{Pass, RuledArrayQueue};
use std::marker::{Brand, PhantomData};
use version_chain::Chains;

/// Which sessions a queue hands out, and of which hall. Each call chooses it.
pub trait Roster {
    /// The sessions, in ascending order.
    ghost numbers: { List ℕ };

    /// Whether a table and a base are those of the hall.
    ghost hall: { TableId → Option Fitted → Type 0 };
}

impl Roster for Brand {
    ghost numbers = { [] };

    ghost hall = { λ table base. Unit {0} };
}

/// The rule that each session of a roster is handed out once, with its unused pass.
pub struct OnceEach<J> {
    roster: PhantomData<J>,
}

impl<C: Chains, J: Roster> Protocol<Waiting<C>, Tally> for OnceEach<J> {
    ghost holds = { AreHandedOut J.numbers number_at (IsUnused J.hall) };

    ghost first = { first_tally };
}

/// A queue that hands out a roster.
pub type SessionQueue<C, J> = RuledArrayQueue<Waiting<C>, Tally, OnceEach<J>>;

/// The right to use such a queue. It has no bytes, and is not the pass of a session.
pub type Token<C> = Pass<Waiting<C>, Tally>;
