//! What each use of the queue does to the token, and what it says.

ghost use Rattle.std.specs.Prelude.{◌≡◌, ◌≤◌, length};
ghost use Rattle.session_tasks.specs.pool.HandedOut.{IsRest, IsTaken};
ghost use Rattle.session_tasks.specs.pool.Waits.{IsUnused, number_at};
ghost use Rattle.session_tasks.specs.pool.Tallies.{kept_tally, new_tally, after_push, after_pop, both_tallies, spent_tally};

use crate::pool::queue::Roster;
use crate::pool::tally::Tally;
use crate::pool::waiting::Waiting;
use crossbeam_queue::protocol::{Join, Lesson, Outcome, Split};
use std::marker::PhantomData;
use version_chain::Chains;

/// A token is made of another.
pub struct Part;

impl Split<Tally> for Part {
    ghost left = { kept_tally };

    ghost right = { λ v. new_tally };
}

/// A token goes into another.
pub struct Whole;

impl Join<Tally> for Whole {
    ghost both = { both_tallies };

    ghost spent = { spent_tally };
}

/// One thing is pushed. What the queue holds is some of what was pushed.
pub struct Put;

impl<T> Outcome<T, Tally> for Put {
    ghost then = { λ v x w. w ≡ after_push v };
}

impl<T> Lesson<T, Tally> for Put {
    ghost fact = { λ v items. length items ≤ v.pushed };
}

/// One thing is taken.
pub struct Take<J> {
    roster: PhantomData<J>,
}

impl<C: Chains, J: Roster> Outcome<Waiting<C>, Tally> for Take<J> {
    ghost then = { λ v x w. (w ≡ after_pop v (number_at x)) × IsUnused J.hall x × IsTaken (length J.numbers) v w };
}

impl<C: Chains, J: Roster> Lesson<Waiting<C>, Tally> for Take<J> {
    ghost fact = { λ v items. Unit {0} };
}

/// One thing is taken by the only token left. If there is none, everything that was pushed was taken.
pub struct TakeRest<J> {
    roster: PhantomData<J>,
}

impl<C: Chains, J: Roster> Outcome<Waiting<C>, Tally> for TakeRest<J> {
    ghost then = { λ v x w. (w ≡ after_pop v (number_at x)) × IsUnused J.hall x × IsTaken (length J.numbers) v w };
}

impl<C: Chains, J: Roster> Lesson<Waiting<C>, Tally> for TakeRest<J> {
    ghost fact = { IsRest J.numbers number_at };
}
