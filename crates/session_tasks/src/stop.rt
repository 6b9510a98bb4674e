//! The word that stops sessions.

ghost use Rattle.std.specs.Prelude.{◌≡◌, ◌≤◌, true, false};
ghost use Rattle.std.specs.Option.{IsSome};
ghost use Rattle.session_tasks.specs.Stops.{FoundRaised, FoundClear};

use std::sync::atomic::Ordering::SeqCst;
use std::sync::atomic::{AtomicIn, Rule};

/// The rule of a word that is 0 until the sessions are to stop, and then 1.
pub struct Stops;

impl Rule for Stops {
    ghost invariant = { λ n. n ≤ 1 };
}

/// Returns whether there is a word, and this look found that it is not 0.
pub(crate) fn is_raised<S: Rule>(stop: Option<&AtomicIn<S>>) -> bool
    ensures raised { result ≡ true → IsSome stop.entry × FoundRaised S.invariant }
    ensures clear { result ≡ false → IsSome stop.entry → FoundClear S.invariant }
{
    match stop {
        Some(word) => word.load(SeqCst) != 0,
        None => false,
    }
}
