//! A list that exists in proofs alone.

ghost use Rattle.std.specs.Prelude.{◌≡◌, List, [], ◌∷◌, ◌++◌};
ghost use Rattle.std.specs.Borrow.{ftrue};
ghost use base.Stored.{coded_list};

use std::marker::{Model, PhantomData, Send};
use std::mem;

/// A list for contracts alone, to which a program adds values that it does not keep. It has no bytes and owns nothing, so it may go to any
/// thread, and a store that runs for ever keeps its size.
#[derive(Drop)]
pub struct Trace<E> {
    marker: PhantomData<E>,
    pub ghost items: { List E } by { coded_list E.code },
}

impl<E> Model for Trace<E> {
    ghost also_owns = { λ _. ftrue };
}

unsafe impl<E> Send for Trace<E> {}

/// No value.
#[derive(Drop)]
struct Nothing<E> {
    marker: PhantomData<E>,
}

/// A list with one more value.
#[derive(Drop)]
struct Link<E> {
    before: Trace<E>,
    entry: E,
}

impl<E> Trace<E> {
    /// Returns the empty list.
    pub(crate) fn new() -> Trace<E>
        ensures { result.items ≡ [] }
    {
        let nothing = Nothing {
            marker: PhantomData,
        };
        Trace::none(&nothing)
    }

    fn none(nothing: &Nothing<E>) -> Trace<E>
        ensures { result.items ≡ [] }
    {
        // Only the proof uses it: it makes the list that has nothing.
        let _ = nothing;
        Trace {
            marker: PhantomData,
        }
    }

    /// Returns the list with one more value at its end.
    pub(crate) fn with(self, entry: E) -> Trace<E>
    where
        E: Drop,
        ensures { result.items ≡ self.items ++ entry ∷ [] }
    {
        let link = Link {
            before: self,
            entry,
        };
        Trace::of(&link)
    }

    /// Adds a value.
    pub(crate) fn push(&mut self, entry: E)
    where
        E: Drop,
        ensures { self.new.items ≡ self.old.items ++ entry ∷ [] }
    {
        let before = mem::replace(self, Trace::new());
        *self = before.with(entry);
    }

    fn of(link: &Link<E>) -> Trace<E>
        ensures { result.items ≡ link.now.before.items ++ link.now.entry ∷ [] }
    {
        // Only the proof uses it: it takes the items from the list and the entry.
        let _ = link;
        Trace {
            marker: PhantomData,
        }
    }
}
