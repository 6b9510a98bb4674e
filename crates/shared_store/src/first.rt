//! The server as it was at first.

ghost use Rattle.std.specs.Prelude.{◌≡◌};
ghost use Rattle.std.specs.Borrow.{ftrue};

use std::marker::{Model, PhantomData, Send};

/// The server as it was at first, for contracts alone. It has no bytes and owns nothing, so it may go to any thread.
#[derive(Drop)]
pub struct First<S> {
    marker: PhantomData<S>,
    pub ghost value: { S },
}

impl<S> Model for First<S> {
    ghost also_owns = { λ _. ftrue };
}

unsafe impl<S> Send for First<S> {}

impl<S> First<S> {
    /// Returns the server as it is now.
    pub(crate) fn of(server: &S) -> First<S>
        ensures { result.value ≡ server.now }
    {
        // Only the proof uses it: it takes the value from the server.
        let _ = server;
        First {
            marker: PhantomData,
        }
    }
}
