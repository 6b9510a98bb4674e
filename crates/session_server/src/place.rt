//! Which session may go in at the door of a hall, as a word that sessions read without its lock.

use std::sync::atomic::AtomicU64;
use std::sync::atomic::Ordering::SeqCst;
use teb_rules::names::Session;

/// Which session may go in at a door.
#[derive(Clone, Copy, Drop)]
pub(crate) enum Place {
    /// Nobody is inside, and any session may go in.
    Offered,
    /// Nobody is inside. This session may go in at once, another one after a while.
    KeptFor(Session),
    /// A session is inside.
    Taken,
}

/// The word of [`Place::Taken`]. The word of [`Place::Offered`] is 0, and that of [`Place::KeptFor`] the number of the session.
const TAKEN: u64 = 256;

/// A place that all threads see.
#[derive(Drop)]
pub(crate) struct SharedPlace {
    word: AtomicU64,
}

impl SharedPlace {
    /// Returns a place that is offered.
    pub(crate) fn new() -> SharedPlace {
        SharedPlace {
            word: AtomicU64::new(0),
        }
    }

    pub(crate) fn set(&self, place: Place) {
        let word = match place {
            Place::Offered => 0,
            Place::KeptFor(session) => u64::from(session.0),
            Place::Taken => TAKEN,
        };
        self.word.store(word, SeqCst);
    }

    pub(crate) fn get(&self) -> Place {
        match self.word.load(SeqCst) {
            0 => Place::Offered,
            TAKEN => Place::Taken,
            number => Place::KeptFor(Session((number & 0xff) as u8)),
        }
    }
}
