//! Gates that hold sessions back: one until another was answered, or each until all have come.

use session_tasks::Gate;
use std::sync::atomic::Ordering::SeqCst;
use std::sync::atomic::{AtomicBool, AtomicU64};
use std::thread;
use teb_rules::names::Session;

/// How often a held session looks at most.
const LOOKS: u32 = 10_000_000;

/// How often a session looks at most that is held in vain: long enough for another worker to serve two sessions.
const LOOKS_IN_VAIN: u32 = 3_000;

/// A line of a session, by its number among all lines of the script.
#[derive(Clone, Copy, PartialEq, Eq)]
pub(crate) struct SessionLine {
    pub session: Session,
    pub line: u32,
}

/// Holds a line of one session back until a line of another was answered, or until the limit of looks.
#[derive(Drop)]
pub(crate) struct Hold {
    held: SessionLine,
    awaited: SessionLine,
    looks: u32,
    answered: AtomicBool,
    gave_up: AtomicBool,
}

impl Hold {
    pub(crate) fn new(held: SessionLine, awaited: SessionLine) -> Hold {
        Hold::with_looks(held, awaited, LOOKS)
    }

    /// Returns a hold for a line that is not to be answered meanwhile: its limit of looks is lower.
    pub(crate) fn in_vain(held: SessionLine, awaited: SessionLine) -> Hold {
        Hold::with_looks(held, awaited, LOOKS_IN_VAIN)
    }

    fn with_looks(held: SessionLine, awaited: SessionLine, looks: u32) -> Hold {
        Hold {
            held,
            awaited,
            looks,
            answered: AtomicBool::new(false),
            gave_up: AtomicBool::new(false),
        }
    }

    /// Returns true if the limit of looks was reached.
    pub(crate) fn gave_up(&self) -> bool {
        self.gave_up.load(SeqCst)
    }

    /// Looks for the answer until it has come, or until the limit of looks, and says whether it has.
    fn sees_answer(&self) -> bool {
        for _ in 0..self.looks {
            if self.answered.load(SeqCst) {
                return true;
            }
            thread::yield_now();
        }
        false
    }
}

impl Gate for Hold {
    fn before(&self, session: Session, line: u32) {
        if (SessionLine { session, line }) == self.held && !self.sees_answer() {
            self.gave_up.store(true, SeqCst);
        }
    }

    fn after(&self, session: Session, line: u32) {
        if (SessionLine { session, line }) == self.awaited {
            self.answered.store(true, SeqCst);
        }
    }
}

/// How many lines each session has that comes to a [`Meeting`].
const LINES: u32 = 3;

/// Holds each session at its first line until so many sessions have come to theirs, or until the limit of looks.
#[derive(Drop)]
pub(crate) struct Meeting {
    sessions: u64,
    come: AtomicU64,
    gave_up: AtomicBool,
}

impl Meeting {
    pub(crate) fn new(sessions: u64) -> Meeting {
        Meeting {
            sessions,
            come: AtomicU64::new(0),
            gave_up: AtomicBool::new(false),
        }
    }

    /// Returns true if the limit of looks was reached.
    pub(crate) fn gave_up(&self) -> bool {
        self.gave_up.load(SeqCst)
    }

    /// Looks until all sessions have come, or until the limit of looks, and says whether they have.
    fn sees_all(&self) -> bool {
        for _ in 0..LOOKS {
            if self.come.load(SeqCst) >= self.sessions {
                return true;
            }
            thread::yield_now();
        }
        false
    }
}

impl Gate for Meeting {
    fn before(&self, _session: Session, line: u32) {
        if line % LINES == 1 {
            self.come.fetch_add(1, SeqCst);
            if !self.sees_all() {
                self.gave_up.store(true, SeqCst);
            }
        }
    }

    fn after(&self, _session: Session, _line: u32) {}
}

/// A gate that holds nobody.
pub(crate) struct Unheld;

impl Gate for Unheld {
    fn before(&self, _session: Session, _line: u32) {}

    fn after(&self, _session: Session, _line: u32) {}
}
