//! The door of the log, at which sessions sleep until their commits are written.

use std::sync::{Condvar, Mutex, MutexGuard, Wait};
use std::{hint, thread};
use teb_rules::names::{SESSIONS, Session};

/// An entry for each session, by its number.
const VISITORS: usize = SESSIONS as usize + 1;

/// How often the session that writes looks at the door, at most, until another one comes.
const LOOKS: u32 = 16;

/// How long it waits between two looks, in passes of a loop that does nothing: some microseconds.
const SPINS: u32 = 256;

/// The door of the log. One session writes for all that have committed, while the others sleep. Those whose commits it has written leave
/// before the next write begins, and are waited for a moment, so that their next commits go with it.
///
/// It decides who sleeps and who writes, and no theorem depends on it: what the log keeps is decided at its turn.
#[derive(Drop)]
pub(crate) struct LogDoor {
    waiting: Mutex<Waiting>,
    changed: Condvar,
}

/// What sessions at the door know of each other.
#[derive(Drop)]
pub(crate) struct Waiting {
    visitors: [Visitor; VISITORS],
    is_writing: bool,
    /// How many writes there were, and two more.
    writes: u64,
    /// How many commits the log keeps, as the last write has told.
    kept: u64,
    /// True if the log has failed.
    failed: bool,
}

/// For what a session comes to the door.
#[derive(Clone, Copy, Drop)]
pub(crate) enum Errand {
    /// Its commit of this number in the life is to be kept.
    Commit(u64),
    /// It ends the epoch, and writes for that, whatever is kept.
    EpochEnd,
}

/// What the door knows of a session.
#[derive(Clone, Copy, Drop)]
struct Visitor {
    /// For what it is at the door, if it is there.
    errand: Option<Errand>,
    /// The last write that has served it, by its number; 0 if none has.
    served: u64,
}

/// How a session comes in.
#[derive(Drop)]
pub(crate) enum Pass<'a> {
    /// It looks at what the log keeps. Nobody else comes in meanwhile.
    Look(MutexGuard<'a, Waiting>),
    /// It writes. Nobody else comes in until it has left.
    Write(Session),
}

impl Waiting {
    /// True if a write has served this errand, or none will.
    fn is_settled(&self, errand: Errand) -> bool {
        self.failed
            || match errand {
                Errand::Commit(number) => number <= self.kept,
                Errand::EpochEnd => false,
            }
    }

    /// True if a session is at the door that the last write has served.
    fn is_any_leaving(&self) -> bool {
        self.visitors.iter().any(|visitor| match visitor.errand {
            Some(errand) => self.is_settled(errand),
            None => false,
        })
    }

    /// True if each session that one of the last two writes has served is at the door again.
    fn are_gathered(&self) -> bool {
        self.visitors.iter().all(|visitor| visitor.errand.is_some()
            || 2 <= self.writes.wrapping_sub(visitor.served))
    }

    /// How many sessions are at the door.
    fn present(&self) -> usize {
        self.visitors
            .iter()
            .filter(|visitor| visitor.errand.is_some())
            .count()
    }

    /// Notes for what a session is at the door.
    fn arrive(&mut self, session: Session, errand: Errand) {
        if let Some(visitor) = self.visitors.get_mut(usize::from(session.0)) {
            visitor.errand = Some(errand);
        }
    }

    /// Notes that a session goes out, which the last write has served.
    fn depart(&mut self, session: Session) {
        let served = self.writes;
        if let Some(visitor) = self.visitors.get_mut(usize::from(session.0)) {
            *visitor = Visitor {
                errand: None,
                served,
            };
        }
    }
}

impl LogDoor {
    /// Returns a door at which nobody is.
    pub(crate) fn new() -> LogDoor {
        let visitor = Visitor {
            errand: None,
            served: 0,
        };
        LogDoor {
            waiting: Mutex::new(Waiting {
                visitors: [visitor; VISITORS],
                is_writing: false,
                writes: 2,
                kept: 0,
                failed: false,
            }),
            changed: Condvar::new(),
        }
    }

    /// Waits until the session's commit is written, or it is this session's turn to write. It sleeps meanwhile.
    pub(crate) fn pass<R: Wait>(&self, rt: &R, session: Session, errand: Errand) -> Pass<'_> {
        let mut waiting = self.waiting.lock(rt);
        for _ in rt.forever() {
            if !waiting.is_writing && waiting.is_settled(errand) {
                waiting.depart(session);
                return Pass::Look(waiting);
            }
            waiting.arrive(session, errand);
            if !waiting.is_writing && !waiting.is_any_leaving() {
                waiting.is_writing = true;
                return Pass::Write(session);
            }
            waiting = self.changed.wait(rt, waiting);
        }
        unreachable!()
    }

    /// Waits for the sessions that were served lately, so that their next commits are written with this session's: until all are at the door,
    /// or none has come for a moment.
    pub(crate) fn gather<R: Wait>(&self, rt: &R) {
        let mut last = 0;
        for _ in 0..VISITORS {
            let Some(present) = self.await_another(rt, last) else {
                return;
            };
            last = present;
        }
    }

    /// Waits until more than `last` sessions are at the door, and returns how many are; `None` if none has come for a moment, or all
    /// that were served lately are there.
    fn await_another<R: Wait>(&self, rt: &R, last: usize) -> Option<usize> {
        for _ in 0..LOOKS {
            let present = {
                let waiting = self.waiting.lock(rt);
                if waiting.are_gathered() {
                    return None;
                }
                waiting.present()
            };
            if last < present {
                return Some(present);
            }
            for _ in 0..SPINS {
                hint::spin_loop();
            }
            thread::yield_now();
        }
        None
    }

    /// Goes out, and wakes those who wait for that. The log keeps `kept` commits; `failed` if it has failed.
    pub(crate) fn leave<R: Wait>(&self, rt: &R, pass: Pass<'_>, kept: u64, failed: bool) {
        match pass {
            Pass::Look(waiting) => {
                if !waiting.is_any_leaving() {
                    self.changed.notify_one();
                }
            }
            Pass::Write(session) => {
                let mut waiting = self.waiting.lock(rt);
                waiting.is_writing = false;
                waiting.writes = waiting.writes.wrapping_add(1);
                waiting.kept = kept;
                waiting.failed = failed;
                waiting.depart(session);
                self.changed.notify_all();
            }
        }
    }
}
