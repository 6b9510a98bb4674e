//! The door of a hall, at which sessions sleep until they may ask.

use crate::place::{Place, SharedPlace};
use hall_server::ServerError;
use std::hint;
use std::sync::atomic::Ordering::SeqCst;
use std::sync::atomic::{AtomicBool, AtomicU64};
use std::sync::{Mutex, MutexGuard, Wait};
use std::time::Duration;
use teb_rules::names::{Reply, Request, SESSIONS, Session};

/// The pauses between two looks at the door.
const PAUSES: u32 = 4;

/// How often a session that arrives looks at the door before it rests: some microseconds.
const FIRST_LOOKS: u32 = 20;

/// How often a session looks at the door after a rest: longer than most transactions.
const LOOKS: u32 = 200;

/// After how many rests a session waits in the queue of the lock, for each session that rests.
const RESTS: u64 = 3;

/// How often a session rests at most.
const MOST_RESTS: u64 = RESTS * SESSIONS as u64;

/// How long a rest is, in microseconds.
const REST: u64 = 300;

/// The door of a hall. One session at a time is inside.
///
/// A session that is awake goes in and out again and again, and wakes nobody. The others rest for a fixed time, and then look
/// whether the door is open. It is kept for a session until its transaction ends, so that sessions seldom change in the middle of
/// one, and seldom meet a row that a resting session holds. If a session is answered Again nevertheless, the hall is *crowded*: no
/// transaction is to begin until those that are open have ended. Else each would meet rows of the others, and be aborted.
/// A session that has rested often waits in the queue of the lock, and is woken when another goes out; so nobody waits for a session
/// that stays away. While others go in and out, it rests the more often the more sessions rest: each that comes out of the queue goes
/// in amid a transaction of another, and so these stay few.
///
/// It decides who sleeps, and no theorem depends on it: the turn alone keeps the server to one session at a time.
#[derive(Drop)]
pub(crate) struct Door {
    lock: Mutex<()>,
    /// Which session may go in.
    place: SharedPlace,
    /// True if the hall is crowded.
    crowded: AtomicBool,
    /// How many sessions look at the door after a rest.
    looking: AtomicU64,
    /// How many sessions rest, or look after a rest.
    resting: AtomicU64,
}

/// What a session finds that looks at the door for a while.
#[derive(Drop)]
enum Found<'a> {
    /// It is in.
    Entry(MutexGuard<'a, ()>),
    /// Another session was inside.
    Busy,
    /// Nobody was inside at any look.
    Idle,
}

/// A session that comes to the door.
#[derive(Clone, Copy, Drop)]
pub(crate) struct Caller {
    pub(crate) session: Session,
    /// True if it asks to begin a transaction.
    pub(crate) begins: bool,
}

impl Caller {
    pub(crate) fn new(session: Session, request: Request) -> Caller {
        let begins = match request {
            Request::Begin { .. } => true,
            _ => false,
        };
        Caller { session, begins }
    }
}

impl Door {
    /// Returns a door with nobody inside.
    pub(crate) fn new() -> Door {
        Door {
            lock: Mutex::new(()),
            place: SharedPlace::new(),
            crowded: AtomicBool::new(false),
            looking: AtomicU64::new(0),
            resting: AtomicU64::new(0),
        }
    }

    /// Waits until nobody is inside, and goes in. It sleeps meanwhile, unless it is a short time.
    pub(crate) fn enter<R: Wait>(&self, rt: &R, caller: Caller) -> MutexGuard<'_, ()> {
        let inside = match self.enter_soon(caller) {
            Some(inside) => inside,
            None => self.wait(rt, caller),
        };
        self.place.set(Place::Taken);
        inside
    }

    /// Goes in if the door is open for this session within a short time. One that has rested comes first.
    fn enter_soon(&self, caller: Caller) -> Option<MutexGuard<'_, ()>> {
        for _ in 0..FIRST_LOOKS {
            let place = self.place.get();
            if let Place::Offered = place {
                if self.looking.load(SeqCst) != 0 {
                    return None;
                }
            }
            if self.is_open(place, caller) {
                if let Some(inside) = self.lock.try_lock() {
                    return Some(inside);
                }
            }
            pause();
        }
        None
    }

    /// Rests and looks, and goes in. After its last rest it waits for nobody's transaction.
    fn wait<R: Wait>(&self, rt: &R, caller: Caller) -> MutexGuard<'_, ()> {
        self.resting.fetch_add(1, SeqCst);
        let inside = self.rest(rt, caller);
        self.resting.fetch_sub(1, SeqCst);
        if let Some(inside) = inside {
            return inside;
        }
        let inside = self.lock.lock(rt);
        // The sessions that hold transactions stay away.
        self.crowded.store(false, SeqCst);
        inside
    }

    /// Rests and looks until it goes in, or has rested `RESTS` times for each session that rests. A rest after which nobody goes in and
    /// out counts as many.
    fn rest<R: Wait>(&self, rt: &R, caller: Caller) -> Option<MutexGuard<'_, ()>> {
        let mut rests: u64 = 0;
        for _ in 0..MOST_RESTS {
            let word = AtomicU64::new(0);
            word.park_timeout(rt, 0, Duration::from_micros(REST));
            self.looking.fetch_add(1, SeqCst);
            let found = self.look(caller);
            self.looking.fetch_sub(1, SeqCst);
            let resting = self.resting.load(SeqCst);
            rests = match found {
                Found::Entry(inside) => return Some(inside),
                Found::Busy => rests.saturating_add(1),
                Found::Idle => rests.saturating_add(resting),
            };
            if resting.saturating_mul(RESTS) <= rests {
                return None;
            }
        }
        None
    }

    /// Goes in as soon as the door is open for this session, after `LOOKS` looks at most. It also goes in if nobody was inside at any
    /// look and the door is kept for a session: that one stays away.
    fn look(&self, caller: Caller) -> Found<'_> {
        let mut is_kept = true;
        let mut is_idle = true;
        for _ in 0..LOOKS {
            let place = self.place.get();
            if self.is_open(place, caller) {
                if let Some(inside) = self.lock.try_lock() {
                    return Found::Entry(inside);
                }
            }
            match place {
                Place::KeptFor(_) => {}
                Place::Offered => is_kept = false,
                Place::Taken => {
                    is_kept = false;
                    is_idle = false;
                }
            }
            pause();
        }
        if is_kept {
            if let Some(inside) = self.lock.try_lock() {
                return Found::Entry(inside);
            }
        }
        if is_idle { Found::Idle } else { Found::Busy }
    }

    /// Returns true if a session may go in, as the place is.
    fn is_open(&self, place: Place, caller: Caller) -> bool {
        match place {
            Place::Offered => !caller.begins || !self.crowded.load(SeqCst),
            Place::KeptFor(next) => next.0 == caller.session.0,
            Place::Taken => false,
        }
    }

    /// Goes out after an answer, with as many live transactions as there are then.
    pub(crate) fn leave(
        &self,
        inside: MutexGuard<'_, ()>,
        session: Session,
        answer: &Result<Reply, ServerError>,
        live: usize,
    ) {
        let place = match answer {
            Ok(Reply::Again { .. }) => {
                self.crowded.store(true, SeqCst);
                Place::Offered
            }
            Ok(Reply::Committed | Reply::Aborted(_)) | Err(_) => Place::Offered,
            Ok(_) => Place::KeptFor(session),
        };
        if live == 0 {
            self.crowded.store(false, SeqCst);
        }
        self.place.set(place);
        drop(inside);
    }
}

/// Waits for some tenths of a microsecond.
fn pause() {
    for _ in 0..PAUSES {
        hint::spin_loop();
    }
}
