//! Which transaction each session waits for.

ghost use Rattle.std.specs.Prelude.{◌≡◌, ◌≤◌};
ghost use Rattle.teb_rules.specs.declared.names.TheConstants.{SESSIONS as MOST};
ghost use Rattle.shell_lines.specs.Sessions.{is_session, no_waits, noted, wait_in, wait_of};

use crate::StoreReply;
use teb_rules::names::{Node, Reply, SESSIONS, Session, Txn};

/// The transaction that a session was told to wait for, and the node where the two meet.
#[derive(Clone, Copy)]
pub struct Wait {
    pub who: Txn,
    pub node: Node,
}

/// For each session, from session 1 on, the wait that its last reply told, if it told one.
#[derive(Clone, Copy)]
pub struct Waits {
    pub by_session: [Option<Wait>; SESSIONS as usize],
}

impl Waits {
    /// No session waits.
    pub fn new() -> Waits
        ensures { result ≡ no_waits }
    {
        Waits {
            by_session: [None; SESSIONS as usize],
        }
    }

    /// Returns the wait that the last reply to a session told; `None` if it told none.
    pub fn get(&self, session: Session) -> Option<Wait>
        requires some { 1 ≤ session.0 }
        requires few { session.0 ≤ MOST }
        ensures { result ≡ wait_of self.now session.0 }
    {
        self.by_session[usize::from(session.0 - 1)]
    }

    /// Notes a reply to a session. A session that there can't be is not noted.
    pub fn note(&mut self, session: Session, reply: &StoreReply)
        ensures { self.new ≡ noted self.old session reply.now }
    {
        if is_session(session) {
            self.by_session[usize::from(session.0 - 1)] = wait_in(reply);
        }
    }
}

fn is_session(session: Session) -> bool
    ensures { result ≡ is_session session }
{
    1 <= session.0 && session.0 <= SESSIONS
}

/// Returns the transaction that a reply tells its session to wait for.
fn wait_in(reply: &StoreReply) -> Option<Wait>
    ensures { result ≡ wait_in reply.now }
{
    match reply {
        StoreReply::Reply(Reply::Again { who, node }) => Some(Wait {
            who: *who,
            node: *node,
        }),
        _ => None,
    }
}
