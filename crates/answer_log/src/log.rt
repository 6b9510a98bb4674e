//! The trait of what takes the answers of a run.

ghost use Rattle.std.specs.Prelude.{◌++◌, ◌∷◌, [], List, IsOk, OnOk};
ghost use Rattle.teb_rules.specs.declared.names.naming.NameBook.{NameBook};
ghost use Rattle.short_reply.specs.ShortReplies.{full_reply};
ghost use Rattle.script_text.specs.declared.Answered.{Answered};

use short_reply::ShortReply;
use std::alloc::AllocError;
use teb_rules::names::{NameBook, Reply, Session};

/// Takes the answers of a run, the first one first. Nodes and tables have the names of a book, which is the same at each call.
pub trait Log: Drop {
    /// The log tells these answers.
    ghost tells: { Self → NameBook → List Answered → Type 0 };

    /// There is room for one answer.
    ghost has_room: { Self → Type 0 };

    /// Makes room for one answer. It does not fail if there is room already.
    ///
    /// # Errors
    /// `AllocError`: out of memory. The log tells what it told before.
    fn ready(&mut self, names: &NameBook) -> Result<(), AllocError>
        ensures told { (answers : List Answered) → tells self.old names.now answers → tells self.new names.now answers }
        ensures room { OnOk result (has_room self.new) }
        ensures sure { has_room self.old → IsOk result };

    /// Appends the answer to a session. It uses up the room.
    fn add(&mut self, names: &NameBook, session: Session, reply: &Reply)
        requires { has_room self.old }
        ensures { (answers : List Answered) → tells self.old names.now answers
            → tells self.new names.now (answers ++ record { session = session; reply = reply.now } ∷ []) };

    /// Appends the answer to a session, one without the values of a scan. It uses up the room.
    fn add_short(&mut self, names: &NameBook, session: Session, reply: &ShortReply)
        requires { has_room self.old }
        ensures { (answers : List Answered) → tells self.old names.now answers
            → tells self.new names.now (answers ++ record { session = session; reply = full_reply reply.now } ∷ []) };
}
