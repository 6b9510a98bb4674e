//! What an epoch store asks of the engine that it keeps.

ghost use Rattle.std.specs.Prelude.{◌≡◌, ◌+◌, ◌≤◌, ◌^◌, ◌++◌, ◌∷◌, [], Bool, List, ℕ, length, true, IsTrue, IfOk, OnOk, OnErr, IsErrOf};
ghost use Rattle.teb_rules.specs.declared.names.Session.{Session as TheSession};
ghost use Rattle.teb_rules.specs.declared.names.Request.{Request as TheRequest};
ghost use Rattle.teb_rules.specs.declared.names.Reply.TheVariants as replies;
ghost use Rattle.teb_rules.specs.declared.names.naming.NameBook.{NameBook as TheNames};
ghost use Rattle.teb_rules.specs.declared.history.Event.{Event};
ghost use Rattle.teb_rules.specs.Setup.{Store};
ghost use Rattle.teb_rules.specs.Answer.{answer};
ghost use Rattle.teb_rules.specs.laws.Lawful.{Lawful};
ghost use Rattle.record_journal.specs.Format.{Record};
ghost use Rattle.record_journal.specs.Journal.{IsBody};

use std::alloc::{AllocError, Global};
use teb_rules::history::History;
use teb_rules::names::{Cell, Reply, Request, Session};

/// Why there is no record of a commit.
#[derive(Clone, Copy, Debug, PartialEq, Eq)]
pub enum PrepareError {
    /// The record may need more bytes than are left.
    Full,
    OutOfMemory,
}

/// An engine that answers requests one after another as the rules do, cannot fail while it answers, and can tell the record of a commit
/// before it makes it.
pub trait Recorder {
    ghost store: { Self → Store };

    ghost names: { Self → TheNames };

    ghost events: { Self → List Event };

    /// The records of all commits, the oldest first.
    ghost records: { Self → List Record };

    /// Whether there is room for the events of one answer.
    ghost ready: { Self → Bool };

    /// The bytes are the body of the record that the request would commit, if it commits.
    ghost prepared: { Self → TheSession → TheRequest → List ℕ → Type 0 };

    /// The request may commit a record that does not fit this number of bytes.
    ghost lacks: { Self → ℕ → TheSession → TheRequest → Type 0 };

    /// Returns the body of the record that a request would commit, which with the gate of the record takes no more than `left` bytes.
    ///
    /// # Errors
    /// `Full` if the record may need more than `left` bytes; `OutOfMemory`.
    fn body(
        &self,
        alloc: Global,
        left: u64,
        session: Session,
        request: Request,
    ) -> Result<Vec<u8>, PrepareError>
        requires left { (1 ≤ left) × (left ≤ 2 ^ 32) }
        ensures prepared { IfOk result (λ bytes. prepared self.now session request bytes.items) }
        ensures fits { IfOk result (λ bytes. length bytes.items + 1 ≤ left) }
        ensures room { OnOk result (lacks self.now left session request → ⊥) }
        ensures full { IsErrOf result PrepareError.Full → lacks self.now left session request };

    /// Makes room for the events of one answer.
    ///
    /// # Errors
    /// `AllocError`: out of memory. Nothing changes.
    fn make_ready(&mut self) -> Result<(), AllocError>
        ensures store { store self.new ≡ store self.old }
        ensures names { names self.new ≡ names self.old }
        ensures events { events self.new ≡ events self.old }
        ensures records { records self.new ≡ records self.old }
        ensures prepared { (s : TheSession) (r : TheRequest) (bytes : List ℕ) → prepared self.old s r bytes → prepared self.new s r bytes }
        ensures ready { OnOk result (ready self.new ≡ true) }
        ensures unchanged { OnErr result (self.new ≡ self.old) };

    /// Answers a request.
    fn answer(&mut self, session: Session, request: Request) -> Reply
        requires { IsTrue (ready self.old) }
        ensures reply { result ≡ (answer (store self.old) (events self.old) session request).0 }
        ensures events { events self.new ≡ (answer (store self.old) (events self.old) session request).1 }
        ensures store { store self.new ≡ store self.old }
        ensures names { names self.new ≡ names self.old }
        ensures others { (result ≡ replies.Committed → ⊥) → records self.new ≡ records self.old }
        ensures commits { (bytes : List ℕ) → result ≡ replies.Committed → prepared self.old session request bytes
            → (r : Record) × IsBody r bytes × (records self.new ≡ records self.old ++ r ∷ []) };

    /// Returns the rows that the store began with.
    fn rows(&self) -> &[(Cell, i64)]
        ensures { result.now ≡ (store self.now).rows };

    /// Returns what has happened so far.
    fn history(&self) -> &History
        ensures events { result.now.events ≡ events self.now }
        ensures lawful { Lawful (store self.now).setup (events self.now) };
}
