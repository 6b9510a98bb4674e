//! The text of answers.

ghost use Rattle.std.specs.Prelude.{◌≡◌, ◌++◌, [], All, IfOk, List, OnErr, OnOk};
ghost use Rattle.std.specs.List.{flat_map};
ghost use Rattle.teb_rules.specs.declared.names.naming.NameBook.{NameBook};
ghost use Rattle.short_reply.specs.ShortReplies.{full_reply};
ghost use Rattle.script_text.specs.declared.Answered.{Answered};
ghost use Rattle.script_text.specs.Named.{ReplyNamed};
ghost use Rattle.script_text.specs.Texts.{reply_text};
ghost use Rattle.answer_log.specs.Lines.{line_of};
ghost use Rattle.answer_log.specs.Telling.{HasLines};

use crate::Log;
use crate::named::is_named;
use script_text::{Answered, put_reply, put_short_reply};
use short_reply::ShortReply;
use std::alloc::{AllocError, Global};
use teb_rules::names::{NameBook, Reply, Session};

/// The text of answers, a line for each, written at once. An answer that names a node or a table without a name gets no line.
#[derive(Drop)]
pub struct ReplyText {
    text: Vec<u8>,
    // The last reply, if there was no memory for its line yet.
    waiting: Option<Answered>,
}

impl ReplyText {
    /// Returns the text of no answers. Takes no memory.
    pub fn new(alloc: Global) -> ReplyText
        ensures { (names : NameBook) → HasLines result names [] }
    {
        ReplyText {
            text: Vec::new(alloc),
            waiting: None,
        }
    }

    /// Returns the text of no answers. It reuses the memory of these bytes, whose contents are dropped. So no large block is
    /// freed, and none is allocated before the text is longer than they were.
    pub fn reusing(mut bytes: Vec<u8>) -> ReplyText
        ensures { (names : NameBook) → HasLines result names [] }
    {
        bytes.clear();
        ReplyText {
            text: bytes,
            waiting: None,
        }
    }

    /// Returns the whole text.
    ///
    /// # Errors
    /// `AllocError`: out of memory for a line that waits. The text is dropped.
    pub fn into_text(mut self, names: &NameBook) -> Result<Vec<u8>, AllocError>
        ensures { (answers : List Answered) → HasLines self names.now answers → All (λ a. ReplyNamed names.now a.reply) answers
            → IfOk result (λ text. text.items ≡ flat_map (reply_text names.now) answers) }
    {
        self.ready(names)?;
        Ok(self.text)
    }
}

impl Log for ReplyText {
    ghost use Rattle.std.specs.Prelude.{◌≡◌, None};
    ghost use Rattle.answer_log.specs.Telling.{HasLines};

    ghost tells = { HasLines };

    ghost has_room = { λ log. log.waiting ≡ None };

    /// Writes the waiting line, if there is one.
    fn ready(&mut self, names: &NameBook) -> Result<(), AllocError> {
        if let Some(Answered { session, reply }) = &self.waiting {
            put_line(&mut self.text, names, *session, reply)?;
            self.waiting = None;
        }
        Ok(())
    }

    /// Writes a line. If there is no memory for it, the line waits.
    fn add(&mut self, names: &NameBook, session: Session, reply: &Reply) {
        if put_line(&mut self.text, names, session, reply).is_err() {
            let reply = *reply;
            self.waiting = Some(Answered { session, reply });
        }
    }

    /// Writes a line. If there is no memory for it, the line waits.
    fn add_short(&mut self, names: &NameBook, session: Session, reply: &ShortReply) {
        if put_short_line(&mut self.text, names, session, reply).is_err() {
            let reply = reply.full();
            self.waiting = Some(Answered { session, reply });
        }
    }
}

/// Appends the line of a reply. Out of memory, it appends nothing.
fn put_line(
    out: &mut Vec<u8>,
    names: &NameBook,
    session: Session,
    reply: &Reply,
) -> Result<(), AllocError>
    ensures ok { OnOk result (out.new.items ≡ out.old.items ++ line_of names.now (record { session = session; reply = reply.now })) }
    ensures err { OnErr result (out.new.items ≡ out.old.items) }
{
    match ShortReply::of(reply) {
        Some(short) => put_short_line(out, names, session, &short),
        None => put_reply(out, names, session, reply),
    }
}

/// Appends the line of an answer without the values of a scan. Out of memory, it appends nothing.
fn put_short_line(
    out: &mut Vec<u8>,
    names: &NameBook,
    session: Session,
    reply: &ShortReply,
) -> Result<(), AllocError>
    ensures ok { OnOk result (out.new.items ≡ out.old.items ++ line_of names.now (record { session = session; reply = full_reply reply.now })) }
    ensures err { OnErr result (out.new.items ≡ out.old.items) }
{
    if is_named(names, reply) {
        put_short_reply(out, names, session, reply)
    } else {
        Ok(())
    }
}
