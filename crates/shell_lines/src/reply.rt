//! What a session is answered.

ghost use Rattle.std.specs.Prelude.{◌≡◌, ◌++◌, OnOk, codes};
ghost use Rattle.shell_lines.specs.Answers.{StoreReplyNamed, reply_line, short_line};

use line_words::{Word, put_line};
use std::alloc::AllocError;
use teb_rules::names::{NameBook, Reply, Session};

/// What a session is answered.
#[derive(Clone, Copy)]
pub enum StoreReply {
    /// The reply of the rules.
    Reply(Reply),
    /// The epoch ends, and nothing was asked: ask again.
    Later,
    /// The file has no room for the commit, and nothing was asked.
    Full,
    /// The disk failed at the commit, which it may keep or not.
    Unsure,
}

/// Appends the line of what a session is answered.
///
/// # Errors
/// `AllocError`: out of memory. A part of the line may be appended.
pub fn put_reply(
    out: &mut Vec<u8>,
    names: &NameBook,
    session: Session,
    reply: &StoreReply,
) -> Result<(), AllocError>
    requires { StoreReplyNamed names.now reply.now }
    ensures { OnOk result (out.new.items ≡ out.old.items ++ reply_line names.now session reply.now) }
{
    match reply {
        StoreReply::Reply(reply) => script_text::put_reply(out, names, session, reply),
        StoreReply::Later => put_short(out, session, "later"),
        StoreReply::Full => put_short(out, session, "full"),
        StoreReply::Unsure => put_short(out, session, "unsure"),
    }
}

fn put_short(out: &mut Vec<u8>, session: Session, word: &str) -> Result<(), AllocError>
    ensures { OnOk result (out.new.items ≡ out.old.items ++ short_line session word.now) }
{
    put_line(
        out,
        &Word::Natural(u64::from(session.0)),
        &[Word::Text(word)],
    )
}
