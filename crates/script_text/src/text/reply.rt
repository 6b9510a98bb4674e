//! The texts of replies.

ghost use Rattle.std.specs.Prelude.{◌≡◌, ◌≤◌, ◌+◌, ◌*◌, ◌++◌, ◌∷◌, [], IsTrue, OnOk, OnErr, codes, decimal, false, length, map};
ghost use Rattle.short_reply.specs.ShortReplies.{full_reply};
ghost use Rattle.script_text.specs.Texts.{cause_words, line_text, name_of, refusal_text, reply_text, reply_words, txn_text, value_text};
ghost use Rattle.script_text.specs.Named.{CauseNamed, NodeNamed, ReplyNamed};
ghost use Rattle.script_text.specs.Puts.{IsLong, Puts, spaced, word_text};

use super::tail::Tail;
use super::word::{Word, node, put_cell, put_feed, put_text, put_words, whole};
use short_reply::ShortReply;
use std::alloc::AllocError;
use teb_rules::names::{Cause, NameBook, Node, Refusal, Reply, ScanList, Session, Txn};

/// Appends the line of a reply.
///
/// # Errors
/// `AllocError`: out of memory. Nothing is appended.
pub fn put_reply(
    out: &mut Vec<u8>,
    names: &NameBook,
    session: Session,
    reply: &Reply,
) -> Result<(), AllocError>
    requires { ReplyNamed names.now reply.now }
    ensures ok { OnOk result (out.new.items ≡ out.old.items ++ reply_text names.now (record { session = session; reply = reply.now })) }
    ensures err { OnErr result (out.new.items ≡ out.old.items) }
{
    match ShortReply::of(reply) {
        Some(short) => put_short_reply(out, names, session, &short),
        None => match reply {
            Reply::Values(values) => put_whole_scan(out, session, values),
            _ => unreachable!(),
        },
    }
}

// Appends the line of a reply to a scan. Out of memory, it appends nothing.
#[tactic(auto, using(crate::proofs::Wholes::kept, crate::proofs::Wholes::taken_back))]
fn put_whole_scan(out: &mut Vec<u8>, session: Session, values: &ScanList) -> Result<(), AllocError>
    ensures ok { OnOk result (out.new.items ≡ out.old.items ++ line_text (decimal session.0 ∷ codes "values" ∷ map value_text values.now)) }
    ensures err { OnErr result (out.new.items ≡ out.old.items) }
{
    let start = out.len();
    let written = put_scan(out, session, values);
    whole(out, start, written)
}

/// Appends the line of a reply without the values of a scan.
///
/// # Errors
/// `AllocError`: out of memory. Nothing is appended.
#[tactic(auto, using(crate::proofs::Wholes::kept, crate::proofs::Wholes::taken_back))]
pub fn put_short_reply(
    out: &mut Vec<u8>,
    names: &NameBook,
    session: Session,
    reply: &ShortReply,
) -> Result<(), AllocError>
    requires { ReplyNamed names.now (full_reply reply.now) }
    ensures ok { OnOk result (out.new.items ≡ out.old.items ++ reply_text names.now (record { session = session; reply = full_reply reply.now })) }
    ensures err { OnErr result (out.new.items ≡ out.old.items) }
{
    let start = out.len();
    let written = put_answered(out, names, session, reply);
    whole(out, start, written)
}

fn put_answered(
    out: &mut Vec<u8>,
    names: &NameBook,
    session: Session,
    reply: &ShortReply,
) -> Result<(), AllocError>
    requires { ReplyNamed names.now (full_reply reply.now) }
    ensures { Puts out.old.items (line_text (decimal session.0 ∷ reply_words names.now (full_reply reply.now))) out.new.items result }
{
    let mut line = Tail::new();
    if !put_short(&mut line, names, reply) {
        return put_long(out, names, session, reply);
    }
    line.put_natural(u32::from(session.0));
    out.extend_from_slice(line.as_bytes())
}

// Puts the words of a reply, each after a space, and a line feed. Returns false if they may not fit.
fn put_short(line: &mut Tail<72>, names: &NameBook, reply: &ShortReply) -> bool
    requires empty { line.old ≡ [] }
    requires named { ReplyNamed names.now (full_reply reply.now) }
    ensures text { IsTrue result → line.new ≡ spaced (reply_words names.now (full_reply reply.now)) ++ codes "\n" }
    ensures short { IsTrue result → length line.new ≤ 62 }
    ensures long { result ≡ false → IsLong reply.now }
{
    match reply {
        ShortReply::Begun(txn) => {
            line.put(b"\n");
            line.put_natural(txn.0);
            line.put(b" begun t");
        }
        ShortReply::Value(None) => line.put(b" none\n"),
        ShortReply::Value(Some(value)) => {
            line.put(b"\n");
            line.put_integer(*value);
            line.put(b" value ");
        }
        ShortReply::Done => line.put(b" done\n"),
        ShortReply::Prepared => line.put(b" prepared\n"),
        ShortReply::Committed => line.put(b" committed\n"),
        ShortReply::Refused(refusal) => {
            line.put(b"\n");
            line.put(refusal_text(*refusal).as_bytes());
            line.put(b" refused ");
        }
        ShortReply::Again { who, node } => return put_again(line, names.nodes.name(node.0), *who),
        ShortReply::Aborted(_) => return false,
    }
    true
}

// The same for a reply to ask again, if the name of the node has at most 32 bytes.
fn put_again(line: &mut Tail<72>, node: &str, who: Txn) -> bool
    requires { line.old ≡ [] }
    ensures text { IsTrue result → line.new ≡ spaced (codes "again" ∷ txn_text who ∷ codes "at" ∷ node.now ∷ []) ++ codes "\n" }
    ensures short { IsTrue result → length line.new ≤ 62 }
{
    if node.len() > 32 {
        return false;
    }
    line.put(b"\n");
    line.put(node.as_bytes());
    line.put(b" at ");
    line.put_natural(who.0);
    line.put(b" again t");
    true
}

fn put_long(
    out: &mut Vec<u8>,
    names: &NameBook,
    session: Session,
    reply: &ShortReply,
) -> Result<(), AllocError>
    requires named { ReplyNamed names.now (full_reply reply.now) }
    requires long { IsLong reply.now }
    ensures { Puts out.old.items (line_text (decimal session.0 ∷ reply_words names.now (full_reply reply.now))) out.new.items result }
{
    match reply {
        ShortReply::Again { who, node } => put_long_again(out, names, session, *who, *node),
        ShortReply::Aborted(cause) => put_aborted(out, names, session, cause),
        _ => unreachable!(),
    }
}

// Appends the line of a reply to a scan at once: its values, and at most 18 other bytes.
fn put_scan(out: &mut Vec<u8>, session: Session, values: &ScanList) -> Result<(), AllocError>
    ensures { Puts out.old.items (line_text (decimal session.0 ∷ codes "values" ∷ map value_text values.now)) out.new.items result }
{
    let mut line = Tail::new();
    line.put(b"\n");
    put_values(&mut line, values);
    line.put(b" values");
    line.put_natural(u32::from(session.0));
    out.extend_from_slice(line.as_bytes())
}

// Puts values in front, each after a space. There are at most 16, and each has at most 21 bytes with its space.
#[tactic(auto, using(crate::proofs::Wholes::one_value))]
fn put_values(line: &mut Tail<360>, values: &ScanList)
    requires { length line.old + 16 * 21 ≤ 360 }
    ensures text { line.new ≡ spaced (map value_text values.now) ++ line.old }
    ensures short { length line.new ≤ length line.old + 16 * 21 }
{
    let mut i = values.len();
    while i > 0 {
        i -= 1;
        put_value(line, values.at(i));
    }
}

// Puts a value in front, after a space.
fn put_value(line: &mut Tail<360>, value: Option<i64>)
    requires { length line.old + 21 ≤ 360 }
    ensures text { line.new ≡ codes " " ++ value_text value ++ line.old }
    ensures short { length line.new ≤ length line.old + 21 }
{
    match value {
        None => line.put(b"none"),
        Some(value) => line.put_integer(value),
    }
    line.put(b" ");
}

// Appends the line of a reply to ask again, part by part, since the name of the node may be long.
fn put_long_again(
    out: &mut Vec<u8>,
    names: &NameBook,
    session: Session,
    who: Txn,
    at: Node,
) -> Result<(), AllocError>
    requires { NodeNamed names.now at }
    ensures { Puts out.old.items (line_text (decimal session.0 ∷ codes "again" ∷ txn_text who ∷ codes "at" ∷ name_of names.now.nodes at.0 ∷ [])) out.new.items result }
{
    let at = node(names, at);
    put_session(out, session)?;
    put_words(
        out,
        &[Word::Text("again"), Word::Txn(who), Word::Text("at"), at],
    )?;
    put_feed(out)
}

// Appends the line of an abort, part by part.
fn put_aborted(
    out: &mut Vec<u8>,
    names: &NameBook,
    session: Session,
    cause: &Cause,
) -> Result<(), AllocError>
    requires { CauseNamed names.now cause.now }
    ensures { Puts out.old.items (line_text (decimal session.0 ∷ codes "aborted" ∷ cause_words names.now cause.now)) out.new.items result }
{
    put_session(out, session)?;
    put_text(out, " aborted")?;
    put_cause(out, names, cause)?;
    put_feed(out)
}

fn put_session(out: &mut Vec<u8>, session: Session) -> Result<(), AllocError>
    ensures { Puts out.old.items (decimal session.0) out.new.items result }
{
    let mut number = Tail::<10>::new();
    number.put_natural(u32::from(session.0));
    out.extend_from_slice(number.as_bytes())
}

/// Appends the words of a cause, each after a space.
///
/// # Errors
/// `AllocError`: out of memory. A part of the words may be appended.
pub fn put_cause(out: &mut Vec<u8>, names: &NameBook, cause: &Cause) -> Result<(), AllocError>
    requires { CauseNamed names.now cause.now }
    ensures { Puts out.old.items (spaced (cause_words names.now cause.now)) out.new.items result }
{
    match cause {
        Cause::Late { node, reader, cell } => {
            put_break(out, names, "late", *node, &[Word::Txn(*reader)])?;
            put_cell(out, names, *cell)
        }
        Cause::First { node, writer, cell } => {
            put_break(out, names, "first", *node, &[Word::Txn(*writer)])?;
            put_cell(out, names, *cell)
        }
        Cause::Pivot { node, a, b, c, d } => {
            let four = [Word::Txn(*a), Word::Txn(*b), Word::Txn(*c), Word::Txn(*d)];
            put_break(out, names, "pivot", *node, &four)
        }
        Cause::Newer { node, other } => {
            put_break(out, names, "newer", *node, &[Word::Txn(*other)])
        }
        Cause::After(txn) => put_words(out, &[Word::Text("after"), Word::Txn(*txn)]),
        Cause::Asked => put_words(out, &[Word::Text("asked")]),
        Cause::Ended => put_words(out, &[Word::Text("ended")]),
    }
}

// Appends the word of a break, its node, and the transaction that it names.
fn put_break(
    out: &mut Vec<u8>,
    names: &NameBook,
    word: &str,
    at: Node,
    whom: &[Word],
) -> Result<(), AllocError>
    requires { NodeNamed names.now at }
    ensures { Puts out.old.items (spaced (word.now ∷ name_of names.now.nodes at.0 ∷ map word_text whom.now)) out.new.items result }
{
    put_words(out, &[Word::Text(word), node(names, at)])?;
    put_words(out, whom)
}

fn refusal_text(refusal: Refusal) -> &'static str
    ensures text { result.now ≡ refusal_text refusal }
    ensures short { length result.now ≤ 14 }
{
    match refusal {
        Refusal::BadSession => "bad-session",
        Refusal::InTxn => "in-txn",
        Refusal::UnknownType => "unknown-type",
        Refusal::Full => "full",
        Refusal::NoTxn => "no-txn",
        Refusal::UnknownTable => "unknown-table",
        Refusal::Prepared => "prepared",
        Refusal::NotInProfile => "not-in-profile",
        Refusal::Range => "range",
        Refusal::NotRead => "not-read",
        Refusal::Overflow => "overflow",
    }
}
