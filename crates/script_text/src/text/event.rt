//! The texts of events.

ghost use Rattle.std.specs.Prelude.{◌≡◌, ◌++◌, ◌∷◌, [], OnOk, OnErr};
ghost use Rattle.std.specs.List.{join_with_byte};
ghost use Rattle.script_text.specs.Texts.{event_text, event_words, instance_words, txn_text};
ghost use Rattle.script_text.specs.Named.{EventNamed};
ghost use Rattle.script_text.specs.Puts.{Puts, spaced};
ghost use Rattle.script_text.specs.Ranges.{EventInRange};

use super::reply::put_cause;
use super::word::{Word, kind, put_cell, put_feed, put_text, put_words, whole};
use std::alloc::AllocError;
use teb_rules::history::Event;
use teb_rules::names::{NameBook, Txn};

/// Appends the line of an event.
///
/// # Errors
/// `AllocError`: out of memory. Nothing is appended.
#[tactic(auto, using(crate::proofs::Wholes::kept, crate::proofs::Wholes::taken_back))]
pub fn put_event(out: &mut Vec<u8>, names: &NameBook, event: &Event) -> Result<(), AllocError>
    requires { EventNamed names.now event.now }
    ensures ok { OnOk result (out.new.items ≡ out.old.items ++ event_text names.now event.now) }
    ensures err { OnErr result (out.new.items ≡ out.old.items) }
    ensures in_range { EventInRange event.now }
{
    let start = out.len();
    let written = put_event_line(out, names, *event);
    whole(out, start, written)
}

fn put_event_line(out: &mut Vec<u8>, names: &NameBook, event: Event) -> Result<(), AllocError>
    requires { EventNamed names.now event }
    ensures text { Puts out.old.items (event_text names.now event) out.new.items result }
    ensures in_range { EventInRange event }
{
    put_event_words(out, names, event)?;
    put_feed(out)
}

fn put_event_words(out: &mut Vec<u8>, names: &NameBook, event: Event) -> Result<(), AllocError>
    requires { EventNamed names.now event }
    ensures text { Puts out.old.items (join_with_byte 32 (event_words names.now event)) out.new.items result }
    ensures in_range { EventInRange event }
{
    match event {
        Event::Began {
            txn,
            session,
            kind: of,
            instance,
        } => {
            put_first_words(out, "began", txn)?;
            put_words(out, &[Word::Session(session), kind(names, of)])?;
            put_instance(out, instance)
        }
        Event::Got {
            txn,
            cell,
            from,
            value,
        } => {
            put_first_words(out, "got", txn)?;
            put_cell(out, names, cell)?;
            put_words(out, &[Word::Txn(from), Word::Value(value)])
        }
        Event::Put { txn, cell, value } => {
            put_first_words(out, "put", txn)?;
            put_cell(out, names, cell)?;
            put_words(out, &[Word::Value(value)])
        }
        Event::Ready(txn) => put_first_words(out, "ready", txn),
        Event::Done(txn) => put_first_words(out, "done", txn),
        Event::Gone { txn, cause } => {
            put_first_words(out, "gone", txn)?;
            put_cause(out, names, &cause)
        }
        Event::Told(txn) => put_first_words(out, "told", txn),
    }
}

// Appends the first two words of a line: what happened, and the transaction.
fn put_first_words(out: &mut Vec<u8>, what: &str, txn: Txn) -> Result<(), AllocError>
    ensures { Puts out.old.items (what.now ++ spaced (txn_text txn ∷ [])) out.new.items result }
{
    put_text(out, what)?;
    put_words(out, &[Word::Txn(txn)])
}

fn put_instance(out: &mut Vec<u8>, instance: u32) -> Result<(), AllocError>
    ensures { Puts out.old.items (spaced (instance_words instance)) out.new.items result }
{
    if instance == 0 {
        Ok(())
    } else {
        put_words(out, &[Word::Natural(instance)])
    }
}
