//! The texts of the sessions that hold a transaction.

ghost use Rattle.std.specs.Prelude.{◌≡◌, ◌++◌, ◌≤◌, All, IfOk, OnOk, reverse};
ghost use Rattle.std.specs.List.{flat_map};
ghost use Rattle.teb_rules.specs.declared.names.TheConstants.{SESSIONS as MOST};
ghost use Rattle.teb_rules.specs.history.OwnEvents.{own_events};
ghost use Rattle.script_text.specs.Named.{EventNamed};
ghost use Rattle.script_text.specs.Puts.{spaced};
ghost use Rattle.script_text.specs.Texts.{event_text};
ghost use Rattle.shell_lines.specs.Sessions.{done_text, held_text, held_word, holder_line, holders_text, prompt_text, session_text, sessions_text, standing_words, wait_words};

use crate::{Wait, Waits};
use line_words::{Word, name_at, put_line, put_next, put_spaced, put_word};
use script_text::put_event;
use std::alloc::{AllocError, Global};
use teb_rules::history::{Event, History};
use teb_rules::names::{NameBook, Names, SESSIONS, Session, Txn};

/// Appends the prompt, which shows each session that holds a transaction, and the transaction.
///
/// # Errors
/// `AllocError`: out of memory. A part of the prompt may be appended.
pub fn put_prompt(out: &mut Vec<u8>, history: &History) -> Result<(), AllocError>
    ensures { OnOk result (out.new.items ≡ out.old.items ++ prompt_text history.now.events) }
{
    out.extend_from_slice(b"tebaldi")?;
    put_held(out, history)?;
    out.extend_from_slice(b"> ")
}

fn put_held(out: &mut Vec<u8>, history: &History) -> Result<(), AllocError>
    ensures { OnOk result (out.new.items ≡ out.old.items ++ held_text history.now.events) }
{
    for i in 0..SESSIONS {
        put_held_word(out, history, Session(i + 1))?;
    }
    Ok(())
}

fn put_held_word(out: &mut Vec<u8>, history: &History, session: Session) -> Result<(), AllocError>
    ensures { OnOk result (out.new.items ≡ out.old.items ++ held_word history.now.events session.0) }
{
    let Some(txn) = history.held(session) else {
        return Ok(());
    };
    put_next(out, &Word::Natural(u64::from(session.0)))?;
    out.push(b':')?;
    put_word(out, &Word::Txn(txn))
}

/// Appends each session that holds a transaction, with what the transaction has done, and the end. Each event of these transactions
/// costs a step.
///
/// # Errors
/// `AllocError`: out of memory. A part of the text may be appended.
pub fn put_sessions(
    alloc: Global,
    out: &mut Vec<u8>,
    names: &NameBook,
    history: &History,
    waits: &Waits,
) -> Result<(), AllocError>
    requires { All (EventNamed names.now) (reverse history.now.events) }
    ensures { OnOk result (out.new.items ≡ out.old.items ++ sessions_text history.now.events names.now waits.now) }
{
    put_holders(alloc, out, names, history, waits)?;
    put_line(out, &Word::Text("end"), &[])
}

fn put_holders(
    alloc: Global,
    out: &mut Vec<u8>,
    names: &NameBook,
    history: &History,
    waits: &Waits,
) -> Result<(), AllocError>
    requires { All (EventNamed names.now) (reverse history.now.events) }
    ensures { OnOk result (out.new.items ≡ out.old.items ++ holders_text history.now.events names.now waits.now) }
{
    for i in 0..SESSIONS {
        put_session(alloc, out, names, history, waits, Session(i + 1))?;
    }
    Ok(())
}

fn put_session(
    alloc: Global,
    out: &mut Vec<u8>,
    names: &NameBook,
    history: &History,
    waits: &Waits,
    session: Session,
) -> Result<(), AllocError>
    requires named { All (EventNamed names.now) (reverse history.now.events) }
    requires some { 1 ≤ session.0 }
    requires few { session.0 ≤ MOST }
    ensures { OnOk result (out.new.items ≡ out.old.items ++ session_text history.now.events names.now waits.now session.0) }
{
    match history.held(session) {
        Some(txn) => {
            put_holder(out, names, history, session, txn, waits.get(session))?;
            put_done(alloc, out, names, history, txn)
        }
        None => Ok(()),
    }
}

/// Appends the line of a session that holds a transaction.
#[tactic(auto, using(line_words::proofs::Joined::more_words))]
fn put_holder(
    out: &mut Vec<u8>,
    names: &NameBook,
    history: &History,
    session: Session,
    txn: Txn,
    wait: Option<Wait>,
) -> Result<(), AllocError>
    ensures { OnOk result (out.new.items ≡ out.old.items ++ holder_line history.now.events names.now session.0 wait txn) }
{
    out.extend_from_slice(b"session")?;
    put_spaced(out, &[Word::Natural(u64::from(session.0)), Word::Txn(txn)])?;
    put_standing(out, names, history, txn, wait)?;
    out.push(b'\n')?;
    Ok(())
}

/// Appends where an open transaction stands, each word after a space.
fn put_standing(
    out: &mut Vec<u8>,
    names: &NameBook,
    history: &History,
    txn: Txn,
    wait: Option<Wait>,
) -> Result<(), AllocError>
    ensures { OnOk result (out.new.items ≡ out.old.items ++ spaced (standing_words history.now.events names.now txn wait)) }
{
    match wait {
        _ if history.is_aborted(txn) => put_next(out, &Word::Text("aborted")),
        Some(wait) if history.is_unfinished(wait.who) => put_wait(out, &names.nodes, wait),
        _ if history.is_prepared(txn) => put_next(out, &Word::Text("prepared")),
        _ => put_next(out, &Word::Text("active")),
    }
}

/// Appends the transaction that a session waits for, each word after a space.
fn put_wait(out: &mut Vec<u8>, nodes: &Names, wait: Wait) -> Result<(), AllocError>
    ensures { OnOk result (out.new.items ≡ out.old.items ++ spaced (wait_words nodes.now wait)) }
{
    put_next(out, &Word::Text("waits"))?;
    put_next(out, &Word::Txn(wait.who))?;
    put_next(out, &Word::Text("at"))?;
    put_next(out, &Word::Text(name_at(nodes, wait.node.0)))
}

/// Appends the events of a transaction, the oldest first.
fn put_done(
    alloc: Global,
    out: &mut Vec<u8>,
    names: &NameBook,
    history: &History,
    txn: Txn,
) -> Result<(), AllocError>
    requires { All (EventNamed names.now) (reverse history.now.events) }
    ensures { OnOk result (out.new.items ≡ out.old.items ++ done_text history.now.events names.now txn) }
{
    let own = own_events(alloc, history, txn)?;
    put_events(out, names, &own)
}

/// Returns the events of a transaction, the oldest first.
fn own_events(alloc: Global, history: &History, txn: Txn) -> Result<Vec<Event>, AllocError>
    ensures { IfOk result (λ own. own.items ≡ reverse (own_events history.now.events txn.0)) }
{
    let mut own: Vec<Event> = history.own_events(txn).collect(alloc)?;
    own.reverse();
    Ok(own)
}

fn put_events(out: &mut Vec<u8>, names: &NameBook, events: &[Event]) -> Result<(), AllocError>
    requires { All (EventNamed names.now) events.now }
    ensures { OnOk result (out.new.items ≡ out.old.items ++ flat_map (event_text names.now) events.now) }
{
    for event in events {
        put_event(out, names, event)?;
    }
    Ok(())
}
