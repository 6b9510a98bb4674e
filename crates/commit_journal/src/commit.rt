//! The record of a commit: its changes to the cells that it has put.

ghost use Rattle.std.specs.Prelude.{◌≡◌, ◌≤◌, ◌^◌, length, None, IsTrue, IfOk, OnOk, IsErrOf, if◌then◌else◌, ◌++◌, ◌∷◌, []};
ghost use Rattle.teb_rules.specs.history.Accesses.{wrote};
ghost use Rattle.teb_rules.specs.history.Phases.{unfinished};
ghost use Rattle.teb_rules.specs.history.Written.{txn_of};
ghost use Rattle.commit_laws.specs.Records.{puts_of as all_puts, is_newest as newest, record_of as changes_of, has};
ghost use Rattle.commit_journal.specs.Answered.{IsBodyFor};
ghost use Rattle.commit_journal.specs.Kept.{committing as committed_by, counts, with_event, AreCells, IsFull};
ghost use Rattle.version_chain.specs.Lists.{last_place, writers_of};
ghost use Rattle.commit_journal.specs.declared.error.BodyError.TheVariants as errors;

use crate::BodyError;
use engine_core::Engine;
use record_journal::{CHANGE_BYTES, Change, FRAME_BYTES, encode};
use std::alloc::{AllocError, Global};
use std::collections::BTreeSet;
use teb_rules::history::{Event, History};
use teb_rules::names::{Cell, Request, Session, Txn};
use version_chain::Chains;

/// Returns the body of the record that a request would commit; no bytes if it would commit nothing. `left` is the number of bytes
/// left for the record and its gate byte. It costs a look at the versions of each cell that was put.
///
/// # Errors
/// `Full` if a record of all cells that were put would take more bytes than are left. `OutOfMemory`: out of memory. The engine is
/// only read.
pub fn body_of<C: Chains>(
    alloc: Global,
    engine: &Engine<C>,
    left: u64,
    session: Session,
    request: Request,
) -> Result<Vec<u8>, BodyError>
    requires { left ≤ 2 ^ 32 }
    ensures body { IfOk result (λ bytes. IsBodyFor engine.now.store engine.now.events session request bytes.items) }
    ensures none { IfOk result (λ bytes. committed_by engine.now.events session request ≡ None → bytes.items ≡ []) }
    ensures fits { OnOk result (IsFull engine.now.events left session request → ⊥) }
    ensures full { IsErrOf result errors.Full → IsFull engine.now.events left session request }
{
    let t = match committing(engine.history(), session, request) {
        None => return Ok(Vec::new(alloc)),
        Some(t) => t,
    };
    let puts = puts_of(alloc, engine.history(), t)?;
    if left < FRAME_BYTES as u64 + CHANGE_BYTES as u64 * puts.len() as u64 {
        return Err(BodyError::Full);
    }
    let changes = record_of(alloc, engine, &puts, t)?;
    let bytes = encode(alloc, &changes)?;
    Ok(bytes)
}

// Returns the unfinished transaction that a session holds and asks to commit.
#[tactic(auto, using(crate::proofs::Asked::not_commit, crate::proofs::Asked::committing_some, crate::proofs::Asked::committing_none))]
fn committing(history: &History, session: Session, request: Request) -> Option<Txn>
    ensures { result ≡ txn_of (committed_by history.now.events session request) }
{
    if request != Request::Commit {
        return None;
    }
    let t = history.held(session)?;
    if history.is_unfinished(t) {
        Some(t)
    } else {
        None
    }
}

// Returns a transaction's last Put of each cell that it has put, the newest first.
fn puts_of(alloc: Global, history: &History, t: Txn) -> Result<Vec<Change>, AllocError>
    ensures { IfOk result (λ found. found.items ≡ all_puts history.now.events t.0) }
{
    let mut puts = Vec::new(alloc);
    let mut cells = BTreeSet::new(alloc);
    for event in history.own_events(t) {
        add_event(&mut puts, &mut cells, event)?;
    }
    Ok(puts)
}

// Adds a Put of a cell that is not there yet. The cells are those of the changes.
fn add_event(
    puts: &mut Vec<Change>,
    cells: &mut BTreeSet<Cell>,
    event: Event,
) -> Result<(), AllocError>
    requires { AreCells cells.old puts.old.items }
    ensures cells { OnOk result (AreCells cells.new puts.new.items) }
    ensures puts { OnOk result (puts.new.items ≡ with_event puts.old.items event) }
{
    match event {
        Event::Put { cell, value, .. } => add_put(puts, cells, cell, value),
        _ => Ok(()),
    }
}

#[tactic(auto, using(crate::proofs::Puts::cells_more, crate::proofs::Puts::cells_same, crate::proofs::Puts::put_or_not))]
fn add_put(
    puts: &mut Vec<Change>,
    cells: &mut BTreeSet<Cell>,
    cell: Cell,
    value: Option<i64>,
) -> Result<(), AllocError>
    requires { AreCells cells.old puts.old.items }
    ensures cells { OnOk result (AreCells cells.new puts.new.items) }
    ensures puts { OnOk result (puts.new.items ≡ (if has puts.old.items cell then puts.old.items else puts.old.items ++ record { cell = cell; value = value } ∷ [])) }
{
    if !cells.insert(cell)? {
        return Ok(());
    }
    puts.push(Change { cell, value })?;
    Ok(())
}

// Returns those of the last Puts of a transaction that is about to commit which no committed version follows.
fn record_of<C: Chains>(
    alloc: Global,
    engine: &Engine<C>,
    puts: &[Change],
    t: Txn,
) -> Result<Vec<Change>, AllocError>
    requires puts { puts.now ≡ all_puts engine.now.events t.0 }
    requires unfinished { IsTrue (unfinished engine.now.events t.0) }
    ensures changes { IfOk result (λ found. found.items ≡ changes_of engine.now.store.setup engine.now.events t.0) }
    ensures few { IfOk result (λ found. length found.items ≤ length puts.now) }
{
    let mut changes = Vec::new(alloc);
    for change in puts {
        if is_newest(engine, change.cell, t) {
            changes.push(*change)?;
        }
    }
    Ok(changes)
}

// Returns whether no committed version of a cell follows that of a transaction which has put it. It costs the versions after that
// one.
fn is_newest<C: Chains>(engine: &Engine<C>, cell: Cell, t: Txn) -> bool
    requires put { IsTrue (wrote engine.now.events t.0 cell) }
    requires unfinished { IsTrue (unfinished engine.now.events t.0) }
    ensures { result ≡ newest engine.now.store.setup engine.now.events t.0 cell }
{
    let chains = engine.chains();
    match last_counted(engine.history(), chains, cell, t) {
        Some(i) => chains.at(cell, i).0 == t,
        None => true,
    }
}

// Returns the place of the last version of a cell whose writer is t or is committed.
fn last_counted<C: Chains>(history: &History, chains: &C, cell: Cell, t: Txn) -> Option<usize>
    ensures { result ≡ last_place (counts history.now.events t.0) (writers_of (C.lists chains.now cell)) }
{
    chains.last_where(cell, &|w: Txn| is_counted(history, w, t))
}

fn is_counted(history: &History, w: Txn, t: Txn) -> bool
    ensures { result ≡ counts history.now.events t.0 w.0 }
{
    w == t || history.is_committed(w)
}
