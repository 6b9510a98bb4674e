//! One line.

ghost use Rattle.std.specs.Prelude.{◌≡◌, [], IfOk, ℕ};
ghost use Rattle.shell_runner.specs.States.{HasNodeNames, IsReady};
ghost use Rattle.shell_runner.specs.Answers.{IsAnswered, IsUnchanging, ShowsDump, ShowsRead};
ghost use Rattle.shell_lines.specs.declared.waits.Waits.{Waits as TheWaits};
ghost use Rattle.shell_runner.specs.Runs.{IsSafely, state_of};
ghost use Rattle.shell_runner.specs.declared.step.After.TheVariants as afters;

use crate::asking::Asked;
use crate::requests::{ask, checkpoint};
use crate::{Shell, ShellStore};
use shell_lines::{
    ShellLine, Unable, put_bad, put_epoch, put_help, put_order, put_rows, put_sessions, put_tables,
    put_types, put_unable,
};
use std::alloc::{AllocError, Global};
use teb_rules::names::MOST_ROWS;
use tree_report::{put_guarantees, put_tree};
use tree_writer::put_tree_text;

/// What follows a line.
#[derive(Clone, Copy)]
pub enum After {
    /// The next line.
    Next,
    /// The next line; this one was bad.
    Bad,
    /// The end: it was asked for.
    Quit,
    /// The end: the disk has failed.
    Stopped,
}

/// Answers what a line asks, the `number`th of the input, and appends the text.
///
/// # Errors
/// Out of memory. The shell is as it was, or it has asked what the line asks.
pub(crate) fn answer<T: ShellStore>(
    alloc: Global,
    shell: Shell<T>,
    tree: &[u8],
    number: u64,
    asked: Asked,
    out: &mut Vec<u8>,
) -> (Shell<T>, Result<After, AllocError>)
    requires ready { IsReady tree.now (T.stored shell.store) }
    requires blank { out.old.items ≡ [] }
    ensures answered { IfOk result.1 (λ after. IsAnswered number (state_of T.stored shell) asked.asks out.new.items after (state_of T.stored result.0)) }
    ensures ready { IfOk result.1 (λ after. (after ≡ afters.Stopped → ⊥) → IsReady tree.now (T.stored result.0.store)) }
    ensures safe { IsSafely T.safe shell result.0 }
    ensures format { result.0.format ≡ shell.format }
{
    match asked.asks {
        ShellLine::Ask { session, request } => ask(alloc, shell, tree, session, request, out),
        ShellLine::Checkpoint => checkpoint(alloc, shell, tree, out),
        line => {
            let after = show(alloc, &shell, number, line, asked.unread, out);
            (shell, after)
        }
    }
}

/// Answers a line that changes nothing.
fn show<T: ShellStore>(
    alloc: Global,
    shell: &Shell<T>,
    number: u64,
    line: ShellLine,
    unread: Option<Unable>,
    out: &mut Vec<u8>,
) -> Result<After, AllocError>
    requires unchanging { IsUnchanging line }
    requires nodes { HasNodeNames (T.stored shell.now.store) }
    requires blank { out.old.items ≡ [] }
    ensures shown { IfOk result (λ after. IsAnswered number (state_of T.stored shell.now) line out.new.items after (state_of T.stored shell.now)) }
    ensures goes_on { IfOk result (λ after. after ≡ afters.Stopped → ⊥) }
{
    let store = &shell.store;
    let waits = &shell.waits;
    match line {
        ShellLine::Rows(range) => put_rows(alloc, out, store.names(), range, &store.rows(alloc)?)?,
        ShellLine::Order => put_order(out, &store.order(alloc)?)?,
        ShellLine::Epoch => put_epoch(out, shell.epoch, store.commits(), store.left())?,
        ShellLine::Tables => put_tables(out, &store.names().tables)?,
        ShellLine::Types => put_types(out, &store.names().types)?,
        ShellLine::Tree => put_tree(alloc, out, store.names(), &store.setup().tree)?,
        ShellLine::Guarantees => put_guarantees(out, &store.names().types, &store.setup().tree)?,
        ShellLine::Sessions => put_sessions(alloc, out, store.names(), store.history(), waits)?,
        ShellLine::Dump => return put_dump(alloc, out, number, store, shell.format),
        ShellLine::Read => return put_read(out, number, unread),
        ShellLine::Help => put_help(out)?,
        ShellLine::Bad(why) => {
            put_bad(out, number, why)?;
            return Ok(After::Bad);
        }
        ShellLine::Quit => return Ok(After::Quit),
        ShellLine::Nothing | ShellLine::Ask { .. } | ShellLine::Checkpoint => {}
    }
    Ok(After::Next)
}

/// Appends a tree text that opens as the store, or that the store has too many rows for one.
fn put_dump<T: ShellStore>(
    alloc: Global,
    out: &mut Vec<u8>,
    number: u64,
    store: &T,
    format: u8,
) -> Result<After, AllocError>
    requires { out.old.items ≡ [] }
    ensures { (epoch : ℕ) (waits : TheWaits) → IfOk result (ShowsDump number (record { stored = T.stored store.now; epoch = epoch; format = format; waits = waits }) out.new.items) }
{
    let rows = store.rows(alloc)?;
    if rows.len() > MOST_ROWS {
        put_unable(out, number, Unable::ManyRows)?;
        return Ok(After::Bad);
    }
    put_tree_text(out, format, store.setup(), &rows)?;
    Ok(After::Next)
}

/// Appends why a file was not read, if it was not.
fn put_read(out: &mut Vec<u8>, number: u64, unread: Option<Unable>) -> Result<After, AllocError>
    requires { out.old.items ≡ [] }
    ensures { IfOk result (ShowsRead number out.new.items) }
{
    match unread {
        None => Ok(After::Next),
        Some(why) => {
            put_unable(out, number, why)?;
            Ok(After::Bad)
        }
    }
}
