//! The lines of replies.

ghost use Rattle.std.specs.Prelude.{◌≡◌, ◌<◌, IsTrue, IfOk, length, nat_lt};
ghost use Rattle.std.specs.Option.{option_map};
ghost use Rattle.script_text.specs.Named.{CauseNamed, ReplyNamed};
ghost use Rattle.c_forms.specs.Lines.{line_in, is_node, is_cell, is_cause_named as names_cause, is_reply_named as names_reply};

use crate::replies::{ReplyForm, reply_in};
use script_text::put_reply;
use std::alloc::{AllocError, Global};
use teb_rules::names::{Cause, Cell, NameBook, Node, Reply, Session};

/// Returns the line of a reply to a session, or `None` if the form is that of no reply, or has a node or a table without a name.
///
/// # Errors
/// `AllocError`: out of memory.
pub fn line_of(
    alloc: Global,
    names: &NameBook,
    session: u8,
    form: &ReplyForm,
) -> Result<Option<Vec<u8>>, AllocError>
    ensures { IfOk result (λ o. option_map (λ line. line.items) o ≡ line_in names.now session form.now) }
{
    match reply_in(form) {
        Some(reply) if is_reply_named(names, &reply) => {
            let mut line = Vec::new(alloc);
            put_reply(&mut line, names, Session(session), &reply)?;
            Ok(Some(line))
        }
        _ => Ok(None),
    }
}

fn is_reply_named(names: &NameBook, reply: &Reply) -> bool
    ensures same { result ≡ names_reply names.now reply.now }
    ensures named { IsTrue result → ReplyNamed names.now reply.now }
{
    match reply {
        Reply::Again { node, .. } => has_node(names, *node),
        Reply::Aborted(cause) => is_cause_named(names, cause),
        _ => true,
    }
}

fn is_cause_named(names: &NameBook, cause: &Cause) -> bool
    ensures same { result ≡ names_cause names.now cause.now }
    ensures named { IsTrue result → CauseNamed names.now cause.now }
{
    match cause {
        Cause::Late { node, cell, .. } | Cause::First { node, cell, .. } => {
            has_node(names, *node) && has_table(names, *cell)
        }
        Cause::Pivot { node, .. } | Cause::Newer { node, .. } => has_node(names, *node),
        Cause::After(_) | Cause::Asked | Cause::Ended => true,
    }
}

fn has_node(names: &NameBook, node: Node) -> bool
    ensures same { result ≡ is_node names.now node }
    ensures named { IsTrue result → node.0 < length names.now.nodes }
{
    node.0 < names.nodes.len()
}

fn has_table(names: &NameBook, cell: Cell) -> bool
    ensures same { result ≡ is_cell names.now cell }
    ensures named { IsTrue result → cell.table.0 < length names.now.tables }
{
    cell.table.0 < names.tables.len()
}
