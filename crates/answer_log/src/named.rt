//! Whether everything that a reply names has a name.

ghost use Rattle.std.specs.Prelude.{◌≡◌};
ghost use Rattle.short_reply.specs.ShortReplies.{full_reply};
ghost use Rattle.answer_log.specs.Lines.{is_cell_named, is_cause_named, is_node_named, is_reply_named};

use short_reply::ShortReply;
use teb_rules::names::{Cause, Cell, NameBook, Node};

pub(crate) fn is_named(names: &NameBook, reply: &ShortReply) -> bool
    ensures { result ≡ is_reply_named names.now (full_reply reply.now) }
{
    match reply {
        ShortReply::Again { node, .. } => is_node_named(names, *node),
        ShortReply::Aborted(cause) => is_cause_named(names, cause),
        _ => true,
    }
}

fn is_cause_named(names: &NameBook, cause: &Cause) -> bool
    ensures { result ≡ is_cause_named names.now cause.now }
{
    match cause {
        Cause::Late { node, cell, .. } | Cause::First { node, cell, .. } => {
            is_node_named(names, *node) && is_cell_named(names, *cell)
        }
        Cause::Pivot { node, .. } | Cause::Newer { node, .. } => is_node_named(names, *node),
        Cause::After(_) | Cause::Asked | Cause::Ended => true,
    }
}

fn is_node_named(names: &NameBook, node: Node) -> bool
    ensures { result ≡ is_node_named names.now node }
{
    node.0 < names.nodes.len()
}

fn is_cell_named(names: &NameBook, cell: Cell) -> bool
    ensures { result ≡ is_cell_named names.now cell }
{
    cell.table.0 < names.tables.len()
}
