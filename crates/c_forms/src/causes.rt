//! Causes of an abort.

ghost use Rattle.std.specs.Prelude.{◌≡◌};
ghost use Rattle.c_forms.specs.Causes.{no_cause, cause_form as form, cause_in as read};

use teb_rules::names::{Cause, Cell, Node, Table, Txn};

/// A cause as C has it. `why` is 1 to 7 in the order of `Cause`'s variants, or 0 if there is none. A field that the variant
/// does not have is 0.
#[repr(C)]
#[derive(Clone, Copy)]
pub struct CauseForm {
    pub why: u8,
    pub node: u8,
    pub table: u8,
    pub key: u32,
    pub txn: u32,
    pub second: u32,
    pub third: u32,
    pub fourth: u32,
}

impl CauseForm {
    /// Returns the form of no cause: zeros.
    pub fn none() -> CauseForm
        ensures { result ≡ no_cause }
    {
        CauseForm {
            why: 0,
            node: 0,
            table: 0,
            key: 0,
            txn: 0,
            second: 0,
            third: 0,
            fourth: 0,
        }
    }
}

/// Returns the form of a cause.
pub fn cause_form(cause: &Cause) -> CauseForm
    ensures { result ≡ form cause.now }
{
    match *cause {
        Cause::Late { node, reader, cell } => at_cell(1, node, reader, cell),
        Cause::First { node, writer, cell } => at_cell(2, node, writer, cell),
        Cause::Pivot { node, a, b, c, d } => CauseForm {
            why: 3,
            node: node.0,
            txn: a.0,
            second: b.0,
            third: c.0,
            fourth: d.0,
            ..CauseForm::none()
        },
        Cause::Newer { node, other } => CauseForm {
            why: 4,
            node: node.0,
            txn: other.0,
            ..CauseForm::none()
        },
        Cause::After(txn) => CauseForm {
            why: 5,
            txn: txn.0,
            ..CauseForm::none()
        },
        Cause::Asked => CauseForm {
            why: 6,
            ..CauseForm::none()
        },
        Cause::Ended => CauseForm {
            why: 7,
            ..CauseForm::none()
        },
    }
}

fn at_cell(why: u8, node: Node, txn: Txn, cell: Cell) -> CauseForm
    ensures { result ≡ record no_cause { why = why; node = node.0; table = cell.table.0; key = cell.key; txn = txn.0 } }
{
    CauseForm {
        why,
        node: node.0,
        table: cell.table.0,
        key: cell.key,
        txn: txn.0,
        ..CauseForm::none()
    }
}

/// Returns the cause that a form stands for, or `None` if its `why` is that of no cause.
pub fn cause_in(form: &CauseForm) -> Option<Cause>
    ensures { result ≡ read form.now }
{
    let node = Node(form.node);
    let txn = Txn(form.txn);
    let cell = Cell {
        table: Table(form.table),
        key: form.key,
    };
    match form.why {
        1 => Some(Cause::Late {
            node,
            reader: txn,
            cell,
        }),
        2 => Some(Cause::First {
            node,
            writer: txn,
            cell,
        }),
        3 => Some(Cause::Pivot {
            node,
            a: txn,
            b: Txn(form.second),
            c: Txn(form.third),
            d: Txn(form.fourth),
        }),
        4 => Some(Cause::Newer { node, other: txn }),
        5 => Some(Cause::After(txn)),
        6 => Some(Cause::Asked),
        7 => Some(Cause::Ended),
        _ => None,
    }
}
