//! Events.

ghost use Rattle.std.specs.Prelude.{◌≡◌};
ghost use Rattle.c_forms.specs.Events.{no_event, row_event, event_form as form};

use crate::causes::{CauseForm, cause_form};
use teb_rules::history::Event;
use teb_rules::names::Cell;

/// An event as C has it. `happened` is 1 to 7 in the order of `Event`'s variants. A field that the variant does not have is 0,
/// and so is `value` unless `present`.
#[repr(C)]
#[derive(Clone, Copy)]
pub struct EventForm {
    pub happened: u8,
    pub session: u8,
    pub kind: u8,
    pub table: u8,
    pub present: bool,
    pub txn: u32,
    pub instance: u32,
    pub key: u32,
    pub from: u32,
    pub value: i64,
    pub cause: CauseForm,
}

/// Returns the form of an event.
pub fn event_form(event: &Event) -> EventForm
    ensures { result ≡ form event.now }
{
    match *event {
        Event::Began {
            txn,
            session,
            kind,
            instance,
        } => EventForm {
            session: session.0,
            kind: kind.0,
            instance,
            ..of(1, txn.0)
        },
        Event::Got {
            txn,
            cell,
            from,
            value,
        } => EventForm {
            from: from.0,
            ..of_row(2, txn.0, cell, value)
        },
        Event::Put { txn, cell, value } => of_row(3, txn.0, cell, value),
        Event::Ready(txn) => of(4, txn.0),
        Event::Done(txn) => of(5, txn.0),
        Event::Gone { txn, cause } => EventForm {
            cause: cause_form(&cause),
            ..of(6, txn.0)
        },
        Event::Told(txn) => of(7, txn.0),
    }
}

/// Returns the form of an event with a row and its value.
fn of_row(happened: u8, txn: u32, cell: Cell, value: Option<i64>) -> EventForm
    ensures { result ≡ row_event happened txn cell value }
{
    EventForm {
        table: cell.table.0,
        key: cell.key,
        present: value.is_some(),
        value: value.unwrap_or(0),
        ..of(happened, txn)
    }
}

/// Returns the form of an event that has a transaction only.
fn of(happened: u8, txn: u32) -> EventForm
    ensures { result ≡ no_event happened txn }
{
    EventForm {
        happened,
        session: 0,
        kind: 0,
        table: 0,
        present: false,
        txn,
        instance: 0,
        key: 0,
        from: 0,
        value: 0,
        cause: CauseForm::none(),
    }
}
