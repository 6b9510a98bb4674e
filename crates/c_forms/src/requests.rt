//! Requests.

ghost use Rattle.std.specs.Prelude.{◌≡◌};
ghost use Rattle.c_forms.specs.Requests.{request_in as read};

use teb_rules::names::{Cell, Kind, Request, Spot, Table};

/// A request as C has it. Each verb reads only its fields: 1 (begin) `kind` and `instance`; 2 (read) and 5 (delete) `table` and
/// `key`; 3 (write) and 4 (add) also `value`; 6 (scan) also `count`; 7 (prepare), 8 (commit), 9 (abort) and 10 (end) none.
#[repr(C)]
#[derive(Clone, Copy)]
pub struct RequestForm {
    pub verb: u8,
    pub kind: u8,
    pub table: u8,
    pub count: u8,
    pub instance: u32,
    pub key: u32,
    pub value: i64,
}

/// Returns the request that a form stands for, or `None` if its verb is that of no request.
pub fn request_in(form: &RequestForm) -> Option<Request>
    ensures { result ≡ read form.now }
{
    let cell = Cell {
        table: Table(form.table),
        key: form.key,
    };
    match form.verb {
        1 => Some(Request::Begin(Spot {
            kind: Kind(form.kind),
            instance: form.instance,
        })),
        2 => Some(Request::Read(cell)),
        3 => Some(Request::Write(cell, form.value)),
        4 => Some(Request::Add(cell, form.value)),
        5 => Some(Request::Delete(cell)),
        6 => Some(Request::Scan {
            cell,
            count: form.count,
        }),
        7 => Some(Request::Prepare),
        8 => Some(Request::Commit),
        9 => Some(Request::Abort),
        10 => Some(Request::End),
        _ => None,
    }
}
