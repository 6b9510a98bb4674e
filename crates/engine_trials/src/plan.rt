//! The tree of the trials, and the requests.

use teb_rules::names::{Cell, Kind, Request, Session, Spot, Table};

/// A snapshot root over a leaf of locks, a pipeline and a leaf of timestamps.
pub const TREE: &[u8] = br#"
format = 1
tables = ["stock", "orders"]
[[type]]
name = "sale"
[[type]]
name = "order"
steps = [["stock"], ["orders"]]
[[type]]
name = "report"
[[node]]
name = "root"
control = "snapshot"
[[node]]
name = "sales"
parent = "root"
control = "locks"
types = ["sale"]
[[node]]
name = "orders"
parent = "root"
control = "pipeline"
types = ["order"]
[[node]]
name = "reports"
parent = "root"
control = "timestamp"
types = ["report"]
"#;

/// A transaction of the leaf of locks.
pub const SALE: Spot = Spot {
    kind: Kind(0),
    instance: 0,
};

/// A transaction of the pipeline: the stock first, then the orders.
pub const ORDER: Spot = Spot {
    kind: Kind(1),
    instance: 0,
};

/// A transaction of the leaf of timestamps.
pub const REPORT: Spot = Spot {
    kind: Kind(2),
    instance: 0,
};

/// A row of the stock that sales change, and a report reads.
pub const SOLD: Cell = Cell {
    table: Table(0),
    key: 1,
};

/// A row of the stock that orders change.
pub const ORDERED: Cell = Cell {
    table: Table(0),
    key: 2,
};

/// A row of the orders that orders change.
pub const PLACED: Cell = Cell {
    table: Table(1),
    key: 1,
};

/// A row of the orders that reports change.
pub const REPORTED: Cell = Cell {
    table: Table(1),
    key: 2,
};

/// A session that makes none of the requests.
pub const READER: Session = Session(8);

/// How many requests there are.
pub const REQUESTS: usize = 24;

/// How many requests precede the first look at the registers.
pub const MIDST: usize = 22;

/// How many events precede the last of the requests.
pub const EVENTS: usize = 21;

/// Returns the requests of the sessions, in order.
pub fn requests() -> [(Session, Request); REQUESTS] {
    [
        (Session(1), Request::Begin(SALE)),
        (Session(1), Request::Write(SOLD, 5)),
        (Session(1), Request::Commit),
        (Session(2), Request::Begin(SALE)),
        (Session(3), Request::Begin(SALE)),
        (Session(2), Request::Read(SOLD)),
        (Session(3), Request::Read(SOLD)),
        (Session(3), Request::Write(SOLD, 7)),
        (Session(4), Request::Begin(ORDER)),
        (Session(5), Request::Begin(ORDER)),
        (Session(4), Request::Write(ORDERED, 1)),
        (Session(4), Request::Write(PLACED, 2)),
        (Session(5), Request::Write(ORDERED, 3)),
        (Session(5), Request::Write(PLACED, 4)),
        (Session(6), Request::Begin(REPORT)),
        (Session(7), Request::Begin(REPORT)),
        (Session(6), Request::Write(REPORTED, 8)),
        (Session(7), Request::Read(REPORTED)),
        (Session(6), Request::Read(SOLD)),
        (Session(2), Request::Commit),
        (Session(3), Request::Write(SOLD, 7)),
        (Session(7), Request::Commit),
        (Session(6), Request::Abort),
        (Session(7), Request::Read(REPORTED)),
    ]
}
