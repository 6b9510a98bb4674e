//! The bytes of a record.

use record_journal::{Change, encode};
use std::test::Fail;
use teb_rules::names::{Cell, Table};

#[test]
fn a_record_has_these_bytes(rt: HostRuntime) -> Result<(), Fail> {
    let cell = Cell {
        table: Table(0),
        key: 2,
    };
    let value = Some(-1);
    let bytes = encode(rt.alloc(), &[Change { cell, value }])?;
    let want = [
        0, 0, 0, 1, 0, 0, 0, 0, 2, 1, 255, 255, 255, 255, 255, 255, 255, 255, 0,
    ];
    assert_eq!(rt; bytes.as_slice(), want.as_slice());
    Ok(())
}
