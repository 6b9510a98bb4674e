//! Whether the rows that a disk has are rows of a store's tables.

ghost use Rattle.std.specs.Prelude.{◌≡◌, true, false};
ghost use Rattle.teb_rules.specs.names.Rows.{row_of};
ghost use Rattle.engine_store.specs.Opening.{AreOfTables, HasRowOutside};

use teb_rules::names::Cell;

/// Returns true if each row is of one of the first `tables` tables.
pub(crate) fn are_of_tables(rows: &[(Cell, i64)], tables: u8) -> bool
    ensures inside { result ≡ true → AreOfTables tables rows.now }
    ensures outside { result ≡ false → HasRowOutside tables (row_of rows.now) }
{
    for row in rows {
        if tables <= row.0.table.0 {
            return false;
        }
    }
    true
}
