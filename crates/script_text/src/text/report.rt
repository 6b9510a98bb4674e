//! The texts of rows and reports.

ghost use Rattle.std.specs.Prelude.{◌≡◌, ◌++◌, ◌∷◌, [], All, IsTrue, OnOk, OnErr, codes, decimal, map};
ghost use Rattle.std.specs.Fmt.{signed_decimal};
ghost use Rattle.teb_rules.specs.names.Rows.{IsAscending};
ghost use Rattle.script_text.specs.Texts.{line_text, recovered_text, report_text, row_text, rows_text, starts_text, txn_text};
ghost use Rattle.script_text.specs.Named.{CellNamed, RowsNamed};
ghost use Rattle.script_text.specs.Puts.{Puts, spaced};
ghost use Rattle.script_text.specs.Ranges.{RowInRange};

use super::tail::Tail;
use super::word::{Word, put_feed, put_line, put_spaced, put_text, table, whole};
use std::alloc::AllocError;
use teb_rules::names::{Cell, NameBook, Rows, Txn};

/// Appends a report: the serial order, the final rows, and the end.
///
/// # Errors
/// `AllocError`: out of memory. Nothing is appended.
#[tactic(auto, using(crate::proofs::Wholes::kept, crate::proofs::Wholes::taken_back))]
pub fn put_report(
    out: &mut Vec<u8>,
    names: &NameBook,
    order: &[Txn],
    rows: &[(Cell, i64)],
) -> Result<(), AllocError>
    requires { RowsNamed names.now rows.now }
    ensures ok { OnOk result (out.new.items ≡ out.old.items ++ report_text names.now order.now rows.now) }
    ensures err { OnErr result (out.new.items ≡ out.old.items) }
{
    let start = out.len();
    let written = put_report_lines(out, names, order, rows);
    whole(out, start, written)
}

/// Appends how many commits are recovered, the rows that they leave, and the end.
///
/// # Errors
/// `AllocError`: out of memory. Nothing is appended.
#[tactic(auto, using(crate::proofs::Wholes::kept, crate::proofs::Wholes::taken_back))]
pub fn put_recovered(
    out: &mut Vec<u8>,
    names: &NameBook,
    commits: u32,
    rows: &[(Cell, i64)],
) -> Result<(), AllocError>
    requires { RowsNamed names.now rows.now }
    ensures ok { OnOk result (out.new.items ≡ out.old.items ++ recovered_text names.now commits rows.now) }
    ensures err { OnErr result (out.new.items ≡ out.old.items) }
{
    let start = out.len();
    let written = put_recovered_lines(out, names, commits, rows);
    whole(out, start, written)
}

/// Appends a line for each starting row.
///
/// # Errors
/// `AllocError`: out of memory. Nothing is appended.
#[tactic(auto, using(crate::proofs::Wholes::kept, crate::proofs::Wholes::taken_back))]
pub fn put_starts(out: &mut Vec<u8>, names: &NameBook, rows: &Rows) -> Result<(), AllocError>
    requires { RowsNamed names.now rows.now }
    ensures ok { OnOk result (out.new.items ≡ out.old.items ++ starts_text names.now rows.now) }
    ensures err { OnErr result (out.new.items ≡ out.old.items) }
    ensures in_range { OnOk result (All RowInRange rows.now) }
    ensures ascending { IsAscending rows.now }
{
    let start = out.len();
    let written = put_rows(out, names, "start", rows.rows());
    whole(out, start, written)
}

fn put_report_lines(
    out: &mut Vec<u8>,
    names: &NameBook,
    order: &[Txn],
    rows: &[(Cell, i64)],
) -> Result<(), AllocError>
    requires { RowsNamed names.now rows.now }
    ensures { Puts out.old.items (report_text names.now order.now rows.now) out.new.items result }
{
    put_order(out, order)?;
    put_rows(out, names, "row", rows)?;
    put_line(out, "end", &[])
}

fn put_recovered_lines(
    out: &mut Vec<u8>,
    names: &NameBook,
    commits: u32,
    rows: &[(Cell, i64)],
) -> Result<(), AllocError>
    requires { RowsNamed names.now rows.now }
    ensures { Puts out.old.items (recovered_text names.now commits rows.now) out.new.items result }
{
    put_line(out, "recovered", &[Word::Natural(commits)])?;
    put_rows(out, names, "row", rows)?;
    put_line(out, "end", &[])
}

fn put_order(out: &mut Vec<u8>, order: &[Txn]) -> Result<(), AllocError>
    ensures { Puts out.old.items (line_text (codes "order" ∷ map txn_text order.now)) out.new.items result }
{
    put_text(out, "order")?;
    put_numbers(out, order)?;
    put_feed(out)
}

fn put_numbers(out: &mut Vec<u8>, txns: &[Txn]) -> Result<(), AllocError>
    ensures { Puts out.old.items (spaced (map txn_text txns.now)) out.new.items result }
{
    for txn in txns {
        put_spaced(out, &Word::Txn(*txn))?;
    }
    Ok(())
}

/// Appends the lines of these rows, each of which begins with this word.
fn put_rows<'a>(
    out: &mut Vec<u8>,
    names: &'a NameBook,
    word: &'a str,
    rows: &[(Cell, i64)],
) -> Result<(), AllocError>
    requires { RowsNamed names.now rows.now }
    ensures text { Puts out.old.items (rows_text names.now word.now rows.now) out.new.items result }
    ensures in_range { OnOk result (All RowInRange rows.now) }
{
    for row in rows {
        put_row(out, names, word, *row)?;
    }
    Ok(())
}

fn put_row<'a>(
    out: &mut Vec<u8>,
    names: &'a NameBook,
    word: &'a str,
    row: (Cell, i64),
) -> Result<(), AllocError>
    requires { CellNamed names.now row.0 }
    ensures text { Puts out.old.items (row_text names.now word.now row) out.new.items result }
    ensures in_range { RowInRange row }
{
    let (cell, value) = row;
    let table = names.tables.name(cell.table.0);
    let mut line = Tail::new();
    if !put_short_row(&mut line, word, table, cell.key, value) {
        return put_long_row(out, names, word, row);
    }
    out.extend_from_slice(line.as_bytes())
}

// Puts the line of a row, if both words are short. Returns false if they may not fit.
fn put_short_row(line: &mut Tail<72>, word: &str, table: &str, key: u32, value: i64) -> bool
    requires { line.old ≡ [] }
    ensures { IsTrue result → line.new ≡ line_text (word.now ∷ table.now ∷ decimal key ∷ signed_decimal value ∷ []) }
{
    if word.len() > 6 || table.len() > 32 {
        return false;
    }
    line.put(b"\n");
    line.put_integer(value);
    line.put(b" ");
    line.put_natural(key);
    line.put(b" ");
    line.put(table.as_bytes());
    line.put(b" ");
    line.put(word.as_bytes());
    true
}

fn put_long_row<'a>(
    out: &mut Vec<u8>,
    names: &'a NameBook,
    word: &'a str,
    row: (Cell, i64),
) -> Result<(), AllocError>
    requires { CellNamed names.now row.0 }
    ensures { Puts out.old.items (row_text names.now word.now row) out.new.items result }
{
    let (cell, value) = row;
    let table = table(names, cell.table);
    put_line(
        out,
        word,
        &[table, Word::Natural(cell.key), Word::Value(Some(value))],
    )
}
