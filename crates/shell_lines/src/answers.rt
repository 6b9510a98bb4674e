//! The texts of answers.

ghost use Rattle.std.specs.Prelude.{◌≡◌, ◌++◌, OnOk, codes, map};
ghost use Rattle.script_text.specs.Puts.{spaced};
ghost use Rattle.script_text.specs.Texts.{txn_text};
ghost use Rattle.shell_lines.specs.Answers.{bad_text, checkpoint_text, epoch_text, help_text, names_text, order_text, unable_text, unable_word};

use crate::{Checkpoint, Unable};
use line_words::{Word, put_line, put_next};
use script_text::LineWhy;
use std::alloc::AllocError;
use teb_rules::names::{Names, Txn};

/// Appends that a line is bad, and why.
///
/// # Errors
/// `AllocError`: out of memory. A part of the line may be appended.
pub fn put_bad(out: &mut Vec<u8>, number: u64, why: LineWhy) -> Result<(), AllocError>
    ensures { OnOk result (out.new.items ≡ out.old.items ++ bad_text number why) }
{
    put_line(
        out,
        &Word::Text("bad"),
        &[
            Word::Text("line"),
            Word::Natural(number),
            Word::Text(why.word()),
        ],
    )
}

/// Appends that a line can't be obeyed, and why.
///
/// # Errors
/// `AllocError`: out of memory. A part of the line may be appended.
pub fn put_unable(out: &mut Vec<u8>, number: u64, why: Unable) -> Result<(), AllocError>
    ensures { OnOk result (out.new.items ≡ out.old.items ++ unable_text number why) }
{
    put_line(
        out,
        &Word::Text("bad"),
        &[
            Word::Text("line"),
            Word::Natural(number),
            Word::Text(unable_word(why)),
        ],
    )
}

fn unable_word(why: Unable) -> &'static str
    ensures { result.now ≡ unable_word why }
{
    match why {
        Unable::Unreadable => "unreadable",
        Unable::TooLong => "too-long",
        Unable::Nested => "nested",
        Unable::ManyRows => "many-rows",
    }
}

/// Appends the number of the epoch, of its commits, and of the bytes that are left.
///
/// # Errors
/// `AllocError`: out of memory. A part of the line may be appended.
pub fn put_epoch(out: &mut Vec<u8>, epoch: u64, commits: u64, left: u64) -> Result<(), AllocError>
    ensures { OnOk result (out.new.items ≡ out.old.items ++ epoch_text epoch commits left) }
{
    put_line(
        out,
        &Word::Text("epoch"),
        &[
            Word::Natural(epoch),
            Word::Text("commits"),
            Word::Natural(commits),
            Word::Text("left"),
            Word::Natural(left),
        ],
    )
}

/// Appends what became of a checkpoint.
///
/// # Errors
/// `AllocError`: out of memory. A part of the line may be appended.
pub fn put_checkpoint(out: &mut Vec<u8>, checkpoint: Checkpoint) -> Result<(), AllocError>
    ensures { OnOk result (out.new.items ≡ out.old.items ++ checkpoint_text checkpoint) }
{
    match checkpoint {
        Checkpoint::Begun(epoch) => put_line(out, &Word::Text("epoch"), &[Word::Natural(epoch)]),
        Checkpoint::Unfinished(txn) => put_line(out, &Word::Text("unfinished"), &[Word::Txn(txn)]),
        Checkpoint::Untold(session) => put_line(
            out,
            &Word::Text("untold"),
            &[Word::Natural(u64::from(session.0))],
        ),
        Checkpoint::Full => put_line(out, &Word::Text("full"), &[]),
    }
}

/// Appends the serial order.
///
/// # Errors
/// `AllocError`: out of memory. A part of the line may be appended.
#[tactic(auto, using(line_words::proofs::Joined::one_line))]
pub fn put_order(out: &mut Vec<u8>, order: &[Txn]) -> Result<(), AllocError>
    ensures { OnOk result (out.new.items ≡ out.old.items ++ order_text order.now) }
{
    out.extend_from_slice(b"order")?;
    put_txns(out, order)?;
    out.push(b'\n')?;
    Ok(())
}

/// Appends transactions, each after a space.
fn put_txns(out: &mut Vec<u8>, txns: &[Txn]) -> Result<(), AllocError>
    ensures { OnOk result (out.new.items ≡ out.old.items ++ spaced (map txn_text txns.now)) }
{
    for txn in txns {
        put_next(out, &Word::Txn(*txn))?;
    }
    Ok(())
}

/// Appends the names of tables, and the end.
///
/// # Errors
/// `AllocError`: out of memory. A part of the text may be appended.
pub fn put_tables(out: &mut Vec<u8>, names: &Names) -> Result<(), AllocError>
    ensures { OnOk result (out.new.items ≡ out.old.items ++ names_text (codes "table") names.now) }
{
    put_names(out, "table", names)
}

/// Appends the names of types, and the end.
///
/// # Errors
/// `AllocError`: out of memory. A part of the text may be appended.
pub fn put_types(out: &mut Vec<u8>, names: &Names) -> Result<(), AllocError>
    ensures { OnOk result (out.new.items ≡ out.old.items ++ names_text (codes "type") names.now) }
{
    put_names(out, "type", names)
}

/// Appends a line for each name, which begins with a word, and the end.
fn put_names(out: &mut Vec<u8>, word: &str, names: &Names) -> Result<(), AllocError>
    ensures { OnOk result (out.new.items ≡ out.old.items ++ names_text word.now names.now) }
{
    for i in 0..names.len() {
        put_line(out, &Word::Text(word), &[Word::Text(names.name(i))])?;
    }
    put_line(out, &Word::Text("end"), &[])
}

/// Appends the lines that there are.
///
/// # Errors
/// `AllocError`: out of memory. Nothing is appended.
pub fn put_help(out: &mut Vec<u8>) -> Result<(), AllocError>
    ensures { OnOk result (out.new.items ≡ out.old.items ++ help_text) }
{
    out.extend_from_slice(HELP.as_bytes())
}

/// The lines that there are.
const HELP: &str = "\
S begin TYPE [INSTANCE]      begins a transaction of session S, 1 to 32
S read TABLE KEY             reads a row
S scan TABLE KEY COUNT       reads 1 to 16 rows
S write TABLE KEY VALUE      puts a value into a row
S add TABLE KEY VALUE        adds to a row that was read or written
S delete TABLE KEY           takes a row away
S prepare | commit | abort   ends the transaction, or makes sure that it can commit
.rows [TABLE [FROM [COUNT]]] shows the committed rows
.order                       shows the serial order of the commits of this epoch
.epoch                       shows the epoch, its commits and the bytes that are left
.checkpoint                  begins the next epoch
.tables                      shows the tables
.types                       shows the types of transactions
.tree                        draws the tree
.guarantees                  shows what the tree guarantees
.sessions                    shows the open transactions, and who waits for whom
.dump                        shows a tree text that opens as this store
.read FILE                   reads the lines of a file
.help                        shows this
.quit                        ends
";
