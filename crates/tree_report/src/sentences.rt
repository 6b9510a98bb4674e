//! What a tree guarantees.

ghost use Rattle.std.specs.Prelude.{◌≡◌, ◌++◌, [], OnOk};
ghost use Rattle.tree_report.specs.Guarantees.{AreGuarantees, reads_line, sentence_line, always_text, shape_text, type_line, types_text, verdict};

use line_words::{Word, name_at, put_line};
use std::alloc::AllocError;
use store_setup::tree::Tree;
use teb_rules::names::{Kind, Names};
use tree_guarantees::{commits_in_order, has_no_cascades, is_strict, type_reads_never_wait};

/// The sentences that hold for every tree.
const ALWAYS: &str = "\
guaranteed: running the committed transactions serially in the serial order reproduces every read and the final tables
guaranteed: no transaction commits before one that it read from
guaranteed: the wait-for graph has no cycle
";

const STRICT: &str =
    "a transaction that committed before another began precedes it in the serial order";

const ORDERED: &str = "the serial order is the order of the commits";

const ALONE: &str = "an abort takes no other transaction with it";

/// Which of the sentences that depend on the shape of a tree hold.
#[derive(Clone, Copy)]
struct Shape {
    strict: bool,
    ordered: bool,
    alone: bool,
}

/// Writes what a tree guarantees, and what it does not, into an empty text: the sentences that hold for every tree, those that
/// depend on its shape, one for each type, and the end.
///
/// # Errors
/// `AllocError`: out of memory. A part of the text may be written.
pub fn put_guarantees(out: &mut Vec<u8>, types: &Names, tree: &Tree) -> Result<(), AllocError>
    requires { out.old.items ≡ [] }
    ensures { OnOk result (AreGuarantees types.now tree.now.rows out.new.items) }
{
    put_always(out)?;
    put_shape(
        out,
        Shape {
            strict: is_strict(tree),
            ordered: commits_in_order(tree),
            alone: has_no_cascades(tree),
        },
    )?;
    put_types(out, types, tree)?;
    put_line(out, &Word::Text("end"), &[])
}

/// Appends the sentences that hold for every tree.
fn put_always(out: &mut Vec<u8>) -> Result<(), AllocError>
    ensures { OnOk result (out.new.items ≡ out.old.items ++ always_text) }
{
    out.extend_from_slice(ALWAYS.as_bytes())
}

/// Appends the sentences that depend on the shape of the tree.
fn put_shape(out: &mut Vec<u8>, shape: Shape) -> Result<(), AllocError>
    ensures { OnOk result (out.new.items ≡ out.old.items ++ shape_text shape.strict shape.ordered shape.alone) }
{
    put_sentence(out, shape.strict, STRICT)?;
    put_sentence(out, shape.ordered, ORDERED)?;
    put_sentence(out, shape.alone, ALONE)
}

fn put_sentence(out: &mut Vec<u8>, holds: bool, sentence: &str) -> Result<(), AllocError>
    ensures { OnOk result (out.new.items ≡ out.old.items ++ sentence_line holds sentence.now) }
{
    put_line(out, &Word::Text(verdict(holds)), &[Word::Text(sentence)])
}

/// Appends for each type a sentence on whether its reads wait.
fn put_types(out: &mut Vec<u8>, types: &Names, tree: &Tree) -> Result<(), AllocError>
    ensures { OnOk result (out.new.items ≡ out.old.items ++ types_text types.now tree.now.rows) }
{
    for k in 0..types.len() {
        put_type(out, types, tree, k)?;
    }
    Ok(())
}

fn put_type(out: &mut Vec<u8>, types: &Names, tree: &Tree, k: u8) -> Result<(), AllocError>
    ensures { OnOk result (out.new.items ≡ out.old.items ++ type_line types.now tree.now.rows k) }
{
    let holds = type_reads_never_wait(tree, Kind(k));
    put_reads(out, holds, name_at(types, k))
}

fn put_reads(out: &mut Vec<u8>, holds: bool, name: &str) -> Result<(), AllocError>
    ensures { OnOk result (out.new.items ≡ out.old.items ++ reads_line holds name.now) }
{
    put_line(
        out,
        &Word::Text(verdict(holds)),
        &[
            Word::Text("each read and each scan of a running transaction of type"),
            Word::Text(name),
            Word::Text("is granted at once, unless it is refused"),
        ],
    )
}

fn verdict(holds: bool) -> &'static str
    ensures { result.now ≡ verdict holds }
{
    if holds {
        "guaranteed:"
    } else {
        "not guaranteed:"
    }
}
