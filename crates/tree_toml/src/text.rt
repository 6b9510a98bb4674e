//! The lines that name the fault of a tree text.

ghost use Rattle.std.specs.Prelude.{◌≡◌, ◌++◌, is_ok, if◌then◌else◌};
ghost use Rattle.tree_toml.specs.Texts.{piece_text, pieces_text, joined, field_parts, fault_text, list_word as spec_list_word, key_word as spec_key_word, top_word as spec_top_word};
ghost use Rattle.tree_toml.specs.Texts.{dot_word as spec_dot_word, why_word as spec_why_word, shape_word as spec_shape_word, rule_word as spec_rule_word};

use crate::fault::{FieldWhy, Key, ListName, Place, TreeTextError};
use itoa::Buffer;
use std::alloc::AllocError;
use store_setup::tree::{Rule, ShapeWhy};

/// A piece of a text.
#[derive(Clone, Copy)]
pub enum Piece<'a> {
    Text(&'a str),
    Number(u32),
}

/// Appends the line of a fault. `OutOfMemory` has no line.
///
/// # Errors
/// `AllocError`: out of memory. Nothing is appended.
pub fn put_fault(out: &mut Vec<u8>, fault: &TreeTextError) -> Result<(), AllocError>
    ensures { out.new.items ≡ (if is_ok result then out.old.items ++ fault_text fault.now else out.old.items) }
{
    match fault {
        TreeTextError::NotToml => put_pieces(out, &[Piece::Text("bad tree: not toml\n")]),
        TreeTextError::Field { place, why } => put_field(out, *place, *why),
        TreeTextError::Shape { node, why } => put_pieces(
            out,
            &[
                Piece::Text("bad tree: node["),
                Piece::Number(u32::from(node.0)),
                Piece::Text("] shape "),
                Piece::Text(shape_word(*why)),
                Piece::Text("\n"),
            ],
        ),
        TreeTextError::Misplaced { node, rule } => put_pieces(
            out,
            &[
                Piece::Text("bad tree: node["),
                Piece::Number(u32::from(node.0)),
                Piece::Text("] breaks "),
                Piece::Text(rule_word(*rule)),
                Piece::Text("\n"),
            ],
        ),
        TreeTextError::OutOfMemory => Ok(()),
    }
}

fn put_field(out: &mut Vec<u8>, place: Place, why: FieldWhy) -> Result<(), AllocError>
    ensures { out.new.items ≡ (if is_ok result then out.old.items ++ joined (field_parts place.list place.index place.key why) else out.old.items) }
{
    match place.list {
        ListName::Top => put_pieces(
            out,
            &[
                Piece::Text("bad tree: "),
                Piece::Text(top_word(place.key)),
                Piece::Text(" "),
                Piece::Text(why_word(why)),
                Piece::Text("\n"),
            ],
        ),
        list => put_pieces(
            out,
            &[
                Piece::Text("bad tree: "),
                Piece::Text(list_word(list)),
                Piece::Text("["),
                Piece::Number(place.index),
                Piece::Text("]"),
                Piece::Text(dot_word(place.key)),
                Piece::Text(key_word(place.key)),
                Piece::Text(" "),
                Piece::Text(why_word(why)),
                Piece::Text("\n"),
            ],
        ),
    }
}

// Appends the pieces. Out of memory, it appends nothing.
fn put_pieces(out: &mut Vec<u8>, pieces: &[Piece]) -> Result<(), AllocError>
    ensures { out.new.items ≡ (if is_ok result then out.old.items ++ pieces_text pieces.now else out.old.items) }
{
    let start = out.len();
    for piece in pieces {
        match put_piece(out, piece) {
            Ok(()) => {}
            Err(e) => {
                out.truncate(start);
                return Err(e);
            }
        }
    }
    Ok(())
}

fn put_piece(out: &mut Vec<u8>, piece: &Piece) -> Result<(), AllocError>
    ensures { out.new.items ≡ (if is_ok result then out.old.items ++ piece_text piece.now else out.old.items) }
{
    let mut buffer = Buffer::new();
    match piece {
        Piece::Text(text) => out.extend_from_slice(text.as_bytes()),
        Piece::Number(n) => out.extend_from_slice(buffer.format(*n).as_bytes()),
    }
}

fn list_word(list: ListName) -> &'static str
    ensures { result.now ≡ spec_list_word list }
{
    match list {
        ListName::Top => "top",
        ListName::Tables => "tables",
        ListName::Types => "type",
        ListName::Nodes => "node",
        ListName::Rows => "row",
    }
}

fn key_word(key: Key) -> &'static str
    ensures { result.now ≡ spec_key_word key }
{
    match key {
        Key::Whole => "",
        Key::Format => "format",
        Key::Tables => "tables",
        Key::Types => "type",
        Key::Nodes => "node",
        Key::Rows => "row",
        Key::Name => "name",
        Key::Steps => "steps",
        Key::Control => "control",
        Key::Parent => "parent",
        Key::Members => "types",
        Key::Batch => "batch",
        Key::Commit => "commit",
        Key::Of => "of",
        Key::Part => "part",
        Key::Table => "table",
        Key::CellKey => "key",
        Key::Value => "value",
    }
}

fn top_word(key: Key) -> &'static str
    ensures { result.now ≡ spec_top_word key }
{
    match key {
        Key::Whole => "top",
        _ => key_word(key),
    }
}

fn dot_word(key: Key) -> &'static str
    ensures { result.now ≡ spec_dot_word key }
{
    match key {
        Key::Whole => "",
        _ => ".",
    }
}

fn why_word(why: FieldWhy) -> &'static str
    ensures { result.now ≡ spec_why_word why }
{
    match why {
        FieldWhy::Unknown => "unknown",
        FieldWhy::Missing => "missing",
        FieldWhy::Form => "form",
        FieldWhy::Name => "name",
        FieldWhy::Repeated => "repeated",
        FieldWhy::NoSuch => "nosuch",
        FieldWhy::Range => "range",
        FieldWhy::Many => "many",
    }
}

fn shape_word(why: ShapeWhy) -> &'static str
    ensures { result.now ≡ spec_shape_word why }
{
    match why {
        ShapeWhy::Root => "root",
        ShapeWhy::Parent => "parent",
        ShapeWhy::Depth => "depth",
        ShapeWhy::Mixed => "mixed",
        ShapeWhy::Empty => "empty",
        ShapeWhy::Twice => "twice",
        ShapeWhy::Homeless => "homeless",
    }
}

fn rule_word(rule: Rule) -> &'static str
    ensures { result.now ≡ spec_rule_word rule }
{
    match rule {
        Rule::P1 => "P1",
        Rule::P2 => "P2",
        Rule::P3 => "P3",
    }
}
