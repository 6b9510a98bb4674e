//! The setup of a tree text.

ghost use Rattle.std.specs.Prelude.{◌≡◌, IfOk};
ghost use Rattle.toml.specs.View.{table_view};
ghost use Rattle.tree_toml.specs.Reading.{Answers};
ghost use Rattle.tree_toml.specs.SetupText.{lists_in, setup_in, document_of, setup_of_text, is_blank as spec_is_blank, is_blank_byte as spec_is_blank_byte};
ghost use Rattle.store_setup.specs.Sound.{IsWhole, IsNamed, HasNames};
ghost use Rattle.tree_toml.specs.Limits.{IsOfText};
ghost use Rattle.store_setup.specs.SetupView.{setup_view};

use crate::fault::{FieldWhy, Key, ListName, TreeTextError, at};
use crate::fields::{all_known, place};
use crate::nodes::read_nodes;
use crate::plain::plain;
use crate::rows::read_rows;
use crate::tables::{read_format, read_tables};
use crate::trees::grow;
use crate::types::read_types;
use std::alloc::Global;
use store_setup::Setup;
use teb_rules::names::NameBook;
use toml::Table;

/// Returns the setup of a tree text. A text of spaces, tabs, carriage returns and line feeds alone is the plain setup: the table
/// `t`, the type `any`, one locks leaf `root`, and no rows.
///
/// # Errors
/// `NotToml` if the text is not UTF-8, or not TOML; else `Field`, the first fault of its keys and values; else `Shape` or
/// `Misplaced`, the first fault of the nodes as a tree. `OutOfMemory` may come in place of each result.
pub fn read_tree(alloc: Global, text: &[u8]) -> Result<Setup, TreeTextError>
    ensures setup { Answers setup_view result (setup_of_text text.now) }
    ensures whole { IfOk result (λ s. IsWhole (setup_view s)) }
    ensures named { IfOk result (λ s. IsNamed (setup_view s)) }
    ensures names { IfOk result (λ s. HasNames (setup_view s)) }
    ensures limits { IfOk result (λ s. IsOfText (setup_view s)) }
{
    if is_blank(text) {
        return plain(alloc);
    }
    read_document(alloc, text)
}

fn read_document(alloc: Global, text: &[u8]) -> Result<Setup, TreeTextError>
    ensures { Answers setup_view result (document_of text.now) }
{
    match toml::table_from_slice(alloc, text) {
        Ok(table) => read_setup(alloc, &table),
        Err(error) => {
            if error.is_memory() {
                Err(TreeTextError::OutOfMemory)
            } else {
                Err(TreeTextError::NotToml)
            }
        }
    }
}

fn is_blank(text: &[u8]) -> bool
    ensures { result ≡ spec_is_blank text.now }
{
    text.iter().all(|b| is_blank_byte(*b))
}

fn is_blank_byte(b: u8) -> bool
    ensures { result ≡ spec_is_blank_byte b }
{
    b == b' ' || b == b'\t' || b == b'\r' || b == b'\n'
}

#[tactic(auto, unfolding(crate::specs::SetupText::setup_in))]
fn read_setup(alloc: Global, table: &Table) -> Result<Setup, TreeTextError>
    ensures { Answers setup_view result (setup_in (table_view table.now)) }
{
    if !all_known(ListName::Top, 1, table) {
        return Err(place(ListName::Top, 0, Key::Whole).fault(FieldWhy::Unknown));
    }
    let format = at(place(ListName::Top, 0, Key::Format), read_format(table))?;
    read_lists(alloc, format, table)
}

#[tactic(auto, unfolding(crate::specs::SetupText::lists_in))]
fn read_lists(alloc: Global, format: u8, table: &Table) -> Result<Setup, TreeTextError>
    ensures { Answers setup_view result (lists_in format (table_view table.now)) }
{
    let tables = read_tables(alloc, table)?;
    let types = read_types(alloc, &tables, table)?;
    let nodes = read_nodes(alloc, format, &types.names, table)?;
    let rows = read_rows(alloc, &tables, table)?;
    let tree = grow(alloc, nodes.rows, types.names.len())?;
    Ok(Setup {
        names: NameBook {
            tables,
            types: types.names,
            nodes: nodes.names,
        },
        profiles: types.profiles,
        tree,
        rows,
        format,
    })
}
