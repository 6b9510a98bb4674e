//! The tree text of a setup, for `tree_toml` to read.
//!
//! The shell's `.dump` writes its store with [`put_tree_text`], with the rows of the moment as starting rows.
//!
//! ```text
//!   format = 3                                     put_head: format, tables, rows
//!   tables = ["account"]
//!   row = [
//!       { table = "account", key = 1, value = 100 },
//!   ]
//!
//!   [[type]]                                       put_types
//!   name = "transfer"
//!   steps = [["account"]]
//!
//!   [[node]]                                       put_nodes
//!   name = "root"
//!   control = "locks"
//!   types = ["transfer"]
//! ```
//!
//! Left out are: an empty list of rows or of types, the parent of the root, the batch of a node without batches, a free order
//! of commits, and the part of a node that has the whole of its types.
//!
//! **What is proved.** The text is `tree_text` of the format, the names, the profiles, the nodes and the rows
//! (`specs/Written.antt`).
//!
//! **Not claimed**: that `tree_toml` reads the text as the same setup. `tools/shell_dumps.py` tries that with the trees of the
//! worked runs.
#![tactic(auto)]

mod arrays;
mod nodes;
mod settings;

ghost use Rattle.std.specs.Prelude.{◌≡◌, ◌++◌, ◌<◌, OnOk, length};
ghost use Rattle.tree_writer.specs.Written.{head_text, tree_text, type_text, types_text};

use arrays::{put_rows, put_steps, put_tables};
use nodes::put_nodes;
use settings::{put_header, put_name, put_number};
use std::alloc::AllocError;
use store_setup::Setup;
use store_setup::profile::Profile;
use teb_rules::names::{Cell, NameBook, Names};

/// Appends the tree text of a setup in a format, with the given rows as its starting rows.
///
/// # Errors
/// `AllocError`: out of memory. A part of the text may be appended.
pub fn put_tree_text(
    out: &mut Vec<u8>,
    format: u8,
    setup: &Setup,
    rows: &[(Cell, i64)],
) -> Result<(), AllocError>
    requires { length setup.now.profiles.items ≡ length setup.now.names.types }
    ensures { OnOk result (out.new.items ≡ out.old.items ++ tree_text format setup.now.names setup.now.profiles.items setup.now.tree.rows rows.now) }
{
    put_head(out, format, &setup.names.tables, rows)?;
    put_types(out, &setup.names, &setup.profiles)?;
    put_nodes(out, &setup.names, &setup.tree)
}

/// Appends the format, the tables and the rows.
fn put_head(
    out: &mut Vec<u8>,
    format: u8,
    tables: &Names,
    rows: &[(Cell, i64)],
) -> Result<(), AllocError>
    ensures { OnOk result (out.new.items ≡ out.old.items ++ head_text format tables.now rows.now) }
{
    put_number(out, "format", u64::from(format))?;
    put_tables(out, tables)?;
    put_rows(out, tables, rows)
}

/// Appends the types, each with its steps.
fn put_types(out: &mut Vec<u8>, names: &NameBook, profiles: &[Profile]) -> Result<(), AllocError>
    requires { length profiles.now ≡ length names.now.types }
    ensures { OnOk result (out.new.items ≡ out.old.items ++ types_text names.now profiles.now) }
{
    for k in 0..names.types.len() {
        put_type(out, names, profiles, k)?;
    }
    Ok(())
}

fn put_type(
    out: &mut Vec<u8>,
    names: &NameBook,
    profiles: &[Profile],
    k: u8,
) -> Result<(), AllocError>
    requires { k < length profiles.now }
    ensures { OnOk result (out.new.items ≡ out.old.items ++ type_text names.now profiles.now k) }
{
    put_header(out, "type")?;
    put_name(out, "name", &names.types, k)?;
    put_steps(out, &names.tables, &profiles[usize::from(k)])
}
