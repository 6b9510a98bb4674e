//! Arrays: of tables, of steps and of rows.

ghost use Rattle.std.specs.Prelude.{◌≡◌, ◌++◌, OnOk, codes, map, true};
ghost use Rattle.std.specs.List.{flat_map};
ghost use Rattle.store_setup.specs.tree.Grown.{kind_numbers};
ghost use Rattle.script_text.specs.Texts.{name_of};
ghost use Rattle.store_setup.specs.profile.Steps.{numbers_of};
ghost use Rattle.tree_writer.specs.Written.{items_text, key_field, names_array, quoted, row_item, rows_setting, separator, setting, steps_array, table_field, tables_array, types_setting, value_field};

use crate::settings::{put_key, put_quoted};
use itoa::Buffer;
use line_words::name_at;
use std::alloc::AllocError;
use store_setup::profile::Profile;
use teb_rules::names::{Cell, Kind, Names, Table};

/// Appends the names of all tables.
pub(crate) fn put_tables(out: &mut Vec<u8>, tables: &Names) -> Result<(), AllocError>
    ensures { OnOk result (out.new.items ≡ out.old.items ++ setting (codes "tables") (tables_array tables.now)) }
{
    put_key(out, "tables")?;
    out.extend_from_slice(b"[")?;
    put_all(out, tables)?;
    out.extend_from_slice(b"]\n")
}

fn put_all(out: &mut Vec<u8>, names: &Names) -> Result<(), AllocError>
    ensures { OnOk result (out.new.items ≡ out.old.items ++ items_text true (map quoted names.now)) }
{
    let mut is_first = true;
    for n in 0..names.len() {
        put_item(out, is_first, names.name(n))?;
        is_first = false;
    }
    Ok(())
}

/// Appends a text in quotes, after a comma if it is not the first one.
fn put_item(out: &mut Vec<u8>, is_first: bool, text: &str) -> Result<(), AllocError>
    ensures { OnOk result (out.new.items ≡ out.old.items ++ (separator is_first ++ quoted text.now)) }
{
    out.extend_from_slice(separator(is_first))?;
    put_quoted(out, text)
}

fn separator(is_first: bool) -> &'static [u8]
    ensures { result.now ≡ separator is_first }
{
    if is_first { b"" } else { b", " }
}

/// Appends the names of the types of a node; nothing if it has none.
pub(crate) fn put_members(
    out: &mut Vec<u8>,
    types: &Names,
    members: &[Kind],
) -> Result<(), AllocError>
    ensures { OnOk result (out.new.items ≡ out.old.items ++ types_setting types.now (kind_numbers members.now)) }
{
    if members.is_empty() {
        return Ok(());
    }
    put_key(out, "types")?;
    out.extend_from_slice(b"[")?;
    put_kinds(out, types, members)?;
    out.extend_from_slice(b"]\n")
}

fn put_kinds(out: &mut Vec<u8>, types: &Names, kinds: &[Kind]) -> Result<(), AllocError>
    ensures { OnOk result (out.new.items ≡ out.old.items ++ items_text true (map (λ n. quoted (name_of types.now n)) (kind_numbers kinds.now))) }
{
    let mut is_first = true;
    for kind in kinds {
        put_item(out, is_first, name_at(types, kind.0))?;
        is_first = false;
    }
    Ok(())
}

/// Appends the steps of a type.
pub(crate) fn put_steps(
    out: &mut Vec<u8>,
    tables: &Names,
    profile: &Profile,
) -> Result<(), AllocError>
    ensures { OnOk result (out.new.items ≡ out.old.items ++ setting (codes "steps") (steps_array tables.now profile.now)) }
{
    put_key(out, "steps")?;
    out.extend_from_slice(b"[")?;
    put_each_step(out, tables, profile)?;
    out.extend_from_slice(b"]\n")
}

fn put_each_step(out: &mut Vec<u8>, tables: &Names, profile: &Profile) -> Result<(), AllocError>
    ensures { OnOk result (out.new.items ≡ out.old.items ++ items_text true (map (names_array tables.now) profile.now)) }
{
    let mut is_first = true;
    for i in 0..profile.len() {
        put_step(out, is_first, tables, profile.step(i))?;
        is_first = false;
    }
    Ok(())
}

/// Appends a step, after a comma if it is not the first one.
fn put_step(
    out: &mut Vec<u8>,
    is_first: bool,
    names: &Names,
    step: &[Table],
) -> Result<(), AllocError>
    ensures { OnOk result (out.new.items ≡ out.old.items ++ (separator is_first ++ names_array names.now (numbers_of step.now))) }
{
    out.extend_from_slice(separator(is_first))?;
    out.extend_from_slice(b"[")?;
    put_numbers(out, names, step)?;
    out.extend_from_slice(b"]")
}

fn put_numbers(out: &mut Vec<u8>, names: &Names, tables: &[Table]) -> Result<(), AllocError>
    ensures { OnOk result (out.new.items ≡ out.old.items ++ items_text true (map (λ n. quoted (name_of names.now n)) (numbers_of tables.now))) }
{
    let mut is_first = true;
    for table in tables {
        put_item(out, is_first, name_at(names, table.0))?;
        is_first = false;
    }
    Ok(())
}

/// Appends the rows, a line for each; nothing if there are none.
pub(crate) fn put_rows(
    out: &mut Vec<u8>,
    tables: &Names,
    rows: &[(Cell, i64)],
) -> Result<(), AllocError>
    ensures { OnOk result (out.new.items ≡ out.old.items ++ rows_setting tables.now rows.now) }
{
    if rows.is_empty() {
        return Ok(());
    }
    out.extend_from_slice(b"row = [\n")?;
    put_each_row(out, tables, rows)?;
    out.extend_from_slice(b"]\n")
}

fn put_each_row(out: &mut Vec<u8>, tables: &Names, rows: &[(Cell, i64)]) -> Result<(), AllocError>
    ensures { OnOk result (out.new.items ≡ out.old.items ++ flat_map (row_item tables.now) rows.now) }
{
    for row in rows {
        put_row(out, tables, *row)?;
    }
    Ok(())
}

fn put_row(out: &mut Vec<u8>, tables: &Names, row: (Cell, i64)) -> Result<(), AllocError>
    ensures { OnOk result (out.new.items ≡ out.old.items ++ row_item tables.now row) }
{
    let (cell, value) = row;
    put_table_field(out, name_at(tables, cell.table.0))?;
    put_key_field(out, cell.key)?;
    put_value_field(out, value)
}

fn put_table_field(out: &mut Vec<u8>, table: &str) -> Result<(), AllocError>
    ensures { OnOk result (out.new.items ≡ out.old.items ++ table_field table.now) }
{
    out.extend_from_slice(b"    { table = ")?;
    put_quoted(out, table)
}

fn put_key_field(out: &mut Vec<u8>, key: u32) -> Result<(), AllocError>
    ensures { OnOk result (out.new.items ≡ out.old.items ++ key_field key) }
{
    out.extend_from_slice(b", key = ")?;
    out.extend_from_slice(Buffer::new().format(key).as_bytes())
}

fn put_value_field(out: &mut Vec<u8>, value: i64) -> Result<(), AllocError>
    ensures { OnOk result (out.new.items ≡ out.old.items ++ value_field value) }
{
    out.extend_from_slice(b", value = ")?;
    out.extend_from_slice(Buffer::new().format(value).as_bytes())?;
    out.extend_from_slice(b" },\n")
}
