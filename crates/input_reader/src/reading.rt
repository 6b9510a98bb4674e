//! The reading of an input.

ghost use Rattle.std.specs.Prelude.{◌≡◌, ◌≤◌, IfErr, IsErrOf, OnOk, length};
ghost use Rattle.teb_io.specs.Faults.{Rose};
ghost use Rattle.input_reader.specs.Inputs.{input_of};
ghost use Rattle.input_reader.specs.Readings.{AreReadFrom, IsRead, IsReadFrom};

use crate::{Input, InputError};
use script_text::{MOST_BYTES, MOST_LINES, has_more_lines, parse_script, split_input};
use std::alloc::Global;
use teb_io::{ReadError, Source, read_all};
use tree_toml::read_tree;

/// Reads a source to its end, if it has at most `MOST_BYTES` bytes.
///
/// # Errors
/// Those of `read_all`, with `MOST_BYTES` as its limit.
pub fn read_bytes<S: Source>(alloc: Global, source: &mut S) -> Result<Vec<u8>, ReadError>
    ensures bytes { AreReadFrom (S.left source.old) (S.left source.new) result }
    ensures fault { IsErrOf result ReadError.ReadFault → Rose (S.faults source.old) (S.faults source.new) }
    ensures no_fault { OnOk result (S.faults source.new ≡ S.faults source.old) }
    ensures no_other_fault { IfErr result (λ e. (e ≡ ReadError.ReadFault → ⊥) → S.faults source.new ≡ S.faults source.old) }
{
    read_all(alloc, source, MOST_BYTES)
}

/// Reads a source to its end, and parses it as an input, which keeps the bytes (`Input::take_text`).
///
/// # Errors
/// `ReadFault` if a read fails; else the first of `TooLong` by bytes, `NoSeparator`, `TooLong` by lines, `BadTree` and `BadLine`.
/// `OutOfMemory` may come in place of each but `ReadFault`.
pub fn read_input<S: Source>(alloc: Global, source: &mut S) -> Result<Input, InputError>
    ensures read { IsReadFrom (S.left source.old) (S.left source.new) result }
    ensures fault { IsErrOf result InputError.ReadFault → Rose (S.faults source.old) (S.faults source.new) }
    ensures no_fault { OnOk result (S.faults source.new ≡ S.faults source.old) }
    ensures no_other_fault { IfErr result (λ e. (e ≡ InputError.ReadFault → ⊥) → S.faults source.new ≡ S.faults source.old) }
{
    let bytes = read_bytes(alloc, source)?;
    let input = parse_input(alloc, &bytes)?;
    Ok(input.with_text(bytes))
}

/// Returns the input in these bytes: the tree part, a line `%%`, and the script part.
///
/// # Errors
/// The first of `NoSeparator`, `TooLong` by lines, `BadTree` and `BadLine`, or `OutOfMemory`.
pub fn parse_input(alloc: Global, bytes: &[u8]) -> Result<Input, InputError>
    requires { length bytes.now ≤ MOST_BYTES }
    ensures { IsRead result (input_of bytes.now) }
{
    let Some((tree, script)) = split_input(bytes) else {
        return Err(InputError::NoSeparator);
    };
    if has_more_lines(script, MOST_LINES) {
        return Err(InputError::TooLong);
    }
    let setup = read_tree(alloc, tree)?;
    let lines = parse_script(alloc, script, &setup.names, setup.format)?;
    Ok(Input::new(setup, lines))
}
