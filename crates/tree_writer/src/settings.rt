//! Lines with a key and its value.

ghost use Rattle.std.specs.Prelude.{◌≡◌, ◌++◌, OnOk, codes, decimal};
ghost use Rattle.script_text.specs.Texts.{name_of};
ghost use Rattle.tree_writer.specs.Written.{header, quoted, setting};

use itoa::Buffer;
use line_words::name_at;
use std::alloc::AllocError;
use teb_rules::names::Names;

/// Appends the header of an entry of a list.
pub(crate) fn put_header(out: &mut Vec<u8>, word: &str) -> Result<(), AllocError>
    ensures { OnOk result (out.new.items ≡ out.old.items ++ header word.now) }
{
    out.extend_from_slice(b"\n[[")?;
    out.extend_from_slice(word.as_bytes())?;
    out.extend_from_slice(b"]]\n")
}

/// Appends a key and a number.
pub(crate) fn put_number(out: &mut Vec<u8>, key: &str, number: u64) -> Result<(), AllocError>
    ensures { OnOk result (out.new.items ≡ out.old.items ++ setting key.now (decimal number)) }
{
    put_key(out, key)?;
    out.extend_from_slice(Buffer::new().format(number).as_bytes())?;
    out.extend_from_slice(b"\n")
}

/// Appends a key and a text.
pub(crate) fn put_text(out: &mut Vec<u8>, key: &str, text: &str) -> Result<(), AllocError>
    ensures { OnOk result (out.new.items ≡ out.old.items ++ setting key.now (quoted text.now)) }
{
    put_key(out, key)?;
    put_quoted(out, text)?;
    out.extend_from_slice(b"\n")
}

/// Appends a key and the name with a number.
pub(crate) fn put_name(
    out: &mut Vec<u8>,
    key: &str,
    names: &Names,
    number: u8,
) -> Result<(), AllocError>
    ensures { OnOk result (out.new.items ≡ out.old.items ++ setting key.now (quoted (name_of names.now number))) }
{
    put_text(out, key, name_at(names, number))
}

/// Appends a key and the equals sign after it.
pub(crate) fn put_key(out: &mut Vec<u8>, key: &str) -> Result<(), AllocError>
    ensures { OnOk result (out.new.items ≡ out.old.items ++ (key.now ++ codes " = ")) }
{
    out.extend_from_slice(key.as_bytes())?;
    out.extend_from_slice(b" = ")
}

/// Appends a text in quotes.
pub(crate) fn put_quoted(out: &mut Vec<u8>, text: &str) -> Result<(), AllocError>
    ensures { OnOk result (out.new.items ≡ out.old.items ++ quoted text.now) }
{
    out.extend_from_slice(b"\"")?;
    out.extend_from_slice(text.as_bytes())?;
    out.extend_from_slice(b"\"")
}
