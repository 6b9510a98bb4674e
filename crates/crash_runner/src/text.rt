//! The text of a run on a disk.

ghost use Rattle.std.specs.Prelude.{◌≡◌, ◌++◌, All, IfOk, OnOk};
ghost use Rattle.script_text.specs.Named.{ReplyNamed, RowsNamed};
ghost use Rattle.crash_runner.specs.Crashes.{crash_text, stop_text};

use record_journal::Recovered;
use script_runner::put_replies;
use script_text::{Answered, put_recovered};
use std::alloc::{AllocError, Global};
use teb_rules::names::NameBook;

/// Returns the replies that were given, whether the run stopped, and what was recovered.
pub(crate) fn text_of(
    alloc: Global,
    names: &NameBook,
    given: &[Answered],
    stopped: bool,
    found: &Recovered,
) -> Result<Vec<u8>, AllocError>
    requires replies { All (λ a. ReplyNamed names.now a.reply) given.now }
    requires rows { RowsNamed names.now found.now.rows.items }
    ensures { IfOk result (λ v. v.items ≡ crash_text names.now given.now stopped found.now.commits found.now.rows.items) }
{
    let mut text = Vec::new(alloc);
    put_replies(&mut text, names, given)?;
    put_stop(&mut text, stopped)?;
    put_recovered(&mut text, names, found.commits, &found.rows)?;
    Ok(text)
}

fn put_stop(out: &mut Vec<u8>, stopped: bool) -> Result<(), AllocError>
    ensures { OnOk result (out.new.items ≡ out.old.items ++ stop_text stopped) }
{
    if stopped {
        out.extend_from_slice(b"stopped\n")?;
    }
    Ok(())
}
