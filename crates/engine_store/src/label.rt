//! The label of a journal: the names of the tables whose rows it has.

ghost use Rattle.std.specs.Prelude.{◌≡◌, IfOk};
ghost use Rattle.engine_store.specs.Label.{LabelTellsNames, label_of};

use std::alloc::{AllocError, Global};
use teb_rules::names::Names;

/// Returns the names, each followed by a newline.
///
/// # Errors
/// `AllocError` if memory is out.
pub(crate) fn label_of(alloc: Global, names: &Names) -> Result<Vec<u8>, AllocError>
    ensures { IfOk result (λ label. label.items ≡ label_of names.now) }
{
    let mut label = Vec::new(alloc);
    for i in 0..names.len() {
        label.extend_from_slice(names.name(i).as_bytes())?;
        label.push(b'\n')?;
    }
    Ok(label)
}

/// Lists of names with the same label are the same.
pub fn label_tells_names()
    ensures { LabelTellsNames }
{}
