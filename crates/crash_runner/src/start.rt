//! What is kept of a setup after its store is gone.

ghost use Rattle.std.specs.Prelude.{◌≡◌, IfOk};

use std::alloc::{AllocError, Global};
use store_setup::Setup;
use teb_rules::names::{NameBook, Names, Rows};

/// The names of a setup, and its starting rows.
#[derive(Drop)]
pub(crate) struct Start {
    pub(crate) names: NameBook,
    pub(crate) rows: Rows,
}

impl Start {
    /// Copies the names and the starting rows of a setup.
    pub(crate) fn of(alloc: Global, setup: &Setup) -> Result<Start, AllocError>
        ensures names { IfOk result (λ s. s.names ≡ setup.now.names) }
        ensures rows { IfOk result (λ s. s.rows ≡ setup.now.rows) }
    {
        let names = NameBook {
            tables: copy_of(alloc, &setup.names.tables)?,
            types: copy_of(alloc, &setup.names.types)?,
            nodes: copy_of(alloc, &setup.names.nodes)?,
        };
        let rows = Rows::from_sorted(setup.rows.rows().to_vec(alloc)?);
        Ok(Start { names, rows })
    }
}

fn copy_of(alloc: Global, names: &Names) -> Result<Names, AllocError>
    ensures { IfOk result (λ copy. copy ≡ names.now) }
{
    let mut copy = Names::new(alloc);
    for i in 0..names.len() {
        let _ = copy.add(names.name(i))?;
    }
    Ok(copy)
}
