//! The plain setup: one table, and one type in one locks leaf.

ghost use Rattle.std.specs.Prelude.{◌≡◌, ◌∷◌, [], IfOk, Ok, codes};
ghost use Rattle.store_setup.specs.tree.Grown.{rows_of};
ghost use Rattle.store_setup.specs.profile.Steps.{steps_of};
ghost use Rattle.tree_toml.specs.Reading.{Answers};
ghost use Rattle.tree_toml.specs.SetupText.{plain as spec_plain, plain_row};
ghost use Rattle.store_setup.specs.SetupView.{setup_view};

use crate::fault::TreeTextError;
use crate::node_fields::USUAL_BATCH;
use crate::trees::grow;
use std::alloc::{AllocError, Global};
use store_setup::Setup;
use store_setup::profile::Profile;
use store_setup::tree::{NodeRow, Tree};
use teb_rules::names::{ControlKind, Kind, NameBook, Names, Rows, Table};

/// Returns the plain setup.
///
/// # Errors
/// `OutOfMemory`, and no other: out of memory.
pub fn plain(alloc: Global) -> Result<Setup, TreeTextError>
    ensures { Answers setup_view result (Ok spec_plain) }
{
    let tree = plain_tree(alloc)?;
    let profiles = plain_profiles(alloc)?;
    Ok(Setup {
        names: plain_names(alloc)?,
        profiles,
        tree,
        rows: Rows::new(alloc),
        format: 1,
    })
}

fn plain_names(alloc: Global) -> Result<NameBook, AllocError>
    ensures { IfOk result (λ book. (book.tables ≡ codes "t" ∷ []) × (book.types ≡ codes "any" ∷ []) × (book.nodes ≡ codes "root" ∷ [])) }
{
    Ok(NameBook {
        tables: one_name(alloc, "t")?,
        types: one_name(alloc, "any")?,
        nodes: one_name(alloc, "root")?,
    })
}

fn plain_tree(alloc: Global) -> Result<Tree, TreeTextError>
    ensures { Answers (λ t. t) result (Ok (spec_plain.tree)) }
{
    let rows = plain_rows(alloc)?;
    grow(alloc, rows, 1)
}

fn one_name(alloc: Global, name: &str) -> Result<Names, AllocError>
    ensures { IfOk result (λ names. names ≡ name.now ∷ []) }
{
    let mut names = Names::new(alloc);
    names.add(name)?;
    Ok(names)
}

fn plain_profiles(alloc: Global) -> Result<Vec<Profile>, AllocError>
    ensures { IfOk result (λ v. v.items ≡ ((0 ∷ []) ∷ []) ∷ []) }
{
    let mut profiles = Vec::new(alloc);
    match Profile::new(plain_steps(alloc)?) {
        Ok(profile) => profiles.push(profile)?,
        Err(_) => unreachable!(),
    }
    Ok(profiles)
}

fn plain_steps(alloc: Global) -> Result<Vec<Vec<Table>>, AllocError>
    ensures { IfOk result (λ v. steps_of v.items ≡ (0 ∷ []) ∷ []) }
{
    let mut step = Vec::new(alloc);
    step.push(Table(0))?;
    let mut steps = Vec::new(alloc);
    steps.push(step)?;
    Ok(steps)
}

fn plain_rows(alloc: Global) -> Result<Vec<NodeRow>, AllocError>
    ensures { IfOk result (λ v. rows_of v.items ≡ plain_row ∷ []) }
{
    let mut types = Vec::new(alloc);
    types.push(Kind(0))?;
    let mut rows = Vec::new(alloc);
    rows.push(NodeRow {
        control: ControlKind::Locks,
        parent: None,
        types,
        batch: USUAL_BATCH,
        ordered: false,
        part: 0,
        of: 1,
    })?;
    Ok(rows)
}
