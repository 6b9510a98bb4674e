//! The control of a node, its parent, its batch and its order of commits.

ghost use Rattle.std.specs.Prelude.{◌≡◌};
ghost use Rattle.toml.specs.View.{table_view};
ghost use Rattle.store_setup.specs.tree.Grown.{parent_number};
ghost use Rattle.tree_toml.specs.Reading.{Gives};
ghost use Rattle.tree_toml.specs.Nodes.{control_named as spec_control_named, control_of, has_key as spec_has_key, is_foreign as spec_is_foreign};
ghost use Rattle.tree_toml.specs.Nodes.{own_keys as spec_own_keys, parent_of, batch_of, commit_named as spec_commit_named, commit_of};

use crate::fault::FieldWhy;
use crate::fields::{found, integer_at, numbered, required, text_at, within};
use teb_rules::names::{ControlKind, Names, Node};
use toml::Table;

/// The size of a batch, if it is not given.
pub(crate) const USUAL_BATCH: u16 = 64;

/// Returns the control of a node.
///
/// # Errors
/// `Form` if it is no text, `Missing` if it is not given, `NoSuch` if it is no word for a control.
pub fn read_control(entry: &Table) -> Result<ControlKind, FieldWhy>
    ensures { result ≡ control_of (table_view entry.now) }
{
    control_named(required(text_at(entry, "control")?)?)
}

fn control_named(word: &str) -> Result<ControlKind, FieldWhy>
    ensures { result ≡ spec_control_named word.now }
{
    match word {
        "locks" => Ok(ControlKind::Locks),
        "pipeline" => Ok(ControlKind::Pipeline),
        "timestamp" => Ok(ControlKind::Timestamp),
        "snapshot" => Ok(ControlKind::Snapshot),
        _ => Err(FieldWhy::NoSuch),
    }
}

/// Checks that only timestamp and snapshot nodes have the key `batch`, and only timestamp nodes the key `commit`.
///
/// # Errors
/// `Unknown` if another node has one of them.
pub fn own_keys(control: ControlKind, entry: &Table) -> Result<(), FieldWhy>
    ensures { result ≡ spec_own_keys control (table_view entry.now) }
{
    if is_foreign(control, entry) {
        return Err(FieldWhy::Unknown);
    }
    Ok(())
}

fn is_foreign(control: ControlKind, entry: &Table) -> bool
    ensures { result ≡ spec_is_foreign control (table_view entry.now) }
{
    match control {
        ControlKind::Timestamp => false,
        ControlKind::Snapshot => has_key(entry, "commit"),
        ControlKind::Locks | ControlKind::Pipeline => {
            has_key(entry, "batch") || has_key(entry, "commit")
        }
    }
}

/// Returns whether a key is given.
pub fn has_key(entry: &Table, key: &str) -> bool
    ensures { result ≡ spec_has_key key.now (table_view entry.now) }
{
    found(entry, key).is_some()
}

/// Returns the parent, or `None` if it is not given.
///
/// # Errors
/// `Form` if it is no text, `NoSuch` if it is the name of no node.
pub fn read_parent(nodes: &Names, entry: &Table) -> Result<Option<Node>, FieldWhy>
    ensures { Gives parent_number result (parent_of nodes.now (table_view entry.now)) }
{
    match text_at(entry, "parent")? {
        None => Ok(None),
        Some(name) => Ok(Some(Node(numbered(nodes, name)?))),
    }
}

/// Returns how many transactions a batch admits.
///
/// # Errors
/// `Form` if it is no integer, `Range` if it is not 1 to 1,024.
pub fn read_batch(entry: &Table) -> Result<u16, FieldWhy>
    ensures { result ≡ batch_of (table_view entry.now) }
{
    match integer_at(entry, "batch")? {
        None => Ok(USUAL_BATCH),
        Some(n) => Ok(within(1, 1024, n)? as u16),
    }
}

/// Returns whether commits are ordered.
///
/// # Errors
/// `Form` if it is no text, `NoSuch` if it is neither `free` nor `ordered`.
pub fn read_commit(entry: &Table) -> Result<bool, FieldWhy>
    ensures { result ≡ commit_of (table_view entry.now) }
{
    match text_at(entry, "commit")? {
        None => Ok(false),
        Some(word) => commit_named(word),
    }
}

fn commit_named(word: &str) -> Result<bool, FieldWhy>
    ensures { result ≡ spec_commit_named word.now }
{
    match word {
        "free" => Ok(false),
        "ordered" => Ok(true),
        _ => Err(FieldWhy::NoSuch),
    }
}
