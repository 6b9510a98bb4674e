//! Why a tree text was not read, and where.

ghost use Rattle.std.specs.Prelude.{◌≡◌};
ghost use Rattle.tree_toml.specs.Reading.{fault_at, at as spec_at};

use std::alloc::{AllocError, AllocFailed};
use store_setup::tree::{Rule, ShapeWhy};
use teb_rules::names::Node;
use thiserror::Error;

/// The lists of a tree text, and its top.
#[derive(Clone, Copy, Debug, PartialEq, Eq)]
pub enum ListName {
    Top,
    Tables,
    Types,
    Nodes,
    Rows,
}

/// The keys of a tree text.
#[derive(Clone, Copy, Debug, PartialEq, Eq)]
pub enum Key {
    /// No key: an entry as a whole, or the top for a key that it does not have.
    Whole,
    Format,
    Tables,
    Types,
    Nodes,
    Rows,
    Name,
    Steps,
    Control,
    Parent,
    /// `types` of a node.
    Members,
    Batch,
    Commit,
    Of,
    Part,
    Table,
    /// `key` of a row.
    CellKey,
    Value,
}

/// A key of an entry of a list. At the top the index is 0.
#[derive(Clone, Copy, Debug, PartialEq, Eq)]
pub struct Place {
    pub list: ListName,
    pub index: u32,
    pub key: Key,
}

/// What is wrong with a value.
#[derive(Clone, Copy, Debug, PartialEq, Eq)]
pub enum FieldWhy {
    /// The entry has a key that is not among its keys.
    Unknown,
    /// The key is required, and is missing.
    Missing,
    /// The value has another TOML type.
    Form,
    /// A new name is not a valid name.
    Name,
    /// The name or the cell was given before.
    Repeated,
    /// The name or the word is not among those allowed.
    NoSuch,
    /// The integer is outside its limits.
    Range,
    /// The array's length is outside its limits.
    Many,
}

/// Why a tree text was not read.
#[derive(Clone, Copy, Debug, PartialEq, Eq, Drop, Error)]
pub enum TreeTextError {
    #[error("no TOML")]
    NotToml,
    #[error("{place:?}: {why:?}")]
    Field { place: Place, why: FieldWhy },
    #[error("{node:?} has a bad shape: {why:?}")]
    Shape { node: Node, why: ShapeWhy },
    #[error("{node:?} breaks {rule:?}")]
    Misplaced { node: Node, rule: Rule },
    #[error("out of memory")]
    OutOfMemory,
}

impl From<AllocError> for TreeTextError {
    ghost use Rattle.tree_toml.specs.declared.fault.TreeTextError.TheVariants.{OutOfMemory};

    ghost from_gives = { λ _ e. e ≡ OutOfMemory };

    fn from(_error: AllocError) -> TreeTextError {
        TreeTextError::OutOfMemory
    }
}

impl<T: Drop> From<AllocFailed<T>> for TreeTextError {
    ghost use Rattle.tree_toml.specs.declared.fault.TreeTextError.TheVariants.{OutOfMemory};

    ghost from_gives = { λ _ e. e ≡ OutOfMemory };

    fn from(_error: AllocFailed<T>) -> TreeTextError {
        TreeTextError::OutOfMemory
    }
}

impl Place {
    /// Returns this fault at the place.
    pub(crate) fn fault(self, why: FieldWhy) -> TreeTextError
        ensures { result ≡ fault_at self why }
    {
        TreeTextError::Field { place: self, why }
    }
}

/// Returns what was read at a place.
///
/// # Errors
/// `Field` with the place, and the reason that `read` has.
pub fn at<T>(place: Place, read: Result<T, FieldWhy>) -> Result<T, TreeTextError>
    ensures { result ≡ spec_at place read }
{
    match read {
        Ok(x) => Ok(x),
        Err(why) => Err(place.fault(why)),
    }
}
