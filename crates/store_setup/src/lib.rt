//! What a store is set up with, as a value: names, profiles of the types, the tree of controls, and the starting rows.
//!
//! An engine is made from a [`Setup`]. One comes from the text of a tree (`tree_toml`), or is made in code.
//!
//! - Contracts see a [`Setup`] as a `SetupView` (`specs/SetupView`).
//! - `rules_of` is the part that the controls go by; `store_of` is the store of the rules: that part, the number of tables, and the
//!   starting rows (`specs/Stores`).
//! - A setup is *whole* if an engine can be made from it: there is a profile for each type, the tree is sound for these types, and
//!   each table that a profile or a row names exists (`IsWhole` of `specs/Sound`).
//! - `HasNames` says that its names have the form of names, and that no two tables have the same one.
//!
//! **Not claimed**: that a [`Setup`] is whole. Its fields are public, so each crate that makes an engine asks for `IsWhole`.
#![tactic(auto)]

pub mod profile;
pub mod tree;

use profile::Profile;
use teb_rules::names::{NameBook, Rows};
use tree::Tree;

/// What a store is set up with: the names, for each type its profile, the tree of controls, and the starting rows.
#[derive(Drop)]
pub struct Setup {
    pub names: NameBook,
    pub profiles: Vec<Profile>,
    pub tree: Tree,
    pub rows: Rows,
    /// The format of the text, 1 to 3.
    pub format: u8,
}
