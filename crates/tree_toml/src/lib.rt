//! The text of a tree, in TOML: a setup is read from it, or its first fault is named.
//!
//! ```text
//!   format = 3                      # 1, 2 or 3
//!   tables = ["account"]            # names, 1 to 64
//!   [[type]]                        # a type of transaction
//!   name = "transfer"
//!   steps = [["account"]]           # the tables of each step
//!   [[node]]                        # the nodes, the root first
//!   name = "root"
//!   control = "locks"               # locks, pipeline, timestamp or snapshot
//!   types = ["transfer"]            # of a leaf; a node below another one names it as its `parent`
//!   [[row]]                         # a starting row
//!   table = "account"
//!   key = 1
//!   value = 100
//! ```
//!
//! - A *setup* is the value that a store is set up with: names, profiles, tree and starting rows (`store_setup`).
//! - A *fault* ([`TreeTextError`]) is a text that is not TOML, a key or a value and what is wrong with it (`Field`), a list of nodes
//!   that is no tree (`Shape`), or a node that breaks a rule of placement (`Misplaced`).
//! - A *blank* text is the plain setup: the table `t`, the type `any`, one leaf of locks, and no rows.
//!
//! **What is proved.** [`read_tree`] returns the setup that `setup_of_text` (`specs/SetupText.antt`) says, or the fault, or out
//! of memory (clause `setup`). A setup is whole, as an engine requires (`whole`); each number in it has a name (`named`,
//! `names`); and it is within the limits of a text (`limits`). [`put_fault`] appends the line of a fault (`fault_text` in
//! `specs/Texts.antt`).
//!
//! **Not claimed**: all faults of a text; the first is named. What TOML is, the crate `toml` decides.
#![tactic(auto)]

mod fault;
mod fields;
mod lists;
mod members;
mod names;
mod node_fields;
mod nodes;
mod plain;
mod rows;
mod setup;
mod shares;
mod steps;
mod tables;
mod text;
mod trees;
mod types;

pub use fault::{FieldWhy, Key, ListName, Place, TreeTextError};
pub use setup::read_tree;
pub use store_setup::Setup;
pub use text::put_fault;
