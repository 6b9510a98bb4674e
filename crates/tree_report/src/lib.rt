//! A tree as text: its drawing, and what it guarantees.
//!
//! The shell shows both, as `.tree` and `.guarantees`.
//!
//! ```text
//!   root snapshot batch 16
//!   ├── view locks types report
//!   └── upd locks
//!       ├── sales pipeline types new_order payment
//!       └── ship pipeline types delivery
//! ```
//!
//! [`put_tree`] draws a line for each node: its name, its control, its parameters, and the names of its types.
//! [`put_guarantees`] writes a line for each sentence, which begins with `guaranteed:` or `not guaranteed:`. The first three
//! hold of every tree, the next three depend on its shape, and one for each type says whether its reads wait.
//!
//! **What is proved.** The drawing is `drawing` (`specs/Drawing.antt`). Each answer that depends on the shape is the condition
//! of a law of `guarantees` (`AreGuarantees` in `specs/Guarantees.antt`), which `tree_guarantees` decides.
//!
//! **Not claimed**: that a sentence which is not guaranteed fails in some run. That the English of a sentence says what its law
//! states is for the reader to judge.
#![tactic(auto)]

mod drawing;
mod node_line;
mod sentences;

pub use drawing::put_tree;
pub use sentences::put_guarantees;
