//! Lists for registers that grow with the history: all values of all lists in one vector.
//!
//! Each list has a *segment* of the vector. It gets one of four places with its first value. A full segment moves to the end, to
//! twice its room, and its old places are left empty.
//!
//! ```text
//!   list 0   from place 0, 2 of 4                           places   0 1 2 3 │ 4 5 6 7 │ 8 9 ..
//!   list 1   from place 8, 5 of 8; before: place 4, 4 of 4           a b _ _ │ (empty) │ c d e f g _ _ _
//! ```
//!
//! - [`NumberedLists`]: lists that are numbered in the order in which they were begun. A list is found by its number.
//! - [`CellMultimap`]: a list for each cell, which is found by the cell's place in an index (`cell_index`).
//!
//! The values of a list are lent as one slice. A push costs the same however much is kept: each value pays for four places, which
//! covers the moves of its segment.
//!
//! **What is proved.** Contracts see the lists: `lists` of [`NumberedLists`], `values_in` of [`CellMultimap`]. `reserve` makes room
//! for the values to come, so no edit takes memory. Segments are hidden behind `IsArena` of `specs/Arenas`.
//!
//! **Not claimed**: that empty places are used again. So a vector takes at most 2^30 values in its life, and `reserve` fails after
//! that.
#![tactic(auto)]

mod arena;
mod cell_multimap;
mod numbered_lists;

pub use cell_multimap::CellMultimap;
pub use numbered_lists::NumberedLists;
