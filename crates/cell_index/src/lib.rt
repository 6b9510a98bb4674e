//! An index of cells: each cell that is added gets the next number, its *place*, and is found again mostly without a hash.
//!
//! A register that keeps something for each cell keeps it in a vector, and finds the index in that vector here.
//!
//! ```text
//!   cell (table 2, key 300)          block 300 / 128 = 2 of table 2; entry 300 mod 128 = 44 of its page
//!
//!   slots     512 entries            slot of the block  ──►  the block that has it, and where its page begins
//!   numbers   pages of 128 numbers   page, entry 44     ──►  place + 1, or 0 if the cell has none
//!   far       a hash map             cells of a block whose slot another block has
//! ```
//!
//! **What is proved.** Contracts see the list of the cells, each once, in the order in which they were added (`Shown` of
//! `specs/Cells`). The place of a cell is its index in that list (`place_in`), and [`CellIndex::add`] appends a cell that is not in
//! it (`with_cell`). Slots, pages and the map are hidden behind `IsIndex` of `specs/Index`.
//!
//! **What it costs.** A look-up reads a slot and a page; only if another block has the slot, it hashes. A page takes 512 bytes, so
//! the pages take at most 256 KiB. [`CellIndex::reserve`] makes room, so `add` takes no memory.
//!
//! **Not claimed**: how many cells have a page; that depends on their keys. A cell cannot be removed.
#![tactic(auto)]

mod blocks;
mod index;

pub use index::CellIndex;
