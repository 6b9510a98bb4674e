//! Laws: a read can be found node by node, from the leaf up to the root.
//!
//! In `candidate_reads`, `candidate` gives the last version that the leaf lets a transaction see, and `amend` the later of that and
//! what a node above shows. These laws say that the result at the root is what the transaction reads:
//!
//! ```text
//!   leaf      shows t3         candidate  t3
//!   node 2    shows t7         amended    t7, since it is later in the chain
//!   root      shows nothing    amended    t7: this is what the transaction reads
//! ```
//!
//! - [`amended_is_last_seen`]: it is the last version that the transaction sees.
//! - [`amended_is_read`]: a transaction that has put no version of the cell reads it, or the starting row if there is none.
//!
//! **Law only**: no code uses this crate.
//!
//! Each holds of every sound tree, every lawful history, and chains that hold its versions (`OfEveryReader` of `specs/Laws`).
//!
//! **Not claimed**: that the engine reads in this way; it walks the chain once (`read` of `candidate_reads`).
#![tactic(auto)]

ghost use Rattle.amended_reads.specs.Laws.{AmendedIsLastSeen, AmendedIsRead};

/// The candidate of the leaf, amended by each node above it, up to the root, is the last version that the transaction sees.
pub fn amended_is_last_seen()
    ensures { AmendedIsLastSeen }
{}

/// A transaction that has put no version of the cell reads the version at that place, or the starting row if there is no place.
pub fn amended_is_read()
    ensures { AmendedIsRead }
{}
