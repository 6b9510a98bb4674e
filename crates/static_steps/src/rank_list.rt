//! The ranks of tables, once they are found.

ghost use Rattle.std.specs.Prelude.{◌≡◌, ◌<◌, length, slice_index};

use std::marker::Model;
use teb_rules::names::Table;

/// The rank of each table. Contracts see the list of ranks, by table.
#[derive(Drop)]
pub struct Ranks {
    ranks: Vec<u8>,
}

impl Model for Ranks {
    ghost use Rattle.std.specs.Prelude.{List, ℕ};

    ghost Value = { List ℕ };

    ghost view = { λ r. r.ranks.items };
}

impl Ranks {
    /// Returns the ranks of a list, by table.
    pub(crate) fn new(ranks: Vec<u8>) -> Ranks
        ensures { result ≡ ranks.items }
    {
        Ranks { ranks }
    }

    /// Returns the rank of a table: the length of the longest chain of tables that ends in it, in which each reaches the next
    /// and is not reached back by it.
    pub fn rank(&self, table: Table) -> u8
        requires { table.0 < length self.now }
        ensures { result ≡ slice_index self.now table.0 }
    {
        self.ranks[usize::from(table.0)]
    }
}
