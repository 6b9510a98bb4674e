//! The ranks of the tables at a node.

ghost use Rattle.std.specs.Prelude.{◌≡◌, ◌≤◌, IfOk, length, slice_index};
ghost use Rattle.teb_rules.specs.Setup.{above_profiles};
ghost use Rattle.runtime_pipeline.specs.Standing.{RanksOf};

use crate::under::kinds_under;
use static_steps::{Ranks, ranked_tables, ranks};
use std::alloc::{AllocError, Global};
use std::marker::Model;
use store_setup::profile::Profile;
use store_setup::tree::Tree;
use teb_rules::names::{Node, Table};

/// The rank of each table at a node. Contracts see the list of ranks, by table; a table past its end has rank 0.
#[derive(Drop)]
pub struct NodeRanks {
    ranks: Ranks,
    tables: u8,
}

impl Model for NodeRanks {
    ghost use Rattle.std.specs.Prelude.{◌≡◌, List, ℕ, length};

    ghost Value = { List ℕ };

    ghost view = { λ r. r.ranks };

    ghost invariant = { λ r. length r.ranks ≡ r.tables };
}

impl NodeRanks {
    /// Returns the ranks at a node, over the profiles of the types under it.
    ///
    /// # Errors
    /// `AllocError`: out of memory.
    pub fn of(
        alloc: Global,
        node: Node,
        tree: &Tree,
        profiles: &[Profile],
    ) -> Result<NodeRanks, AllocError>
        requires profiled { tree.now.types ≤ length profiles.now }
        requires few { above_profiles profiles.now ≤ 64 }
        ensures { IfOk result (λ ranks. RanksOf ranks (record { types = tree.now.types; profiles = profiles.now; tree = tree.now.rows }) node.0) }
    {
        let under = kinds_under(alloc, node, tree)?;
        let tables = ranked_tables(profiles);
        let ranks = ranks(alloc, profiles, &under, tables)?;
        Ok(NodeRanks { ranks, tables })
    }

    /// Returns the rank of a table, or 0 if no profile names it.
    pub fn rank(&self, table: Table) -> u8
        ensures { result ≡ slice_index self.now table.0 }
    {
        if table.0 < self.tables {
            self.ranks.rank(table)
        } else {
            0
        }
    }
}
