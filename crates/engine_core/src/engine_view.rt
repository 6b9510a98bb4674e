//! What a decision looks at: what an engine keeps, lent, and the `Facts` that controls are told.

ghost use Rattle.engine_core.specs.States.{AreTogether};
ghost use Rattle.engine_core.specs.Props.{kept};

use crate::engine_state::EngineState;
use candidate_reads::read;
use phase_api::Facts;
use teb_rules::names::{Cell, Kind, Table, Txn};
use version_chain::Chains;

/// What an engine keeps between two answers, lent to be read, and the facts that controls are told. It is five words, made at each request.
#[derive(Drop)]
pub struct EngineView<'a, C: Chains> {
    pub facts: Facts<'a>,
    pub state: &'a EngineState<C>,
    ghost whole: { AreTogether C.lists facts state.now } by { Prim.hlevel kept },
}

impl<'a, C: Chains> EngineView<'a, C> {
    ghost use Rattle.std.specs.Prelude.{◌≡◌, ltb, IsTrue};
    ghost use Rattle.teb_rules.specs.Versions.{read};
    ghost use Rattle.teb_rules.specs.history.Phases.{unfinished};
    ghost use Rattle.engine_core.specs.Views.{store_in, events_in};

    /// Returns whether the store has a table.
    pub fn has_table(&self, table: Table) -> bool
        ensures { result ≡ ltb table.0 (store_in self.now).tables }
    {
        table.0 < self.state.setup.names.tables.len()
    }

    /// Returns whether the store has a type.
    pub fn has_type(&self, kind: Kind) -> bool
        ensures { result ≡ ltb kind.0 (store_in self.now).setup.types }
    {
        kind.0 < self.facts.tree.types()
    }

    /// Returns what an unfinished transaction reads of a cell: the writer, and the value.
    pub fn read(&self, t: Txn, cell: Cell) -> (Txn, Option<i64>)
        requires unfinished { IsTrue (unfinished (events_in self.now) t.0) }
        ensures source { result.0.0 ≡ (read (store_in self.now).setup (store_in self.now).rows (events_in self.now) t.0 cell).0 }
        ensures value { result.1 ≡ (read (store_in self.now).setup (store_in self.now).rows (events_in self.now) t.0 cell).1 }
    {
        let state = self.state;
        read(
            &state.controls,
            &state.chains,
            &state.setup.rows,
            &self.facts,
            t,
            cell,
        )
    }
}
