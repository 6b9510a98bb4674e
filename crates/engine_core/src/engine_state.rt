//! What an engine keeps: `Engine` holds it in a box, `EngineView` lends it.

ghost use Rattle.std.specs.Prelude.{◌≡◌};
ghost use Rattle.phase_api.specs.FactsView.{setup_of};
ghost use Rattle.store_setup.specs.Stores.{store_of};
ghost use Rattle.engine_core.specs.Wholes.{IsWhole, HaveRoom};
ghost use Rattle.engine_core.specs.Props.{kept};

use crate::any_control::AnyControl;
use crate::decide::decide;
use crate::decision::Decision;
use crate::engine_view::EngineView;
use crate::latest_txns::LatestTxns;
use cursor_book::Cursors;
use dependency_book::Book;
use phase_api::Facts;
use store_setup::Setup;
use teb_rules::history::History;
use teb_rules::names::{Cell, Request, Session, Txn};
use version_chain::Chains;

/// A store with its history, and what is kept of the history: a control for each node, the versions, the dependencies, the
/// cursor of each transaction, which one each session began last, and for how many more events there is room in all of it. All of it
/// stands for the history, and has that room, whenever a function is given it.
#[derive(Drop)]
pub struct EngineState<C: Chains> {
    pub setup: Setup,
    pub history: History,
    pub controls: Vec<AnyControl>,
    pub chains: C,
    pub book: Book,
    pub cursors: Cursors,
    pub latest: LatestTxns,
    pub room: usize,
    ghost whole: { IsWhole (store_of setup) history.events controls.items (C.lists chains) book.lists cursors.cursors latest } by { Prim.hlevel kept },
    ghost has_room: { HaveRoom room history.spare controls.items book.spare (C.spare chains) cursors.spare } by { Prim.hlevel kept },
}

impl<C: Chains> EngineState<C> {
    ghost use Rattle.std.specs.Prelude.{IsTrue};
    ghost use Rattle.teb_rules.specs.history.Phases.{unfinished};
    ghost use Rattle.teb_rules.specs.Answer.{answer};
    ghost use Rattle.teb_rules.specs.Versions.{read};
    ghost use Rattle.teb_rules.specs.laws.Lawful.{Settled};
    ghost use Rattle.engine_core.specs.Decisions.{carried, IsBounded};
    ghost use Rattle.engine_core.specs.Views.{store_in};

    /// Lends all of it, to be read, between two answers.
    pub fn view(&self) -> EngineView<'_, C>
        requires { Settled self.now.history.events }
        ensures store { store_in result ≡ store_of self.now.setup }
        ensures history { result.facts.history.now ≡ self.now.history }
        ensures state { result.state.now ≡ self.now }
    {
        EngineView {
            facts: facts_of(&self.history, &self.setup),
            state: self,
        }
    }

    /// Decides a request of a session.
    pub fn decide(&self, session: Session, request: Request) -> Decision
        requires settled { Settled self.now.history.events }
        ensures answer { carried (store_of self.now.setup) self.now.history.events result ≡ answer (store_of self.now.setup) self.now.history.events session request }
        ensures bounded { IsBounded (C.lists self.now.chains) (store_of self.now.setup).setup self.now.history.events result }
    {
        decide(&self.view(), session, request)
    }

    /// Returns what an unfinished transaction reads of a cell: the writer, and the value.
    pub fn read(&self, t: Txn, cell: Cell) -> (Txn, Option<i64>)
        requires settled { Settled self.now.history.events }
        requires unfinished { IsTrue (unfinished self.now.history.events t.0) }
        ensures source { result.0.0 ≡ (read (store_of self.now.setup).setup (store_of self.now.setup).rows self.now.history.events t.0 cell).0 }
        ensures value { result.1 ≡ (read (store_of self.now.setup).setup (store_of self.now.setup).rows self.now.history.events t.0 cell).1 }
    {
        self.view().read(t, cell)
    }
}

/// Returns the facts that controls are told.
pub fn facts_of<'a>(history: &'a History, setup: &'a Setup) -> Facts<'a>
    ensures setup { setup_of result ≡ (store_of setup.now).setup }
    ensures history { result.history.now ≡ history.now }
{
    Facts {
        history,
        tree: &setup.tree,
        profiles: &setup.profiles,
    }
}
