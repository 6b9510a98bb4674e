//! The engine of a store.

ghost use Rattle.std.specs.Prelude.{◌≡◌, [], IsTrue, true, false, IfOk, OnOk, OnErr};
ghost use Rattle.teb_rules.specs.declared.names.Cell.{Cell};
ghost use Rattle.teb_rules.specs.Accepted.{IsSound};
ghost use Rattle.teb_rules.specs.Answer.{answer};
ghost use Rattle.teb_rules.specs.laws.Lawful.{Lawful};
ghost use Rattle.phase_api.specs.Standing.{StandAll};
ghost use Rattle.phase_api.specs.Versions.{HoldsVersions};
ghost use Rattle.dependency_book.specs.Books.{BookOf};
ghost use Rattle.short_reply.specs.ShortReplies.{full_reply, IsNoScan};
ghost use Rattle.store_setup.specs.SetupView.{setup_view};
ghost use Rattle.store_setup.specs.Sound.{IsWhole};
ghost use Rattle.store_setup.specs.Stores.{store_of};
ghost use Rattle.engine_core.specs.AnyControls.{any_node_number, any_stands};
ghost use Rattle.engine_core.specs.EngineModel.{IsEngine, IsOfEngine};

use crate::any_control::{AnyControl, controls_of};
use crate::carry_out::scan;
use crate::engine_state::{EngineState, facts_of};
use crate::latest_txns::LatestTxns;
use crate::respond::{Response, respond};
use crate::room::make_room;
use cursor_book::Cursors;
use dependency_book::Book;
use short_reply::ShortReply;
use std::alloc::{AllocError, Global};
use std::marker::Model;
use store_setup::Setup;
use teb_rules::history::History;
use teb_rules::names::{MOST_TXNS, Reply, Request, Session};
use version_chain::Chains;

/// A store with its history, which answers requests. Contracts see the store, its names, the events, the
/// newest first, and whether there is room for an answer.
pub struct Engine<C: Chains> {
    state: Box<EngineState<C>>,
    ready: bool,
}

/// Hand-written `Drop`, so that callers do not re-prove the drop glue.
impl<C: Chains> Drop for Engine<C> {
    fn drop(self) {
        let Engine {
            state: _state,
            ready: _ready,
        } = self;
    }
}

impl<C: Chains> Model for Engine<C> {
    ghost use Rattle.store_setup.specs.Stores.{store_of};
    ghost use Rattle.engine_core.specs.EngineModel.{EngineModel, IsEngine};

    ghost Value = { EngineModel };

    ghost view = { λ e. record { store = store_of e.state.value.setup; names = e.state.value.setup.names; events = e.state.value.history.events; ready = e.ready } };

    ghost invariant = { λ e. IsEngine e.state.value e.ready };
}

impl<C: Chains> Engine<C> {
    /// Returns the engine of a store with this setup, over chains with no version. Nothing has happened yet.
    ///
    /// # Errors
    /// `AllocError`: out of memory. The setup and the chains are dropped.
    pub fn new(alloc: Global, setup: Setup, chains: C) -> Result<Self, AllocError>
        requires setup { IsWhole (setup_view setup) }
        requires chains { (x : Cell) → C.lists chains x ≡ [] }
        ensures store { IfOk result (λ e. e.store ≡ store_of setup) }
        ensures names { IfOk result (λ e. e.names ≡ setup.names) }
        ensures events { IfOk result (λ e. e.events ≡ []) }
        ensures ready { IfOk result (λ e. e.ready ≡ false) }
    {
        let state = new_state(alloc, setup, chains)?;
        Ok(Engine {
            state: Box::new(alloc, state)?,
            ready: false,
        })
    }

    /// Makes room for the events of one answer.
    ///
    /// # Errors
    /// Out of memory. Everything is unchanged.
    #[inline(always)]
    pub fn ready(&mut self) -> Result<(), AllocError>
        ensures store { self.new.store ≡ self.old.store }
        ensures names { self.new.names ≡ self.old.names }
        ensures events { self.new.events ≡ self.old.events }
        ensures ok { OnOk result (self.new.ready ≡ true) }
        ensures err { OnErr result (self.new ≡ self.old) }
    {
        if self.ready {
            return Ok(());
        }
        make_room(&mut self.state)?;
        self.ready = true;
        Ok(())
    }

    /// Makes room for `events` events in the list of events, and for as many transactions in what is kept of each, so that neither has to move
    /// as they come. It is useful if the number of requests to follow is known. Registers that are searched by hash are left to grow, since
    /// they cost time if they are larger than what they hold. `ready` still has to make the room for each answer.
    ///
    /// # Errors
    /// Out of memory. Some of that room may have been made; everything else is unchanged.
    pub fn reserve_ahead(&mut self, events: usize) -> Result<(), AllocError>
        ensures store { self.new.store ≡ self.old.store }
        ensures names { self.new.names ≡ self.old.names }
        ensures events { self.new.events ≡ self.old.events }
        ensures ready { self.new.ready ≡ self.old.ready }
    {
        let txns = events.min(MOST_TXNS as usize);
        self.state.history.reserve_ahead(events, txns)
    }

    /// Answers a request. It uses up the room, and takes no memory.
    pub fn ask(&mut self, session: Session, request: Request) -> Reply
        requires { IsTrue self.old.ready }
        ensures reply { result ≡ (answer self.old.store self.old.events session request).0 }
        ensures events { self.new.events ≡ (answer self.old.store self.old.events session request).1 }
        ensures store { self.new.store ≡ self.old.store }
        ensures names { self.new.names ≡ self.old.names }
        ensures ready { self.new.ready ≡ false }
    {
        self.ready = false;
        let state = &mut *self.state;
        match respond(state, session, &request) {
            Response::Reply(reply) => reply.full(),
            Response::Scan(t, first, count) => scan(state, t, first, count),
        }
    }

    /// Answers a request that is no scan: a short reply costs less to move. It uses up the room, and takes no memory.
    #[inline(always)]
    pub fn ask_short(&mut self, session: Session, request: &Request) -> ShortReply
        requires ready { IsTrue self.old.ready }
        requires short { IsNoScan request.now }
        ensures reply { full_reply result ≡ (answer self.old.store self.old.events session request.now).0 }
        ensures events { self.new.events ≡ (answer self.old.store self.old.events session request.now).1 }
        ensures store { self.new.store ≡ self.old.store }
        ensures names { self.new.names ≡ self.old.names }
        ensures ready { self.new.ready ≡ false }
    {
        self.ready = false;
        let state = &mut *self.state;
        match respond(state, session, request) {
            Response::Reply(reply) => reply,
            Response::Scan(..) => unreachable!(),
        }
    }

    /// Returns the history so far. Some list of requests leads to it, and the rules granted each of its events.
    pub fn history(&self) -> &History
        ensures events { result.now.events ≡ self.now.events }
        ensures sound { IsSound self.now.store.setup }
        ensures reached { IsOfEngine self.now }
        ensures lawful { Lawful self.now.store.setup self.now.events }
    {
        &self.state.history
    }

    /// Returns what the store is set up with.
    pub fn setup(&self) -> &Setup
        ensures store { store_of result.now ≡ self.now.store }
        ensures names { result.now.names ≡ self.now.names }
        ensures whole { IsWhole (setup_view result.now) }
    {
        &self.state.setup
    }

    /// Returns the versions of the cells.
    pub fn chains(&self) -> &C
        ensures { HoldsVersions self.now.store.setup self.now.events (C.lists result.now) }
    {
        &self.state.chains
    }

    /// Returns the controls of the nodes, in ascending number.
    pub fn controls(&self) -> &[AnyControl]
        ensures { StandAll any_node_number any_stands result.now self.now.store.setup self.now.events }
    {
        &self.state.controls
    }

    /// Returns the readers and writers of each cell, the transactions that each one read from, and the unfinished transactions.
    pub fn book(&self) -> &Book
        ensures { BookOf result.now.lists self.now.events }
    {
        &self.state.book
    }

    /// Returns the history, and drops the rest.
    pub fn into_history(self) -> History
        ensures { result.events ≡ self.events }
    {
        let Engine {
            state,
            ready: _ready,
        } = self;
        Box::into_inner(state).history
    }
}

/// Returns what an engine keeps of an empty history.
fn new_state<C: Chains>(
    alloc: Global,
    setup: Setup,
    chains: C,
) -> Result<EngineState<C>, AllocError>
    requires setup { IsWhole (setup_view setup) }
    requires chains { (x : Cell) → C.lists chains x ≡ [] }
    ensures kept { IfOk result (λ k. IsEngine k false) }
    ensures events { IfOk result (λ k. k.history.events ≡ []) }
    ensures setup { IfOk result (λ k. k.setup ≡ setup) }
{
    let history = History::new(alloc);
    let controls = controls_of(alloc, &facts_of(&history, &setup))?;
    Ok(EngineState {
        setup,
        history,
        controls,
        chains,
        book: Book::new(alloc),
        cursors: Cursors::new(alloc),
        latest: LatestTxns::new(),
        room: 0,
    })
}
