//! What the nodes of a path are asked, and the first of them that waits or breaks.

ghost use Rattle.std.specs.Prelude.{◌≡◌, ℕ, List, All};
ghost use Rattle.teb_rules.specs.declared.names.Cell.{Cell};
ghost use Rattle.teb_rules.specs.declared.history.Event.{Event};
ghost use Rattle.teb_rules.specs.Setup.{Setup};
ghost use Rattle.teb_rules.specs.Stops.{stop_with, stop_of};
ghost use Rattle.teb_rules.specs.declared.Verdict.{Verdict};
ghost use Rattle.store_setup.specs.tree.Grown.{node_numbers};
ghost use Rattle.version_chain.specs.Lists.{Version};
ghost use Rattle.phase_api.specs.declared.facts.Facts.{Facts};
ghost use Rattle.engine_core.specs.Questions.{CanAsk, MayAskToRead, MayAskToWrite, MayAskToPrepare, MayAskToBegin, read_verdict, write_verdict, prepare_verdict, begin_verdict};
ghost use Rattle.engine_core.specs.Views.{store_in, events_in};

use crate::engine_view::EngineView;
use candidate_reads::control_at;
use phase_api::Control;
use teb_rules::names::{Cell, Node, Spot, Txn};
use teb_rules::{Stop, Verdict};
use version_chain::Chains;

/// A question to each node of a path. Contracts see when a node of a number may be asked, and what it answers. Each question has a type
/// of its own, so that the loop over the nodes is compiled for it.
pub trait Question: Copy {
    ghost may_ask: { Self → (Cell → List Version) → Facts → ℕ → Type 0 };

    ghost verdict_on: { Self → Setup → List Event → ℕ → Verdict };

    /// Returns the answer of a node.
    fn verdict_at<C: Chains>(self, view: &EngineView<C>, node: Node) -> Verdict
        requires { CanAsk (may_ask self (C.lists view.now.state.now.chains) view.now.facts) view.now.facts node }
        ensures { result ≡ verdict_on self (store_in view.now).setup (events_in view.now) node.0 };
}

/// May a transaction read a cell?
#[derive(Clone, Copy)]
pub struct ReadQuestion {
    pub txn: Txn,
    pub cell: Cell,
}

impl Question for ReadQuestion {
    ghost may_ask = { MayAskToRead };

    ghost verdict_on = { read_verdict };

    #[inline(always)]
    fn verdict_at<C: Chains>(self, view: &EngineView<C>, node: Node) -> Verdict {
        let facts = &view.facts;
        control_at(&view.state.controls, facts, node).before_read(facts, self.txn, self.cell)
    }
}

/// May a transaction write a cell, in which its version has, or would have, the place `at`? It is left out if no node orders versions by it.
#[derive(Clone, Copy)]
pub struct WriteQuestion {
    pub txn: Txn,
    pub cell: Cell,
    pub at: Option<usize>,
}

impl Question for WriteQuestion {
    ghost may_ask = { MayAskToWrite };

    ghost verdict_on = { write_verdict };

    #[inline(always)]
    fn verdict_at<C: Chains>(self, view: &EngineView<C>, node: Node) -> Verdict {
        let facts = &view.facts;
        let control = control_at(&view.state.controls, facts, node);
        control.before_write(facts, &view.state.chains, self.at, self.txn, self.cell)
    }
}

/// May a transaction prepare?
#[derive(Clone, Copy)]
pub struct PrepareQuestion {
    pub txn: Txn,
}

impl Question for PrepareQuestion {
    ghost may_ask = { MayAskToPrepare };

    ghost verdict_on = { prepare_verdict };

    #[inline(always)]
    fn verdict_at<C: Chains>(self, view: &EngineView<C>, node: Node) -> Verdict {
        let facts = &view.facts;
        control_at(&view.state.controls, facts, node).validate(facts, self.txn)
    }
}

/// May a transaction begin with this type and instance?
#[derive(Clone, Copy)]
pub struct BeginQuestion {
    pub spot: Spot,
}

impl Question for BeginQuestion {
    ghost may_ask = { MayAskToBegin };

    ghost verdict_on = { begin_verdict };

    #[inline(always)]
    fn verdict_at<C: Chains>(self, view: &EngineView<C>, node: Node) -> Verdict {
        let facts = &view.facts;
        control_at(&view.state.controls, facts, node).start(facts, self.spot)
    }
}

/// Returns the stop of the first node, from the root, that waits or breaks.
#[inline(always)]
pub fn first_stop<Q: Question, C: Chains>(view: &EngineView<C>, nodes: &[Node], question: Q) -> Stop
    requires { All (CanAsk (Q.may_ask question (C.lists view.now.state.now.chains) view.now.facts) view.now.facts) nodes.now }
    ensures { result ≡ stop_of (Q.verdict_on question (store_in view.now).setup (events_in view.now)) (node_numbers nodes.now) }
{
    for node in nodes {
        match question.verdict_at(view, *node) {
            Verdict::Go => {}
            verdict => return stop_at(*node, verdict),
        }
    }
    Stop::Go
}

/// Returns the stop that follows from a node's verdict.
fn stop_at(node: Node, verdict: Verdict) -> Stop
    ensures { result ≡ stop_with node.0 verdict Stop.Go }
{
    match verdict {
        Verdict::Go => Stop::Go,
        Verdict::Wait(who) => Stop::Wait { who, node },
        Verdict::Break(broken) => Stop::Break { node, broken },
    }
}
