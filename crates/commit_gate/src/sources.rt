//! The transactions that a Commit waits for among those that its transaction read from.

ghost use Rattle.std.specs.Prelude.{◌≡◌, ◌&&◌, find};
ghost use Rattle.teb_rules.specs.history.Phases.{unfinished};
ghost use Rattle.teb_rules.specs.Tree.{meets};
ghost use Rattle.phase_api.specs.FactsView.{setup_of, events_of, IsOrderly, IsTyped};

use phase_api::Facts;
use teb_rules::names::{Node, Txn};

/// Returns the first of the sources that is unfinished and meets t at a node.
pub(crate) fn unfinished_source(sources: &[Txn], facts: &Facts, n: Node, t: Txn) -> Option<Txn>
    requires orderly { IsOrderly (setup_of facts.now) (events_of facts.now) }
    requires typed { IsTyped facts.now t.0 }
    ensures { result ≡ find (λ w. unfinished (events_of facts.now) w.0 && meets (setup_of facts.now) (events_of facts.now) n.0 t.0 w.0) sources.now }
{
    for w in sources {
        if is_waited_for(facts, n, t, *w) {
            return Some(*w);
        }
    }
    None
}

// Returns whether w is unfinished and meets t at a node.
fn is_waited_for(facts: &Facts, n: Node, t: Txn, w: Txn) -> bool
    requires orderly { IsOrderly (setup_of facts.now) (events_of facts.now) }
    requires typed { IsTyped facts.now t.0 }
    ensures { result ≡ (unfinished (events_of facts.now) w.0 && meets (setup_of facts.now) (events_of facts.now) n.0 t.0 w.0) }
{
    facts.history.is_unfinished(w) && facts.meet_at(n, t, w)
}
