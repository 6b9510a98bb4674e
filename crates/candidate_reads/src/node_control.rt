//! The control of a node.

ghost use Rattle.std.specs.Prelude.{◌≡◌, ◌≢◌, ◌<◌, length, IsTrue};
ghost use Rattle.teb_rules.specs.Tree.{meets};
ghost use Rattle.teb_rules.specs.laws.TreeFacts.{TreeFacts};
ghost use Rattle.teb_rules.specs.laws.Lawful.{Lawful};
ghost use Rattle.phase_api.specs.Standing.{StandAll};
ghost use Rattle.phase_api.specs.FactsView.{setup_of, events_of, IsTyped};

use phase_api::{Control, Facts};
use teb_rules::names::{Node, Txn};

/// Returns the control of a node, of the controls of all nodes.
pub fn control_at<'a, K: Control>(controls: &'a [K], facts: &Facts, n: Node) -> &'a K
    requires controls { StandAll K.node_number K.stands controls.now (setup_of facts.now) (events_of facts.now) }
    requires node { n.0 < length (setup_of facts.now).tree }
    ensures node_number { K.node_number result.now ≡ n.0 }
    ensures stands { K.stands result.now (setup_of facts.now) (events_of facts.now) }
{
    &controls[usize::from(n.0)]
}

/// Returns the control of the node at which two transactions meet.
#[inline(always)]
pub fn control_between<'a, K: Control>(controls: &'a [K], facts: &Facts, t: Txn, u: Txn) -> &'a K
    requires tree { TreeFacts (setup_of facts.now) }
    requires lawful { Lawful (setup_of facts.now) (events_of facts.now) }
    requires controls { StandAll K.node_number K.stands controls.now (setup_of facts.now) (events_of facts.now) }
    requires left { IsTyped facts.now t.0 }
    requires right { IsTyped facts.now u.0 }
    requires differ { t.0 ≢ u.0 }
    ensures node { K.node_number result.now < length (setup_of facts.now).tree }
    ensures meet { IsTrue (meets (setup_of facts.now) (events_of facts.now) (K.node_number result.now) t.0 u.0) }
    ensures stands { K.stands result.now (setup_of facts.now) (events_of facts.now) }
{
    // In a tree of one node, all transactions meet there.
    if controls.len() == 1 {
        return control_at(controls, facts, Node(0));
    }
    let (Some(a), Some(b)) = (facts.spot(t), facts.spot(u)) else {
        unreachable!()
    };
    control_at(controls, facts, facts.tree.meet(a, b))
}
