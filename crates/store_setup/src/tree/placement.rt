//! The placement of controls: which may be above which.

ghost use Rattle.std.specs.Prelude.{◌≡◌, ◌<◌, ◌≤◌, length};
ghost use Rattle.store_setup.specs.tree.Answers.{Finds, rule_name};
ghost use Rattle.store_setup.specs.tree.Grown.{rows_of};
ghost use Rattle.store_setup.specs.tree.Rows.{is_kind};
ghost use Rattle.teb_rules.specs.Accepted.{first_at, placement_fault, some_above};
ghost use Rattle.teb_rules.specs.Tree.{below};

use crate::tree::way::some_above;
use crate::tree::{NodeRow, Rule, TreeError};
use teb_rules::names::{ControlKind, Node};

/// Tests whether each node is at a place that the rules allow.
///
/// # Errors
/// `Misplaced` at the first node that is at a place which a rule forbids.
pub fn check_placement(rows: &[NodeRow]) -> Result<(), TreeError>
    requires { length rows.now ≤ 64 }
    ensures { Finds result (first_at (placement_fault (rows_of rows.now)) (below (length rows.now))) }
{
    for n in 0..rows.len() as u8 {
        if let Some(rule) = broken_at(rows, Node(n)) {
            return Err(TreeError::Misplaced {
                node: Node(n),
                rule,
            });
        }
    }
    Ok(())
}

// Returns the first rule that one node breaks.
fn broken_at(rows: &[NodeRow], n: Node) -> Option<Rule>
    requires { n.0 < length rows.now }
    ensures { rule_name result ≡ placement_fault (rows_of rows.now) n.0 }
{
    let row = &rows[usize::from(n.0)];
    match row.control {
        ControlKind::Snapshot if n.0 != 0 => Some(Rule::P1),
        ControlKind::Timestamp if !row.ordered && is_below(rows, n, ControlKind::Locks) => Some(
            Rule::P2,
        ),
        ControlKind::Timestamp if is_below(rows, n, ControlKind::Pipeline) => Some(Rule::P3),
        _ => None,
    }
}

// Returns whether a node of this control is above n, at any height.
#[tactic(auto, unfolding(teb_rules::specs::Tree::way))]
fn is_below(rows: &[NodeRow], n: Node, control: ControlKind) -> bool
    ensures { result ≡ some_above (rows_of rows.now) n.0 (λ r. is_kind control r.control) }
{
    some_above(rows, n, n.0, n, control)
}
