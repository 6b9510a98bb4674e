//! The facts that controls are told.

ghost use Rattle.std.specs.Prelude.{◌≡◌, ◌↔◌, ◌&&◌, not, eqb, cond, Some, None, IfSome, IsSome, IsTrue};

use store_setup::profile::Profile;
use store_setup::tree::Tree;
use teb_rules::history::History;
use teb_rules::names::{Node, Spot, Txn};

/// The history, and what the setup says of types: the tree, and the profile of each type.
#[derive(Drop)]
pub struct Facts<'a> {
    pub history: &'a History,
    pub tree: &'a Tree,
    pub profiles: &'a [Profile],
}

#[tactic(auto, unfolding(teb_rules::specs::Tree::on, teb_rules::specs::Tree::side, teb_rules::specs::Tree::meets))]
impl<'a> Facts<'a> {
    ghost use Rattle.teb_rules.specs.history.Phases.{begun, spot_of};
    ghost use Rattle.teb_rules.specs.Tree.{on, side, meets};
    ghost use Rattle.phase_api.specs.FactsView.{setup_of, events_of, IsTyped};

    /// Returns the type and the instance with which a transaction began, or `None` if it has not begun.
    pub fn spot(&self, t: Txn) -> Option<Spot>
        ensures begun { IsSome result ↔ IsTrue (begun (events_of self.now) t.0) }
        ensures spot { IfSome result (λ s. s ≡ spot_of (events_of self.now) t.0) }
    {
        self.history.spot(t)
    }

    /// Returns whether a node is on the path of a transaction.
    #[inline(always)]
    pub fn is_on(&self, n: Node, t: Txn) -> bool
        requires { IsTyped self.now t.0 }
        ensures { result ≡ on (setup_of self.now) (events_of self.now) n.0 t.0 }
    {
        match self.spot(t) {
            Some(spot) => self.tree.is_on(n, spot),
            None => false,
        }
    }

    /// Returns the number of the side of a node on which a transaction is: the child's above its leaf, and its own at the leaf.
    pub fn side(&self, n: Node, t: Txn) -> u32
        requires typed { IsTyped self.now t.0 }
        requires on { IsTrue (on (setup_of self.now) (events_of self.now) n.0 t.0) }
        ensures { result ≡ side (setup_of self.now) (events_of self.now) n.0 t.0 }
    {
        match self.spot(t) {
            Some(spot) => match self.tree.side(n, spot) {
                Some(child) => u32::from(child.0),
                None => t.0,
            },
            None => 0,
        }
    }

    /// Returns the number of the side of a node on which a transaction is, or `None` if the node is not on its path.
    #[inline(always)]
    pub fn side_on(&self, n: Node, t: Txn) -> Option<u32>
        requires { IsTyped self.now t.0 }
        ensures { result ≡ cond (on (setup_of self.now) (events_of self.now) n.0 t.0) (Some (side (setup_of self.now) (events_of self.now) n.0 t.0)) None }
    {
        match self.spot(t) {
            Some(spot) => self.tree.side_on(n, spot, t.0),
            None => None,
        }
    }

    /// Returns whether two transactions meet at a node: it is on the paths of both, and they are on different sides of it.
    #[inline(always)]
    pub fn meet_at(&self, n: Node, t: Txn, u: Txn) -> bool
        requires left { IsTyped self.now t.0 }
        requires right { IsTyped self.now u.0 }
        ensures { result ≡ meets (setup_of self.now) (events_of self.now) n.0 t.0 u.0 }
    {
        match self.side_on(n, t) {
            Some(own) => self.is_across(n, own, u),
            None => false,
        }
    }

    // Returns whether a node is on the path of a transaction, which is on another side of it than `own`.
    fn is_across(&self, n: Node, own: u32, u: Txn) -> bool
        requires { IsTyped self.now u.0 }
        ensures { result ≡ (on (setup_of self.now) (events_of self.now) n.0 u.0 && not (eqb own (side (setup_of self.now) (events_of self.now) n.0 u.0))) }
    {
        match self.side_on(n, u) {
            Some(other) => own != other,
            None => false,
        }
    }
}
