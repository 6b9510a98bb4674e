//! Noting an event in each control.

ghost use Rattle.std.specs.Prelude.{◌≡◌, ◌<◌, ◌≤◌, ℕ, suc, List, drop, length, OnOk, ◌∷◌};
ghost use Rattle.teb_rules.specs.declared.history.Event.{Event};
ghost use Rattle.teb_rules.specs.Setup.{Setup as Rules};
ghost use Rattle.phase_api.specs.Calls.{MayNote};
ghost use Rattle.phase_api.specs.Standing.{StandAll};
ghost use Rattle.store_setup.specs.Stores.{store_of};
ghost use Rattle.engine_core.specs.Wholes.{RoomFor};

use crate::engine_state::facts_of;
use phase_api::Control;
use std::alloc::AllocError;
use store_setup::Setup;
use teb_rules::history::{Event, History};

/// Notes the newest event in the control of each node.
#[inline(always)]
pub fn note_each<K: Control>(controls: &mut Vec<K>, history: &History, setup: &Setup, event: Event)
    requires stand { StandAll K.node_number K.stands controls.old.items (store_of setup.now).setup (drop 1 history.now.events) }
    requires newest { history.now.events ≡ event ∷ drop 1 history.now.events }
    requires may { (n : ℕ) → MayNote (store_of setup.now).setup (drop 1 history.now.events) n event }
    requires nodes { length (store_of setup.now).setup.tree ≤ 64 }
    requires room { RoomFor K.spare 1 controls.old.items }
    ensures stand { StandAll K.node_number K.stands controls.new.items (store_of setup.now).setup history.now.events }
    ensures room { (k : ℕ) → RoomFor K.spare (suc k) controls.old.items → RoomFor K.spare k controls.new.items }
{
    let facts = facts_of(history, setup);
    for control in controls.iter_mut() {
        control.note(&facts, event);
    }
}

/// Makes room for n events in the control of each node. They stand for the same history as before.
///
/// # Errors
/// Out of memory.
pub fn reserve_each<K: Control>(controls: &mut Vec<K>, n: usize) -> Result<(), AllocError>
    ensures stand { (S : Rules) (H : List Event) → StandAll K.node_number K.stands controls.old.items S H → StandAll K.node_number K.stands controls.new.items S H }
    ensures room { OnOk result (RoomFor K.spare n controls.new.items) }
{
    for control in controls.iter_mut() {
        control.reserve(n)?;
    }
    Ok(())
}
