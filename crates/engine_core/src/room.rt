//! Room for the events of answers.

ghost use Rattle.std.specs.Prelude.{◌≡◌, ◌≤◌, OnOk};

use crate::engine_state::EngineState;
use crate::notes::reserve_each;
use std::alloc::AllocError;
use teb_rules::names::SESSIONS;
use version_chain::Chains;

/// The most events of one answer: an abort takes one transaction of each other session with it at most, and a scan reads 16 cells.
pub(crate) const MOST_EVENTS: usize = SESSIONS as usize;

/// Room is made for this many events at a time.
const AHEAD: usize = 256;

/// Makes room for one answer, if there is less. Everything stands for the same history as before.
///
/// # Errors
/// Out of memory.
#[inline(always)]
pub fn make_room<C: Chains>(state: &mut EngineState<C>) -> Result<(), AllocError>
    ensures events { state.new.history.events ≡ state.old.history.events }
    ensures setup { state.new.setup ≡ state.old.setup }
    ensures enough { OnOk result (MOST_EVENTS ≤ state.new.room) }
{
    if state.room >= MOST_EVENTS {
        return Ok(());
    }
    make_room_ahead(state)
}

/// Makes room ahead. It is a separate function, so that the test for room is inlined.
#[cold]
#[inline(never)]
fn make_room_ahead<C: Chains>(state: &mut EngineState<C>) -> Result<(), AllocError>
    ensures events { state.new.history.events ≡ state.old.history.events }
    ensures setup { state.new.setup ≡ state.old.setup }
    ensures enough { OnOk result (MOST_EVENTS ≤ state.new.room) }
{
    state.room = 0;
    state.history.reserve(AHEAD)?;
    reserve_each(&mut state.controls, AHEAD)?;
    state.book.reserve(AHEAD)?;
    state.chains.reserve(AHEAD)?;
    state.cursors.reserve(AHEAD)?;
    state.room = AHEAD;
    Ok(())
}
