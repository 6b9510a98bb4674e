//! Room, asked for until it is there.

ghost use Rattle.std.specs.Prelude.{OnOk, IsTrue};

use crate::error::TrialError;
use crate::lent::lent;
use crate::refusing::Refusing;
use engine_core::Engine;
use std::alloc::Global;
use version_chain::Chains;

/// The most calls that ask for room: two may be refused, one by the chains and one by the system.
pub const ATTEMPTS: u8 = 3;

/// Makes room for an answer, and tries that a refused call leaves everything that is lent unchanged.
///
/// # Errors
/// `Changed` if a refused call does not. `Memory`: out of memory, or the room is refused at each attempt.
pub fn make_room<C: Chains>(
    alloc: Global,
    engine: &mut Engine<Refusing<C>>,
) -> Result<(), TrialError>
    ensures { OnOk result (IsTrue engine.new.ready) }
{
    if !engine.chains().will_refuse() {
        engine.ready()?;
        return Ok(());
    }
    let before = lent(alloc, engine)?;
    for _ in 0..ATTEMPTS {
        if engine.ready().is_ok() {
            return Ok(());
        }
        if lent(alloc, engine)? != before {
            return Err(TrialError::Changed);
        }
    }
    Err(TrialError::Memory)
}
