//! The output of a run.

ghost use Rattle.std.specs.Prelude.{◌≡◌, Some};

use chain_pool::PooledChains;
use command_output::Output;
use command_output::status::OK;
use engine_core::Engine;

/// Returns the output of a run with this text. The engine after the run gives its history.
pub fn output_of(engine: Engine<PooledChains>, text: Vec<u8>) -> Output
    ensures { result ≡ record { status = 0; text = text.items; history = Some engine.events } }
{
    Output::new(OK, text, Some(engine.into_history()))
}
