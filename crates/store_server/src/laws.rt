//! The whole life of a shared store.

ghost use Rattle.store_server.specs.Serial.{SharedLivesAreSerial};

/// The life of a shared store makes one serial run: the serial orders of its epochs, one after the other, reproduce every read of
/// the transactions that committed, and the rows at the end. It goes on from any past epochs, also from those of other openings.
pub fn shared_lives_are_serial()
    ensures { SharedLivesAreSerial }
{}
