//! What contracts see of the turn that a log belongs to.

use std::marker::Model;
use teb_rules::history::Event;

/// Which front turn a log belongs to, and where the life there begins. No value of it is made: it is for contracts and proofs.
pub struct Site {
    event: Event,
}

impl Model for Site {
    ghost use Rattle.shared_store.specs.Places.{Place, no_place};

    ghost Value = { Place };

    ghost view = { λ s. no_place };
}
