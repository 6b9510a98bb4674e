//! What contracts see of the beginning of a store's life.

use std::marker::Model;
use teb_rules::history::Event;

/// Where the life of a store begins. No value of it is made: it is for contracts and proofs.
pub struct Origin {
    event: Event,
}

impl Model for Origin {
    ghost use Rattle.shared_store.specs.Stages.{Stage, no_stage};

    ghost Value = { Stage };

    ghost view = { λ o. no_stage };
}
