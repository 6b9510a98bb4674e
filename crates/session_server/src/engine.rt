//! An engine as a server: it only fails if memory runs out.

use engine_core::Engine;
use hall_server::{Server, ServerError, UnaskedError};
use std::alloc::Global;
use teb_rules::history::History;
use teb_rules::names::{Reply, Request, Session};
use version_chain::Chains;

/// An engine, as a hall serves it.
#[derive(Drop)]
pub struct EngineServer<C: Chains> {
    pub engine: Engine<C>,
}

impl<C: Chains> Server for EngineServer<C> {
    ghost store = { λ s. s.engine.store };

    ghost names = { λ s. s.engine.names };

    ghost events = { λ s. s.engine.events };

    ghost unsure = { λ _. ⊥ };

    fn serve(
        &mut self,
        _alloc: Global,
        session: Session,
        request: Request,
    ) -> Result<Reply, ServerError> {
        match self.engine.ready() {
            Ok(()) => Ok(self.engine.ask(session, request)),
            Err(_) => Err(ServerError::Unasked(UnaskedError::OutOfMemory)),
        }
    }

    fn history(&self) -> &History {
        self.engine.history()
    }
}
