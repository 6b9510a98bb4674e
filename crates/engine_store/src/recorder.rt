//! An engine tells the record of a commit before it makes it.

ghost use Rattle.commit_laws.specs.Records.{records_of};
ghost use Rattle.commit_journal.specs.Answered.{IsBodyFor};
ghost use Rattle.commit_journal.specs.Kept.{IsFull};

use commit_journal::{BodyError, body_of};
use engine_core::Engine;
use epoch_store::{PrepareError, Recorder};
use std::alloc::{AllocError, Global};
use teb_rules::history::History;
use teb_rules::names::{Cell, Reply, Request, Session};
use version_chain::Chains;

/// An engine that tells the record of a commit before it makes it.
#[derive(Drop)]
pub(crate) struct RecordingEngine<C: Chains> {
    pub engine: Engine<C>,
}

impl<C: Chains> Recorder for RecordingEngine<C> {
    ghost store = { λ e. e.engine.store };

    ghost names = { λ e. e.engine.names };

    ghost events = { λ e. e.engine.events };

    ghost records = { λ e. records_of e.engine.store.setup e.engine.events };

    ghost ready = { λ e. e.engine.ready };

    ghost prepared = { λ e s r bytes. IsBodyFor e.engine.store e.engine.events s r bytes };

    ghost lacks = { λ e left s r. IsFull e.engine.events left s r };

    fn body(
        &self,
        alloc: Global,
        left: u64,
        session: Session,
        request: Request,
    ) -> Result<Vec<u8>, PrepareError> {
        match body_of(alloc, &self.engine, left, session, request) {
            Ok(body) => Ok(body),
            Err(BodyError::Full) => Err(PrepareError::Full),
            Err(BodyError::OutOfMemory) => Err(PrepareError::OutOfMemory),
        }
    }

    fn make_ready(&mut self) -> Result<(), AllocError> {
        self.engine.ready()
    }

    fn answer(&mut self, session: Session, request: Request) -> Reply {
        self.engine.ask(session, request)
    }

    fn rows(&self) -> &[(Cell, i64)] {
        self.engine.setup().rows.rows()
    }

    fn history(&self) -> &History {
        self.engine.history()
    }
}
