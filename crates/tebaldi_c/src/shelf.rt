//! What a handle points to.

ghost use Rattle.std.specs.Prelude.{◌≡◌, ◌≢◌, None};

use crate::contents::Contents;
use crate::status::{NO_SUCH, OK};
use chain_pool::PooledChains;
use engine_core::Engine;
use std::marker::Model;

/// What a handle points to: a store over a tree text, in memory or in a file. Contracts see the engine, and the file if there is one.
#[derive(Drop)]
pub struct Shelf {
    pub contents: Contents,
}

impl Model for Shelf {
    ghost use Rattle.tebaldi_c.specs.Shelves.{ShelfState};
    ghost use Rattle.tebaldi_c.specs.Contents.{state_of};
    ghost use Rattle.tebaldi_c.specs.SetUp.{IsSetUp};

    ghost Value = { ShelfState };

    ghost view = { λ s. state_of s.contents };

    ghost invariant = { λ s. IsSetUp (state_of s.contents).engine.store (state_of s.contents).engine.names };
}

impl Shelf {
    ghost use Rattle.tebaldi_c.specs.Asking.{IfFile};
    ghost use Rattle.tebaldi_c.specs.Calls.{FilesAfter, FilesFailed};

    /// Returns the engine of the present epoch.
    pub fn engine(&self) -> &Engine<PooledChains>
        ensures { result.now ≡ self.now.engine }
    {
        match &self.contents {
            Contents::Memory(engine) => engine,
            Contents::File(file) => file.engine(),
        }
    }

    /// Notes that the first call that waits was performed on the file. Returns `OK`, or `NO_SUCH` if none waits.
    pub fn performed(&mut self) -> u32
        ensures ok { result ≡ OK → (self.new.engine ≡ self.old.engine) × FilesAfter self.old.file self.new.file }
        ensures none { result ≢ OK → (result ≡ NO_SUCH) × (self.new ≡ self.old) × IfFile self.old.file (λ f. f.waiting ≡ 0) }
    {
        match &mut self.contents {
            Contents::File(file) if file.waiting() > 0 => {
                file.performed();
                OK
            }
            _ => NO_SUCH,
        }
    }

    /// Notes that a call on the file has failed. Returns `OK`, or `NO_SUCH` if there is no file.
    pub fn fail(&mut self) -> u32
        ensures ok { result ≡ OK → (self.new.engine ≡ self.old.engine) × FilesFailed self.old.file self.new.file }
        ensures none { result ≢ OK → (result ≡ NO_SUCH) × (self.new ≡ self.old) × (self.old.file ≡ None) }
    {
        match &mut self.contents {
            Contents::File(file) => {
                file.fail();
                OK
            }
            Contents::Memory(_) => NO_SUCH,
        }
    }
}
