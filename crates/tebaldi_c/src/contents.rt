//! What a handle holds: a store in memory, or one in a file.

use crate::filed::FileStore;
use chain_pool::PooledChains;
use engine_core::Engine;

/// A store in memory, or one in a file.
#[derive(Drop)]
pub enum Contents {
    Memory(Engine<PooledChains>),
    File(FileStore),
}
