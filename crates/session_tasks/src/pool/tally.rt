//! What a token of the queue knows.

use std::collections::LinkedList;

/// How many of the 256 parts a token has, whether it pushes, how much it has pushed, and which sessions it has taken. No value of
/// it is made: it is for contracts and proofs.
pub struct Tally {
    pub parts: u64,
    pub pushes: bool,
    pub pushed: u64,
    pub taken: LinkedList<u8>,
}
