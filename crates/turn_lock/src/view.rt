//! What a seat knows. No value of these types is made: they are for contracts and proofs.
use std::collections::LinkedList;

/// What a seat knows of its turn.
pub struct View<E, B> {
    /// The base of every value of the turn. None in a view that was joined into another.
    pub base: Option<B>,
    /// Whose entries this seat alone may add.
    pub owners: LinkedList<u8>,
    /// How often it may enter.
    pub turns: u64,
    /// The ticket that it drew and has not spent.
    pub ticket: Option<u64>,
    /// Whether it is at the turn.
    pub inside: bool,
    /// The entries that it has seen: a beginning of those of every later value.
    pub seen: LinkedList<E>,
    /// The word of each note that it knows, 0 for the others.
    pub notes: LinkedList<u64>,
    /// Each look at a note, with the word that it found, the latest first.
    pub looked: LinkedList<(u64, u64)>,
    /// What each of the seats knew that make up this one, since its last turn or split.
    pub heard: LinkedList<Heard<E, B>>,
}

/// What a seat knew when it was joined to another.
pub struct Heard<E, B> {
    pub base: Option<B>,
    pub owners: LinkedList<u8>,
    pub seen: LinkedList<E>,
    pub notes: LinkedList<u64>,
}
