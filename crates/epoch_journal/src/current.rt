//! Which half of a disk is current.

/// A half of a disk.
#[derive(Clone, Copy, Debug, PartialEq, Eq)]
pub enum Half {
    First,
    Second,
}

/// Which half of a disk is current.
#[derive(Clone, Copy, Debug, PartialEq, Eq)]
pub enum Current {
    /// None: the disk ends before its halves.
    Blank,
    /// This one.
    Half(Half),
}
