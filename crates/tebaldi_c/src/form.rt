//! Calls on a file, and what is known of it, as C has them.

/// A call on a file as C has it.
#[repr(C)]
#[derive(Clone, Copy)]
pub struct CallForm {
    /// 1 is a write, 2 is a sync.
    pub kind: u8,
    /// The place in the file of the first byte that is written.
    pub at: u64,
    /// How many bytes are written.
    pub len: usize,
}

/// What is known of a store's file, as C has it.
#[repr(C)]
#[derive(Clone, Copy)]
pub struct FileForm {
    /// How many commits of this epoch are in the file.
    pub kept: u64,
    /// How many bytes are left for the commits of this epoch.
    pub left: u64,
    /// How many calls on the file wait.
    pub waiting: usize,
    /// Whether nothing is answered any more.
    pub stopped: bool,
}
