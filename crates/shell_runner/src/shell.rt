//! The shell between two lines.

ghost use Rattle.std.specs.Prelude.{◌≡◌};
ghost use Rattle.shell_lines.specs.Sessions.{no_waits};

use shell_lines::Waits;

/// The shell between two lines.
#[derive(Drop)]
pub struct Shell<T> {
    pub store: T,
    /// The number of the epoch, from 1.
    pub epoch: u64,
    /// The format of the tree text.
    pub format: u8,
    /// Which transaction each session waits for.
    pub waits: Waits,
}

impl<T> Shell<T> {
    /// Returns the shell over a store that was opened just now.
    pub fn new(store: T, format: u8) -> Shell<T>
        ensures store { result.store ≡ store }
        ensures epoch { result.epoch ≡ 1 }
        ensures format { result.format ≡ format }
        ensures waits { result.waits ≡ no_waits }
    {
        Shell {
            store,
            epoch: 1,
            format,
            waits: Waits::new(),
        }
    }
}
