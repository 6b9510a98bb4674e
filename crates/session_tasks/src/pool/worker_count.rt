//! How many workers there are.

ghost use Rattle.std.specs.Prelude.{◌≤◌};

/// A number of workers, at least one.
#[derive(Clone, Copy)]
pub(crate) struct WorkerCount {
    pub number: u8,
    ghost some: { 1 ≤ number },
}
