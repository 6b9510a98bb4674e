//! A store as C has it.

ghost use Rattle.std.specs.Prelude.{◌≡◌, Some, None, is_some};
ghost use Rattle.std.specs.Option.{option_map};

use crate::held::Held;
use crate::parts::Parts;
use crate::shelf::Shelf;
use std::alloc::Global;
use std::mem;

/// A store as C has it, closed if all its bytes are 0. C does not use two copies of an open store, and neither reads nor writes
/// its fields.
#[repr(C)]
#[derive(Drop)]
pub struct StoreHandle {
    is_open: bool,
    pub held: Held,
    ghost agrees: { is_open ≡ is_some held.value },
}

impl StoreHandle {
    /// Takes the shelf out, which leaves the store closed. `None` if it was closed.
    pub fn take(&mut self, alloc: Global) -> Option<Box<Shelf>>
        ensures taken { option_map (λ b. b.value) result ≡ self.old.held.value }
        ensures closed { self.new.held.value ≡ None }
    {
        if !self.is_open {
            return None;
        }
        self.is_open = false;
        let held = mem::replace(&mut self.held, Held::none(alloc));
        Some(held.into_parts().into_box())
    }

    /// Puts a shelf into a closed store, which opens it.
    pub fn put(&mut self, shelf: Box<Shelf>)
        requires { self.old.held.value ≡ None }
        ensures { self.new.held.value ≡ Some shelf.value }
    {
        self.held = Held::of_parts(Parts::of(shelf));
        self.is_open = true;
    }
}
