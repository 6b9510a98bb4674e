//! A shelf behind a pointer that C holds.

ghost use Rattle.std.specs.Prelude.{◌≡◌, Option, Some, None, IsSome};
ghost use Rattle.tebaldi_c.specs.Shelves.{ShelfState};
ghost use Rattle.tebaldi_c.specs.Holding.{held_owns, shelf_coded};

use crate::parts::Parts;
use crate::shelf::Shelf;
use std::alloc::Global;
use std::marker::{Model, Send};
use std::ptr::null_mut;

/// What C's pointer points to. C never reads or writes there.
#[repr(C)]
#[derive(Clone, Copy)]
pub struct Inside {
    byte: u8,
}

/// A pointer that owns a shelf, or nothing. In C it is a pointer.
#[repr(C)]
#[derive(Drop)]
pub struct Held {
    at: *mut Inside,
    alloc: Global,
    pub ghost value: { Option ShelfState } by { shelf_coded },
}

impl Model for Held {
    ghost also_owns = { λ l. held_owns l.alloc l.at l.value };
}

unsafe impl Send for Held {}

impl Held {
    /// Holds a shelf.
    pub fn of_parts(parts: Parts<Shelf, Global>) -> Held
        ensures { result.value ≡ Some parts.value }
    {
        let Parts { ptr, alloc } = parts;
        Held {
            at: ptr as *mut Inside,
            alloc,
        }
    }

    /// Returns the shelf that is held.
    pub fn into_parts(self) -> Parts<Shelf, Global>
        requires { IsSome self.value }
        ensures { self.value ≡ Some result.value }
    {
        let Held { at, alloc } = self;
        Parts {
            ptr: at as *mut Shelf,
            alloc,
        }
    }

    /// Holds nothing.
    pub fn none(alloc: Global) -> Held
        ensures { result.value ≡ None }
    {
        Held {
            at: null_mut(),
            alloc,
        }
    }
}
