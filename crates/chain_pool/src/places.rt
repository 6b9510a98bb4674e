//! Places, and the steps that write them.

ghost use Rattle.std.specs.Prelude.{◌≡◌, ◌<◌, ◌==◌, ℕ, length, if◌then◌else◌, IsSome, None, Some};
ghost use Rattle.teb_rules.specs.declared.names.Cell.{Cell};
ghost use Rattle.teb_rules.specs.declared.names.Txn.{Txn};
ghost use Rattle.chain_pool.specs.Places.{place_at, slot_of, version_of, slot_at, next_at, previous_at, with_value};

use teb_rules::names::{Cell, Table, Txn};

/// A version with its cell.
#[derive(Clone, Copy)]
pub(crate) struct Version {
    pub(crate) cell: Cell,
    pub(crate) writer: Txn,
    pub(crate) value: Option<i64>,
}

/// What a place holds: nothing if it is free, a version that deletes the row, or one with a value.
#[derive(Clone, Copy)]
pub(crate) enum Content {
    Free,
    Deleted,
    Value(i64),
}

impl Content {
    /// Returns the content of a place with a version of this value.
    #[inline(always)]
    fn of(value: Option<i64>) -> Self
        ensures { (cell : Cell) (writer : Txn) → version_of cell writer result ≡ Some (record { cell = cell; writer = writer; value = value }) }
    {
        match value {
            Some(value) => Content::Value(value),
            None => Content::Deleted,
        }
    }
}

/// A place, in 40 bytes: the cell and the writer of its version, the next place in its writer's list or in the list of free places,
/// its neighbours in its cell's chain, and what it holds. A chain is a ring: its last place leads to its first.
#[derive(Clone, Copy)]
pub(crate) struct Place {
    pub(crate) cell: Cell,
    pub(crate) writer: Txn,
    pub(crate) sibling: u32,
    pub(crate) previous: u32,
    pub(crate) next: u32,
    pub(crate) content: Content,
}

/// A free place that leads nowhere.
pub(crate) const BLANK: Place = Place {
    cell: Cell {
        table: Table(0),
        key: 0,
    },
    writer: Txn(0),
    sibling: 0,
    previous: 0,
    next: 0,
    content: Content::Free,
};

impl Place {
    /// Returns the version at the place, or `None` if it is free.
    #[inline(always)]
    pub(crate) fn version(&self) -> Option<Version>
        ensures { result ≡ (slot_of self.now).version }
    {
        let value = match self.content {
            Content::Free => return None,
            Content::Deleted => None,
            Content::Value(value) => Some(value),
        };
        Some(Version {
            cell: self.cell,
            writer: self.writer,
            value,
        })
    }
}

/// The first place of a list, and its length.
#[derive(Clone, Copy)]
pub(crate) struct Head {
    pub(crate) first: u32,
    pub(crate) len: u32,
}

/// The head of an empty list.
pub(crate) const EMPTY: Head = Head { first: 0, len: 0 };

/// A cell's chain: its head, and its last place, at which a read begins.
#[derive(Clone, Copy)]
pub(crate) struct Chain {
    pub(crate) head: Head,
    pub(crate) last: u32,
}

/// An empty chain.
pub(crate) const NO_CHAIN: Chain = Chain {
    head: EMPTY,
    last: 0,
};

/// Returns the place of a number.
#[inline(always)]
pub(crate) fn at(places: &[Place], place: u32) -> &Place
    requires { place < length places.now }
    ensures { result.now ≡ place_at places.now place }
{
    &places[place as usize]
}

/// Puts a version into a place, between two neighbours; alone in its ring it is its own neighbour. The sibling is the next place
/// in its writer's list.
#[inline(always)]
pub(crate) fn link(
    places: &mut [Place],
    place: u32,
    version: Version,
    sibling: u32,
    before: u32,
    after: u32,
)
    requires place_within { place < length places.old }
    requires before_within { before < length places.old }
    requires after_within { after < length places.old }
    ensures next { (r : ℕ) → next_at places.new r ≡ (if r == before then place else if r == place then after else next_at places.old r) }
    ensures previous { (r : ℕ) → previous_at places.new r ≡ (if r == after then place else if r == place then before else previous_at places.old r) }
    ensures slot { (r : ℕ) → slot_at places.new r ≡ (if r == place then record { version = Some version; sibling = sibling } else slot_at places.old r) }
{
    places[place as usize] = Place {
        cell: version.cell,
        writer: version.writer,
        sibling,
        previous: before,
        next: after,
        content: Content::of(version.value),
    };
    places[before as usize].next = place;
    places[after as usize].previous = place;
}

/// Frees a place, and joins its two neighbours. The sibling is the next free place.
pub(crate) fn unlink(places: &mut [Place], place: u32, sibling: u32, before: u32, after: u32)
    requires place_within { place < length places.old }
    requires before_within { before < length places.old }
    requires after_within { after < length places.old }
    ensures next { (r : ℕ) → next_at places.new r ≡ (if r == before then after else next_at places.old r) }
    ensures previous { (r : ℕ) → previous_at places.new r ≡ (if r == after then before else previous_at places.old r) }
    ensures slot { (r : ℕ) → slot_at places.new r ≡ (if r == place then record { version = None; sibling = sibling } else slot_at places.old r) }
{
    let freed = &mut places[place as usize];
    freed.content = Content::Free;
    freed.sibling = sibling;
    places[before as usize].next = after;
    places[after as usize].previous = before;
}

/// Replaces the value of the version at a place that is not free.
pub(crate) fn rewrite(places: &mut [Place], place: u32, value: Option<i64>)
    requires { IsSome (slot_at places.old place).version }
    ensures next { (r : ℕ) → next_at places.new r ≡ next_at places.old r }
    ensures previous { (r : ℕ) → previous_at places.new r ≡ previous_at places.old r }
    ensures slot { (r : ℕ) → slot_at places.new r ≡ (if r == place then with_value (slot_at places.old place) value else slot_at places.old r) }
{
    places[place as usize].content = Content::of(value);
}
