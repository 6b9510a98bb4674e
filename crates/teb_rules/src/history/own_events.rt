//! A transaction's own events.

use super::Event;
use std::marker::Model;

/// The remaining events of one transaction, the newest first.
#[derive(Drop)]
pub struct OwnEvents<'a> {
    events: &'a [Event],
    // For each event the end of its transaction's events before it.
    previous: &'a [usize],
    // The end of the remaining events: the next one is right before it.
    end: usize,
}

impl<'a> Model for OwnEvents<'a> {
    ghost use Rattle.std.specs.Prelude.{List};
    ghost use Rattle.teb_rules.specs.declared.history.Event.{Event};

    ghost Value = { List Event };

    ghost use Rattle.teb_rules.specs.history.OwnEvents.{own_before, IsLinked};

    ghost view = { λ it. own_before it.events.now it.end };

    ghost invariant = { λ it. IsLinked it.events.now it.previous.now it.end };
}

impl<'a> OwnEvents<'a> {
    ghost use Rattle.std.specs.Prelude.{◌≡◌};
    ghost use Rattle.teb_rules.specs.history.OwnEvents.{own_before, IsLinked};

    pub(crate) fn new(events: &'a [Event], previous: &'a [usize], end: usize) -> Self
        requires { IsLinked events.now previous.now end }
        ensures { result ≡ own_before events.now end }
    {
        OwnEvents {
            events,
            previous,
            end,
        }
    }
}

impl<'a> Iterator for OwnEvents<'a> {
    ghost use Rattle.std.specs.Iterator.{YieldsFirst, item_count};

    type Item = Event;

    ghost next_gives = { YieldsFirst (λ left. left) };

    ghost remaining = { item_count (λ left. left) };

    fn next(&mut self) -> Option<Event> {
        if self.end == 0 {
            return None;
        }
        let newest = self.end - 1;
        self.end = self.previous[newest];
        Some(self.events[newest])
    }
}
