//! Laws of the forms.

ghost use Rattle.c_forms.specs.Laws.{RepliesAreReadBack, RepliesDiffer, EventsDiffer};

/// The form of a reply is read back as that reply.
pub fn replies_are_read_back()
    ensures { RepliesAreReadBack }
{}

/// Two replies with the same form are the same: a form loses nothing.
pub fn replies_differ()
    ensures { RepliesDiffer }
{}

/// Two events with the same form are the same.
pub fn events_differ()
    ensures { EventsDiffer }
{}
