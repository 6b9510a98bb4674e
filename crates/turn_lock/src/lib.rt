//! A ticket lock whose value travels with the turn.
//!
//! A [`Turn`] holds one value. A thread that enters takes the value out, changes it as a plain value that only it has,
//! and puts it back as it leaves. Turns go in the order of tickets, so that no two seats have the value at once.
//! Beside the value stand the notes: words that are written once, at the turn, and that any seat may look at
//! without entering.
//!
//! ```text
//!   word 0   next       the ticket that is drawn next
//!   word 1   serving    the ticket whose seat is at the turn
//!   word 2+i note i     0 until it is published, and then one word for ever
//!   slot 0   the value, while no seat is at the turn
//!
//!                 draw          look at serving         publish ..        move serving
//!   outside ─────────► waiting ─────────────────► at the turn ─────────────────────► outside
//!                      (ticket)    (takes the slot)          (gives the slot back)
//! ```
//!
//! A thread acts through a [`Seat`]. A seat has no bytes: it stands for a view, what the thread knows, which exists
//! in proofs alone. The rule (`specs/Rule.antt`) ties all views to the words and the slot, and each step keeps it:
//!
//! | Step | On | What the seat's view gains |
//! |---|---|---|
//! | draw a ticket | add 1 to word 0 | the ticket, for one of its turns |
//! | look at serving | load word 1 | where it finds its ticket, it is at the turn: it has the slot, and has seen the value's entries and notes |
//! | take the slot | read slot 0, as plain memory | nothing: the value is the one that it has seen |
//! | give the slot back | write slot 0, as plain memory | nothing |
//! | move serving | add 1 to word 1 | the entries that it added; the ticket is spent, and the slot is back |
//! | split | load word 0 | a new seat has an owner and turns of it, and has seen the same |
//! | join | load word 0 | what the other seat knew; the other is spent |
//! | publish a note | store to word 2 + i | the note |
//! | look at a note | load word 2 + i | the note, if the word is above 0 |
//!
//! Moving serving is the single step that makes a turn count: until then no other seat can see what it added.
//!
//! **Why what a seat has seen lasts.** The entries of the value only grow, and each new one has an owner of the seat
//! that added it. Each owner belongs to one seat. So whatever a seat takes later begins with all that it has seen, and
//! what others added meanwhile is none of its own.
//!
//! **Why a look cannot lie.** A note is published only where its word is 0, at the turn, with the word that the value
//! has for it, and no value may be left without it. So a word above 0 is that note in every later value, and is
//! answered at each later look.
//!
//! **Not claimed**: that a thread that enters ever gets the turn, in what time, or that waiting is fair; who comes
//! first; any order between two seats beyond what each has seen; that an allocation succeeds.
#![tactic(auto)]

mod close;
mod member;
mod notes;
mod opening;
mod passage;
mod seats;
mod steps;
mod turn;
mod view;

pub use member::Member;
pub use turn::{Seat, SeatOf, Turn};
pub use view::{Heard, View};
